//! The names of the members of a group, as `group` keeps them.
ghost use Rattle.std.specs.Prelude.{◌+◌, ◌≤◌, length};

/// The names of a group's members as they are printed, each but the first after a blank, how long
/// the first is, and how many they are.
#[derive(Drop)]
pub struct GroupNames {
    pub names: Vec<u8>,
    pub first_len: usize,
    pub count: usize,
    ghost first: { first_len ≤ length names.items },
    ghost counted: { count ≤ length names.items + 1 },
}
