//! The lines of `group`: for each group the names of its members and their canonical board.
ghost use Rattle.std.specs.Prelude.{◌++◌, ◌≡◌, All, List, OnOk};
ghost use Rattle.fc_collect.specs.Groups.{canonical_text, group_lines, Member};
ghost use Rattle.fc_collect.specs.inside.{group_key, HasBoard, KeepsNames};

use crate::commands::names::GroupNames;
use crate::{Accepted, AnyGame, Counted, Gathering, GroupKey, RunFault, write_full};
use fc_board::{BakersGame, EightOff, FreeCell, Variant};
use fc_canon::Passage;
use fc_record::{push_header, push_name, push_number};
use std::alloc::{AllocError, Global};
use std::io::Write;

/// Prints the names of the members of each group.
#[derive(Drop)]
pub(crate) struct GroupLines;

impl Gathering for GroupLines {
    type Kept = GroupNames;

    ghost keeps = { KeepsNames };

    ghost lines = { group_lines };

    fn first<R: AnyGame>(
        alloc: Global,
        accepted: Accepted<'_, R>,
        _passage: Passage<R>,
    ) -> Result<GroupNames, AllocError> {
        let mut names = Vec::new(alloc);
        push_name(accepted.number, accepted.heading.name, &mut names)?;
        let first_len = names.len();
        Ok(GroupNames {
            names,
            first_len,
            count: 1,
        })
    }

    fn add<R: AnyGame>(
        _alloc: Global,
        kept: &mut GroupNames,
        accepted: Accepted<'_, R>,
        _passage: Passage<R>,
    ) -> Result<(), AllocError> {
        kept.names.push(b' ')?;
        push_name(accepted.number, accepted.heading.name, &mut kept.names)?;
        kept.count += 1;
        Ok(())
    }

    fn send_group<Wr: Write>(
        _alloc: Global,
        key: &GroupKey,
        kept: &GroupNames,
        pending: &mut Vec<u8>,
        output: &mut Counted<Wr>,
    ) -> Result<(), RunFault> {
        push_group(key, kept, pending)?;
        write_full(pending, output)
    }
}

// Prints the lines for a group.
fn push_group(key: &GroupKey, kept: &GroupNames, out: &mut Vec<u8>) -> Result<(), AllocError>
    ensures printed { OnOk result ((members : List Member) → KeepsNames kept.now members
        → All HasBoard members → All (λ member. group_key member ≡ key.now) members
        → out.new.items ≡ out.old.items ++ group_lines members) }
{
    let names = kept.names.as_slice();
    push_header(key.variant, &names[..kept.first_len], out)?;
    out.extend_from_slice(b"# members ")?;
    push_number(kept.count, out)?;
    out.extend_from_slice(b": ")?;
    out.extend_from_slice(names)?;
    out.push(b'\n')?;
    push_canonical(key, out)
}

// Prints the canonical board of the group.
fn push_canonical(key: &GroupKey, out: &mut Vec<u8>) -> Result<(), AllocError>
    ensures printed { OnOk result ((member : Member) → HasBoard member → group_key member ≡ key.now
        → out.new.items ≡ out.old.items ++ canonical_text member) }
{
    match key.variant {
        Variant::FreeCell => key.board.push_text::<FreeCell>(out),
        Variant::BakersGame => key.board.push_text::<BakersGame>(out),
        Variant::EightOff => key.board.push_text::<EightOff>(out),
    }
}
