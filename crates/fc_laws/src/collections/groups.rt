//! Laws of groups.
ghost use Rattle.std.specs.{List.{Contains, filter}, Prelude.{◌↔◌, ◌∷◌, ◌≡◌, [], length, List}};
ghost use Rattle.std.specs.Prelude.{map, slice_get, Some, take, true, ℕ};
ghost use Rattle.{fc_board.specs.declared.rule.Variant.{Variant}, fc_card.specs.Types.{Text}};
ghost use Rattle.fc_board.specs.{Boards.{IsWellFormed}, Games.{game_of}};
ghost use Rattle.fc_board.specs.Moves.{ListFits, MoveList};
ghost use Rattle.fc_canon.specs.{Equivalent};
ghost use Rattle.fc_collect.specs.Groups.{belong_together, groups_of, leaders_after, Member};
ghost use Rattle.fc_collect.specs.{Groups.{members_among}, Records.{records_of}};

/// The accepted records of a collection have well-formed boards and lists of moves of their games,
/// and no two of them have one number.
pub fn accepted_records_are_sound()
    ensures boards { (variant : Variant) (collection : Text) (member : Member)
        → Contains (members_among variant (records_of collection)) member
        → IsWellFormed (game_of member.heading.variant) member.contents.board }
    ensures lists { (variant : Variant) (collection : Text) (member : Member) (list : MoveList)
        → Contains (members_among variant (records_of collection)) member
        → Contains member.contents.lists list → ListFits (game_of member.heading.variant) list }
    ensures numbers { (variant : Variant) (collection : Text) (member other : Member)
        → Contains (members_among variant (records_of collection)) member
        → Contains (members_among variant (records_of collection)) other
        → member.number ≡ other.number → member ≡ other }
{}

/// Two accepted records of a collection are in one group exactly if they are of one variant and
/// their boards are equivalent in its game; a group has accepted records alone, and no record
/// is in two groups.
pub fn groups_are_classes()
    ensures together { (variant : Variant) (collection : Text) (member other : Member)
        → Contains (members_among variant (records_of collection)) member
        → Contains (members_among variant (records_of collection)) other
        → ((group : List Member)
        × Contains (groups_of (members_among variant (records_of collection))) group
        × Contains group member × Contains group other)
        ↔ ((member.heading.variant ≡ other.heading.variant)
        × Equivalent (game_of member.heading.variant) member.contents.board other.contents.board) }
    ensures of_members { (members group : List Member) (member : Member)
        → Contains (groups_of members) group
        → Contains group member → Contains members member }
    ensures apart { (members group other : List Member) (place next : ℕ) (member : Member)
        → slice_get (groups_of members) place ≡ Some group
        → slice_get (groups_of members) next ≡ Some other
        → Contains group member → Contains other member → place ≡ next }
{}

/// Accepted records with well-formed boards belong together exactly if they are of one variant and
/// their boards are equivalent in its game.
pub fn together_exactly_where_equivalent()
    ensures { (member other : Member)
        → IsWellFormed (game_of member.heading.variant) member.contents.board
        → IsWellFormed (game_of other.heading.variant) other.contents.board
        → (belong_together member other ≡ true)
        ↔ ((member.heading.variant ≡ other.heading.variant)
        × Equivalent (game_of member.heading.variant) member.contents.board other.contents.board) }
{}

/// Each accepted record belongs together with exactly one of those that lead the groups.
#[tactic(auto, using(fc_collect::proofs::GroupNameLemmas::one_leader))]
pub fn each_member_has_one_leader()
    ensures { (members : List Member) (member : Member) → Contains members member
        → length (filter (λ leader. belong_together leader member) (leaders_after [] members)) ≡ 1 }
{}

/// Each group begins with the record that leads it, and groups come in the order of these.
pub fn leaders_come_first()
    ensures { (members : List Member) → map (take 1) (groups_of members)
        ≡ map (λ leader. leader ∷ []) (leaders_after [] members) }
{}
