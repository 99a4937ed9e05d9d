//! Laws of the solutions that the members of a group share.
ghost use Rattle.std.specs.{List.{Contains}, Prelude.{◌++◌, ◌≡◌, List, None, Some}};
ghost use Rattle.{fc_board.specs.declared.rule.Variant.{Variant}, fc_card.specs.Types.{Text}};
ghost use Rattle.fc_board.specs.{Games.{game_of}, Moves.{MoveList}, Play.{Wins}};
ghost use Rattle.{fc_canon.specs.{IsFirst}, fc_record.specs.Printing.{list_line}};
ghost use Rattle.fc_collect.specs.Groups.{groups_of, Member, member_lines, members_among};
ghost use Rattle.fc_collect.specs.Groups.{owner_among, solution_line, solution_of};
ghost use Rattle.fc_collect.specs.Records.{records_of};

/// Where no list of a group wins from its own board, none of the members gets a list. Where one
/// does, each of them gets one, and it wins from the member's own board.
pub fn solutions_are_shared()
    ensures none { (variant : Variant) (collection : Text) (group : List Member)
        → Contains (groups_of (members_among variant (records_of collection))) group
        → ((member : Member) (list : MoveList) → Contains group member
        → Contains member.contents.lists list
        → ¬ Wins (game_of member.heading.variant) member.contents.board list)
        → (member : Member) → Contains group member
        → member_lines (owner_among group) member ≡ member_lines None member }
    ensures solved { (variant : Variant) (collection : Text) (group : List Member)
        (winner : Member) (winning : MoveList)
        → Contains (groups_of (members_among variant (records_of collection))) group
        → Contains group winner → Contains winner.contents.lists winning
        → Wins (game_of winner.heading.variant) winner.contents.board winning
        → (member : Member) → Contains group member
        → (list : MoveList) × Wins (game_of member.heading.variant) member.contents.board list
        × (member_lines (owner_among group) member
        ≡ member_lines None member ++ list_line list) }
{}

/// The solution that is shared is the first winning list of the first member that has one, and that
/// member gets it as it is.
pub fn the_first_solution_is_shared()
    ensures owner { (members : List Member) (owner : Member) → owner_among members ≡ Some owner
        → IsFirst (λ member. (list : MoveList) × (solution_of member ≡ Some list)) members owner }
    ensures list { (variant : Variant) (collection : Text) (member : Member) (list : MoveList)
        → Contains (members_among variant (records_of collection)) member
        → solution_of member ≡ Some list
        → IsFirst (Wins (game_of member.heading.variant) member.contents.board)
        member.contents.lists list }
    ensures unchanged { (owner : Member) (list : MoveList) → solution_of owner ≡ Some list
        → solution_line owner (Some owner) ≡ list_line list }
{}
