//! Laws of the lists of a record: what `check` and `expand` print for each.
ghost use Rattle.std.specs.{Fmt.{decimal}, List.{Contains}, Prelude.{◌++◌, ◌+◌, ◌<◌, ◌↔◌, ◌∷◌}};
ghost use Rattle.std.specs.Prelude.{◌≡◌, ◌≤◌, [], codes, length, List, true, ℕ};
ghost use Rattle.{fc_card.specs.Types.{Text}, fc_text.specs.Bytes.{blank, line_feed, number_sign}};
ghost use Rattle.fc_board.specs.{Boards.{Board}, Games.{game_of}};
ghost use Rattle.fc_board.specs.Moves.{move_count, MoveList, OneCard};
ghost use Rattle.fc_board.specs.Play.{Legal, list_verdict, Plays, RefusedAt, Wins};
ghost use Rattle.fc_board.specs.Steps.{step_reason};
ghost use Rattle.fc_board.specs.declared.{fault.StepFault.{StepFault}, rule.Variant.{Variant}};
ghost use Rattle.fc_record.specs.{Grammar.{begins_with, Heading}, Printing.{check_lines}};
ghost use Rattle.fc_record.specs.Printing.{expand_lines, expanded_line, list_line, name_of};
ghost use Rattle.fc_record.specs.Printing.{one_card_moves, verdict_line};
ghost use Rattle.fc_collect.specs.{Groups.{Member, members_among}, Records.{records_of}};

/// The line of `check` for a list of an accepted record says that it wins exactly if it does, that
/// it is legal exactly if it is and does not win, and that it is illegal at a move for a reason
/// exactly if the game refuses that move for that reason.
pub fn check_says_what_lists_do()
    ensures wins { (variant : Variant) (collection name : Text) (member : Member) (number : ℕ)
        (list : MoveList)
        → Contains (members_among variant (records_of collection)) member
        → Contains member.contents.lists list
        → verdict_line name (game_of member.heading.variant) member.contents.board number list
        ≡ name ++ blank ∷ decimal number ++ codes " wins " ++ decimal (move_count list)
        ++ line_feed ∷ []
        ↔ Wins (game_of member.heading.variant) member.contents.board list }
    ensures legal { (variant : Variant) (collection name : Text) (member : Member) (number : ℕ)
        (list : MoveList)
        → Contains (members_among variant (records_of collection)) member
        → Contains member.contents.lists list
        → verdict_line name (game_of member.heading.variant) member.contents.board number list
        ≡ name ++ blank ∷ decimal number ++ codes " legal " ++ decimal (move_count list)
        ++ line_feed ∷ []
        ↔ (Legal (game_of member.heading.variant) member.contents.board list
        × ¬ Wins (game_of member.heading.variant) member.contents.board list) }
    ensures illegal { (variant : Variant) (collection name : Text) (member : Member)
        (number index : ℕ) (list : MoveList) (fault : StepFault)
        → Contains (members_among variant (records_of collection)) member
        → Contains member.contents.lists list → index < move_count list
        → verdict_line name (game_of member.heading.variant) member.contents.board number list
        ≡ name ++ blank ∷ decimal number ++ codes " illegal " ++ decimal index
        ++ blank ∷ step_reason fault ++ line_feed ∷ []
        ↔ RefusedAt (game_of member.heading.variant) member.contents.board list index fault }
{}

/// `expand` prints a list of an accepted record as its moves of one card exactly if it is legal and
/// they are at most 4,096; else it prints a comment, which says that the list is illegal at a move
/// for a reason, or too long, exactly if it is. The verdict on the moves is that on the list, and
/// they lead to the board to which the list leads.
pub fn expand_prints_legal_lists()
    ensures listed { (variant : Variant) (collection : Text) (member : Member) (number : ℕ)
        (list : MoveList)
        → Contains (members_among variant (records_of collection)) member
        → Contains member.contents.lists list
        → expanded_line (game_of member.heading.variant) member.contents.board number list
        ≡ list_line (OneCard (one_card_moves (game_of member.heading.variant)
        member.contents.board list))
        ↔ (Legal (game_of member.heading.variant) member.contents.board list
        × length (one_card_moves (game_of member.heading.variant) member.contents.board list)
        ≤ 4096) }
    ensures comment { (variant : Variant) (collection : Text) (member : Member) (number : ℕ)
        (list : MoveList)
        → Contains (members_among variant (records_of collection)) member
        → Contains member.contents.lists list
        → begins_with number_sign (expanded_line (game_of member.heading.variant)
        member.contents.board number list) ≡ true
        ↔ ¬ (Legal (game_of member.heading.variant) member.contents.board list
        × length (one_card_moves (game_of member.heading.variant) member.contents.board list)
        ≤ 4096) }
    ensures illegal { (variant : Variant) (collection : Text) (member : Member)
        (number index : ℕ) (list : MoveList) (fault : StepFault)
        → Contains (members_among variant (records_of collection)) member
        → Contains member.contents.lists list → index < move_count list
        → expanded_line (game_of member.heading.variant) member.contents.board number list
        ≡ codes "# list " ++ decimal number ++ codes " illegal " ++ decimal index
        ++ blank ∷ step_reason fault ++ line_feed ∷ []
        ↔ RefusedAt (game_of member.heading.variant) member.contents.board list index fault }
    ensures too_long { (variant : Variant) (collection : Text) (member : Member) (number : ℕ)
        (list : MoveList)
        → Contains (members_among variant (records_of collection)) member
        → Contains member.contents.lists list
        → expanded_line (game_of member.heading.variant) member.contents.board number list
        ≡ codes "# list " ++ decimal number ++ codes " too long" ++ line_feed ∷ []
        ↔ (Legal (game_of member.heading.variant) member.contents.board list
        × 4096 < length (one_card_moves (game_of member.heading.variant) member.contents.board
        list)) }
    ensures verdict { (variant : Variant) (collection : Text) (member : Member) (list : MoveList)
        → Contains (members_among variant (records_of collection)) member
        → Contains member.contents.lists list
        → Legal (game_of member.heading.variant) member.contents.board list
        → list_verdict (game_of member.heading.variant) member.contents.board
        (OneCard (one_card_moves (game_of member.heading.variant) member.contents.board list))
        ≡ list_verdict (game_of member.heading.variant) member.contents.board list }
    ensures leads { (variant : Variant) (collection : Text) (member : Member) (after : Board)
        (list : MoveList)
        → Contains (members_among variant (records_of collection)) member
        → Plays (game_of member.heading.variant) member.contents.board list after
        → Plays (game_of member.heading.variant) member.contents.board
        (OneCard (one_card_moves (game_of member.heading.variant) member.contents.board list))
        after }
{}

/// A record with one list more gets one line more, in `check` and in `expand`, with the number that
/// the list has in its record, counted from 1.
pub fn lists_are_numbered_from_1()
    ensures first { (number : ℕ) (heading : Heading) (board : Board) (list : MoveList)
        → check_lines number heading (record { board = board; lists = list ∷ [] })
        ≡ verdict_line (name_of number heading.name) (game_of heading.variant) board 1 list }
    ensures checked { (number : ℕ) (heading : Heading) (board : Board) (lists : List MoveList)
        (list : MoveList) → 0 < length lists
        → check_lines number heading (record { board = board; lists = lists ++ list ∷ [] })
        ≡ check_lines number heading (record { board = board; lists = lists })
        ++ verdict_line (name_of number heading.name) (game_of heading.variant) board
        (length lists + 1) list }
    ensures expanded { (number : ℕ) (heading : Heading) (board : Board) (lists : List MoveList)
        (list : MoveList)
        → expand_lines number heading (record { board = board; lists = lists ++ list ∷ [] })
        ≡ expand_lines number heading (record { board = board; lists = lists })
        ++ expanded_line (game_of heading.variant) board (length lists + 1) list }
{}
