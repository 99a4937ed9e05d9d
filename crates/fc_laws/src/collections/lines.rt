//! Laws of what a record says and of what is printed for it.
ghost use Rattle.std.specs.{List.{All, find}, Prelude.{◌++◌, ◌+◌, ◌↔◌, ◌∷◌, ◌≡◌, ◌≢◌, ◌≤◌, ◌⊎◌}};
ghost use Rattle.std.specs.Prelude.{[], Err, false, None, Ok, Option, Some, true, ℕ};
ghost use Rattle.{fc_board.specs.declared.rule.Variant.{Variant}, fc_card.specs.Types.{Text}};
ghost use Rattle.fc_board.specs.{Boards.{Board, IsWellFormed}, Games.{Game, game_of, renamings_of}};
ghost use Rattle.fc_board.specs.Moves.{MoveList};
ghost use Rattle.fc_text.specs.{Bytes.{line_feed, number_sign}, Faults.{first_fault}};
ghost use Rattle.fc_text.specs.Lines.{lines_from};
ghost use Rattle.fc_text.specs.Notation.{BadTokenAt, IsRunToken, IsToken, TooManyAt};
ghost use Rattle.fc_text.specs.Spelling.{Spells};
ghost use Rattle.fc_text.specs.declared.fault.BoardFault.{BoardFault as FoundFault};
ghost use Rattle.fc_canon.specs.{Canonical, Chosen, chosen_passage, least_text};
ghost use Rattle.fc_record.specs.Grammar.{Accepted, BadHeaderAt, begins_with, Contents, fault_at};
ghost use Rattle.fc_record.specs.Grammar.{HeaderSays, Heading, heading_of, IsFaulty, IsList};
ghost use Rattle.fc_record.specs.Grammar.{list_mark, list_read, reading_of, RecordSays, Refused};
ghost use Rattle.fc_record.specs.Grammar.{with_header, without_header};
ghost use Rattle.fc_record.specs.{Printing.{name_of, show_lines}, RecordTexts.{ends_line}};
ghost use Rattle.fc_record.specs.declared.record.RecordFault.{RecordFault};
ghost use Rattle.fc_record.specs.declared.record.RecordFaultKind.TheVariants.{BadHeader, BadToken};
ghost use Rattle.fc_record.specs.declared.record.RecordFaultKind.TheVariants.{Board as BoardFault};
ghost use Rattle.fc_record.specs.declared.record.RecordFaultKind.TheVariants.{TooManyMoves};
ghost use Rattle.fc_collect.specs.{Limits.{most_countable}, Pieces.{header_starts}};
ghost use Rattle.fc_collect.specs.Records.{if_record, records_of};

/// A record is accepted exactly where its header says something, its board text spells a board and
/// the lines from the first list on are lists, blank or comments.
pub fn accepted_records_say_what_they_spell()
    ensures { (variant : Variant) (bytes : Text) (heading : Heading) (contents : Contents)
        → reading_of variant bytes ≡ Accepted heading contents
        ↔ RecordSays variant bytes heading contents }
{}

/// A record is refused for its first fault: that of its header; else that of its board text; else
/// that of the first line, from the first list on, that is neither a list nor blank nor a comment.
pub fn records_are_refused_for_their_first_fault()
    ensures { (variant : Variant) (bytes : Text) (name : Option Text) (fault : RecordFault)
        → reading_of variant bytes ≡ Refused name fault
        ↔ IsFaulty variant bytes name fault }
{}

/// A header is read as what it says: the word of a game, or this and a name. Where there is none,
/// the game is the one that is handed in. Any other header is refused at the place where it is
/// bad.
pub fn headers_say_their_game_and_name()
    ensures says { (variant : Variant) (bytes : Text) (heading : Heading)
        → heading_of variant bytes ≡ Ok heading ↔ HeaderSays variant bytes heading }
    ensures bad { (variant : Variant) (bytes : Text) (fault : RecordFault)
        → heading_of variant bytes ≡ Err fault
        ↔ ((place : ℕ) × (fault ≡ fault_at place BadHeader) × BadHeaderAt bytes place) }
    ensures either { (variant : Variant) (bytes : Text)
        → ((heading : Heading) × HeaderSays variant bytes heading)
        ⊎ ((place : ℕ) × BadHeaderAt bytes place) }
{}

/// What `canon` prints is the canonical text of each board, and the passage that is chosen.
pub fn canonical_lines_are_canonical()
    ensures text { (variant : Variant) (board : Board) → IsWellFormed (game_of variant) board
        → Canonical (game_of variant) board (least_text (renamings_of variant) board) }
    ensures passage { (variant : Variant) (board : Board) → IsWellFormed (game_of variant) board
        → Chosen (game_of variant) (renamings_of variant) board
        (chosen_passage (renamings_of variant) board) }
{}

/// A collection in which no line begins with `@` or `>` is one board: its text spells it, or it is
/// refused for the first fault of the text.
pub fn a_board_alone()
    ensures one_record { (text : Text) → header_starts text ≡ []
        → records_of text ≡ if_record (record { number = 1; start = 0; bytes = text }) }
    ensures spelled { (variant : Variant) (text : Text) → header_starts text ≡ []
        → find (λ line. begins_with list_mark line.bytes) (lines_from 0 text) ≡ None
        → (board : Board) → Spells (game_of variant) text board
        → reading_of variant text
        ≡ Accepted (without_header variant) (record { board = board; lists = [] }) }
    ensures faulty { (variant : Variant) (text : Text) → header_starts text ≡ []
        → find (λ line. begins_with list_mark line.bytes) (lines_from 0 text) ≡ None
        → (fault : FoundFault) → first_fault (game_of variant) text ≡ Some fault
        → reading_of variant text
        ≡ Refused None (record { place = fault.place; kind = BoardFault fault.kind }) }
{}

/// A comment after an accepted record that a line feed ends changes nothing of what it says.
pub fn comments_say_nothing()
    ensures { (variant : Variant) (bytes comment : Text) (heading : Heading) (contents : Contents)
        → ends_line bytes ≡ true → All (λ byte. byte ≢ line_feed) comment
        → reading_of variant bytes ≡ Accepted heading contents
        → reading_of variant (bytes ++ (number_sign ∷ comment ++ line_feed ∷ []))
        ≡ Accepted heading contents }
{}

/// What `show` prints for an accepted record is read as that record again: with its header and the
/// name that it was printed with, whichever game is handed in, or without one as before.
pub fn shown_records_are_read_again()
    ensures with_header { (variant other : Variant) (number : ℕ) (bytes : Text)
        (heading : Heading)
        (contents : Contents)
        → reading_of variant bytes ≡ Accepted heading contents → heading.has_header ≡ true
        → number ≤ most_countable
        → reading_of other (show_lines number heading contents)
        ≡ Accepted (with_header heading.variant (Some (name_of number heading.name))) contents }
    ensures without_header { (variant : Variant) (number : ℕ) (bytes : Text) (heading : Heading)
        (contents : Contents)
        → reading_of variant bytes ≡ Accepted heading contents → heading.has_header ≡ false
        → reading_of variant (show_lines number heading contents) ≡ Accepted heading contents }
{}

/// A line is read as the moves that it lists after its marks. It is refused at its first word that
/// is no move of the game, or that is one too many: at its place after one mark, and after two.
pub fn lists_are_refused_at_their_words()
    ensures listed { (game : Game) (place : ℕ) (line : Text) (list : MoveList) → game.cells ≤ 8
        → list_read game place line ≡ Ok list ↔ IsList game line list }
    ensures bad_token { (game : Game) (place at : ℕ) (text : Text) → game.cells ≤ 8
        → begins_with list_mark text ≡ false → BadTokenAt (IsToken game) text at
        → list_read game place (list_mark ∷ text)
        ≡ Err (record { place = place + 1 + at; kind = BadToken }) }
    ensures too_many { (game : Game) (place at : ℕ) (text : Text) → game.cells ≤ 8
        → begins_with list_mark text ≡ false → TooManyAt (IsToken game) text at
        → list_read game place (list_mark ∷ text)
        ≡ Err (record { place = place + 1 + at; kind = TooManyMoves }) }
    ensures bad_run { (game : Game) (place at : ℕ) (text : Text) → game.cells ≤ 8
        → BadTokenAt (IsRunToken game) text at
        → list_read game place (list_mark ∷ list_mark ∷ text)
        ≡ Err (record { place = place + 2 + at; kind = BadToken }) }
    ensures too_many_runs { (game : Game) (place at : ℕ) (text : Text) → game.cells ≤ 8
        → TooManyAt (IsRunToken game) text at
        → list_read game place (list_mark ∷ list_mark ∷ text)
        ≡ Err (record { place = place + 2 + at; kind = TooManyMoves }) }
{}
