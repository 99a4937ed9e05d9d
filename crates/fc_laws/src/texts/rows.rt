//! Laws of the lines of a board's text and of what they hold.
ghost use Rattle.std.specs.Prelude.{◌++◌, ◌+◌, ◌<◌, ◌∷◌, ◌≡◌, ◌≢◌, [], codes, length, List, map};
ghost use Rattle.std.specs.{Prelude.{Some, ℕ}, Str.{str_to_ascii_uppercase}};
ghost use Rattle.{fc_board.specs.Games.{freecell, Game}, fc_card.specs.Types.{Card, Text}};
ghost use Rattle.fc_text.specs.{Bytes.{carriage_return, line_feed}, Faults.{first_fault}};
ghost use Rattle.fc_text.specs.Lines.{lines_from, moved, trim_carriage_return};
ghost use Rattle.fc_text.specs.Rows.{line_of, Row, rows_of};
ghost use Rattle.fc_text.specs.Spelling.{AreRows, board_of, NamesRow};
ghost use Rattle.fc_text.specs.declared.board.reader.Section.TheVariants.{Foundations, Freecells};
ghost use Rattle.fc_text.specs.declared.fault.BoardFault.{BoardFault};
ghost use Rattle.fc_text.specs.declared.fault.BoardFaultKind.TheVariants.{MissingCard};
ghost use Rattle.fc_text.specs.declared.fault.BoardFaultKind.TheVariants.{TooManyColumns};
ghost use Rattle.fc_laws.specs.TextExamples.{blank_after_a_comment, blank_eighth};

/// A blank line is an empty column exactly where a line that is neither blank nor a comment comes
/// before it and fewer than eight columns do; comments are skipped.
pub fn rows_follow_from_the_lines_before()
    ensures rows { (text : Text) → AreRows (map line_of (lines_from 0 text)) (rows_of text) }
    ensures no_others { (text : Text) (rows : List Row)
        → AreRows (map line_of (lines_from 0 text)) rows → rows ≡ rows_of text }
{}

/// A blank line may be the eighth column, and none comes before the first line that holds
/// something, a comment or not.
pub fn blank_lines_counted()
    ensures eighth { first_fault freecell blank_eighth
        ≡ Some (record { place = 44; kind = TooManyColumns }) }
    ensures before_all { (board_of freecell blank_after_a_comment).columns
        ≡ (48 ∷ []) ∷ [] ∷ [] ∷ [] ∷ [] ∷ [] ∷ [] ∷ [] ∷ [] }
{}

/// Each of the nine names begins the lines of its section, in any case.
pub fn each_name_is_read()
    ensures foundations { NamesRow Foundations (codes "foundations") }
    ensures foundation { NamesRow Foundations (codes "foundation") }
    ensures founds { NamesRow Foundations (codes "founds") }
    ensures found { NamesRow Foundations (codes "found") }
    ensures decks { NamesRow Foundations (codes "decks") }
    ensures deck { NamesRow Foundations (codes "deck") }
    ensures freecells { NamesRow Freecells (codes "freecells") }
    ensures freecell { NamesRow Freecells (codes "freecell") }
    ensures fc { NamesRow Freecells (codes "fc") }
{}

/// A missing card is at the length of the text, and every other fault within it.
pub fn faults_have_their_places()
    ensures missing { (game : Game) (text : Text) (place card : ℕ)
        → first_fault game text ≡ Some (record { place = place; kind = MissingCard card })
        → place ≡ length text }
    ensures others { (game : Game) (text : Text) (fault : BoardFault)
        → first_fault game text ≡ Some fault → ((card : Card) → fault.kind ≢ MissingCard card)
        → fault.place < length text }
{}

/// The lines of two texts with a line feed between them are those of the first one and its line
/// feed, and then those of the second one moved on; and a line reads alike with a carriage return
/// at its end and without.
pub fn lines_join()
    ensures joined { (text next : Text) → lines_from 0 (text ++ line_feed ∷ next)
        ≡ lines_from 0 (text ++ line_feed ∷ [])
        ++ map (moved (length text + 1)) (lines_from 0 next) }
    ensures returns { (start : ℕ) (bytes : Text) → trim_carriage_return bytes ≡ bytes
        → line_of (record { start = start; bytes = bytes ++ carriage_return ∷ [] })
        ≡ line_of (record { start = start; bytes = bytes }) }
{}

/// Texts that differ in the case of letters alone have the same first fault and give the same
/// board.
pub fn both_cases_are_read()
    ensures faults { (game : Game) (text other : Text)
        → str_to_ascii_uppercase text ≡ str_to_ascii_uppercase other
        → first_fault game text ≡ first_fault game other }
    ensures boards { (game : Game) (text other : Text)
        → str_to_ascii_uppercase text ≡ str_to_ascii_uppercase other
        → board_of game text ≡ board_of game other }
{}
