//! Laws on reading a board's text from the front, in one pass.
ghost use Rattle.std.specs.{List.{flat_map, position_or_len, prefix_len}, Option.{option_or}};
ghost use Rattle.std.specs.Prelude.{◌++◌, ◌+◌, ◌<◌, ◌==◌, ◌∷◌, ◌≡◌, drop, false, length, List, map};
ghost use Rattle.std.specs.Prelude.{not, slice_index, take, true, ℕ};
ghost use Rattle.{fc_board.specs.Games.{Game}, fc_card.specs.Types.{Text}};
ghost use Rattle.fc_text.specs.Bytes.{is_gap, line_feed};
ghost use Rattle.fc_text.specs.Faults.{first_fault, items_of, items_of_row, missing_card};
ghost use Rattle.fc_text.specs.{Lines.{lines_from, words_from}, reader.{after_items}};
ghost use Rattle.fc_text.specs.reader.{first_known_fault, has_room, is_begun, Known, nothing_known};
ghost use Rattle.fc_text.specs.{reader.{rows_left, rows_of_line}, Rows.{Line, line_of, rows_of}};

/// The first line of a text ends before its first line feed, or with the text.
#[tactic(auto, using(fc_text::proofs::NextLineLemmas::line_first))]
pub fn first_line_ends_first()
    ensures { (place byte : ℕ) (rest : Text)
        → lines_from place (byte ∷ rest)
        ≡ record {
          start = place;
          bytes = take (position_or_len (λ byte. byte == line_feed) (byte
              ∷ rest)) (byte ∷ rest);
        }
        ∷ lines_from (place + position_or_len (λ byte. byte == line_feed) (byte ∷ rest) + 1)
        (drop (position_or_len (λ byte. byte == line_feed) (byte ∷ rest) + 1) (byte ∷ rest)) }
{}

/// A blank or a tab is skipped, and any other byte begins a word that ends before the next of
/// these.
pub fn first_word_ends_first()
    ensures gap { (place byte : ℕ) (rest : Text) → is_gap byte ≡ true
        → words_from is_gap place (byte ∷ rest) ≡ words_from is_gap (place + 1) rest }
    ensures word { (start at : ℕ) (bytes : Text) → at < length bytes
        → is_gap (slice_index bytes at) ≡ false
        → words_from is_gap (start + at) (drop at bytes)
        ≡ record {
          start = start + at;
          bytes = take
              (prefix_len (λ byte. not (is_gap byte)) (drop at bytes)) (drop at bytes);
        }
        ∷ words_from is_gap (start + (at + prefix_len (λ byte. not (is_gap byte)) (drop at bytes)))
        (drop (at + prefix_len (λ byte. not (is_gap byte)) (drop at bytes)) bytes) }
{}

/// The rows of a text come line by line: what a line gives hangs on what came before it by two
/// facts alone, whether a line that holds something came, and whether there is room for a further
/// column.
pub fn rows_come_line_by_line()
    ensures first { (text : Text)
        → rows_of text ≡ rows_left nothing_known (map line_of (lines_from 0 text)) }
    ensures next { (known : Known) (line : Line) (lines : List Line)
        → rows_left known (line ∷ lines) ≡ rows_of_line (is_begun known) (has_room known) line
        ++ rows_left
        (after_items known
        (flat_map items_of_row (rows_of_line (is_begun known) (has_room known) line))) lines }
{}

/// The first fault of a text is found item by item in one pass, with what is known of the earlier
/// items: the kinds of lines, the heights, the cells, the columns, and the cards that were seen.
pub fn one_pass_finds_the_first_fault()
    ensures { (game : Game) (text : Text)
        → first_fault game text
        ≡ option_or (first_known_fault game nothing_known (items_of text)) (missing_card text) }
{}
