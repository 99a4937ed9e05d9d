//! Laws of texts, and of the words that name cards.
ghost use Rattle.std.specs.{Fmt.{decimal}, List.{Contains, fold}, Prelude.{◌++◌, ◌<◌, ◌∷◌, ◌≡◌}};
ghost use Rattle.std.specs.Prelude.{◌≢◌, ◌⊎◌, [], chars, codes, false, if◌then◌else◌, None, Option};
ghost use Rattle.std.specs.{Prelude.{slice_index, Some, true, ℕ}, Str.{IsUtf8}};
ghost use Rattle.{fc_board.specs.declared.rule.Variant.{Variant}, fc_card.specs.Types.{Text}};
ghost use Rattle.fc_board.specs.Boards.{Board};
ghost use Rattle.fc_board.specs.Games.{bakers_game, eight_off, freecell, Game, game_of};
ghost use Rattle.fc_board.specs.Moves.{MoveList};
ghost use Rattle.fc_text.specs.{Bytes.{line_feed}, Lines.{lines_from, Piece}, Printed.{text_of}};
ghost use Rattle.fc_text.specs.Spelling.{board_of, Spells};
ghost use Rattle.fc_record.specs.{Grammar.{begins_with, heading_of}, RecordTexts.{header_mark}};
ghost use Rattle.fc_collect.specs.declared.streams.faults.Summary.{Summary};
ghost use Rattle.fc_import.specs.Import.{AreIn, BoardNeedsNoNote, CanBe, count_text, Imported};
ghost use Rattle.fc_import.specs.Import.{IsApart, IsBuilt, IsNoBoard, IsPrinted, IsReadAs, IsShown};
ghost use Rattle.fc_import.specs.Import.{lines_in, ListNeedsNoNote, Makes, may_be, numbered};
ghost use Rattle.fc_import.specs.Import.{Reading, refusals, SpellsOut, stand_together, StaysLast};
ghost use Rattle.fc_import.specs.inside.{of_columns};
ghost use Rattle.fc_import.specs.Notes.{name_by, Place, place_text, SaysUnless, State};
ghost use Rattle.fc_import.specs.Scan.{HasFewCards, is_list, IsProse, IsQuiet, moves_in};
ghost use Rattle.fc_import.specs.Scan.{named_card, named_cards, said_in, uncommented};
ghost use Rattle.fc_import.specs.Strips.{has_no_groups, is_dealt, tells_columns};
ghost use Rattle.fc_import.specs.Words.{decoded, letters_of, named_in, named_lines, text_read};
ghost use Rattle.fc_import.specs.declared.{
  layout.Layout.TheVariants.{Columns, ColumnsInLine, Deal, Rows},
  options.ImportOptions.{ImportOptions},
  options.LinesAre.TheVariants.{Columns as AsColumns, Rows as AsRows},
  options.Noted.TheVariants.{Changes, Doubts, Strict},
  strips.Strips.{Strips, TheVariants.{Bytes, Fields, Words}},
};

/// The two letters of each card name it, also in the other order. `10` is the ten, a word of
/// another length or with another letter names nothing, and `1` is the ace. A board's name is no
/// card, and a line without cards has no end.
pub fn words_name_cards()
    ensures ten { named_card (codes "10h") ≡ Some 38 }
    ensures ten_last { named_card (codes "S10") ≡ Some 39 }
    ensures lower_case { named_card (codes "qd") ≡ Some 45 }
    ensures suit_first { named_card (codes "Hq") ≡ Some 46 }
    ensures no_suit { named_card (codes "10") ≡ None }
    ensures one { named_card (codes "C1") ≡ Some 0 }
    ensures longer { named_card (codes "KCx") ≡ None }
    ensures foundation { named_cards (codes "Foundations: H-K C-K") ≡ [] }
    ensures header { named_lines (codes "@ freecell d2" ++ line_feed ∷ codes "4C") ≡ 12 ∷ 52 ∷ [] }
    ensures comment { named_cards (codes "4C # KD") ≡ 12 ∷ [] }
    ensures all { named_in (codes "4C KD" ++ line_feed ∷ codes "AS") ≡ 12 ∷ 49 ∷ 3 ∷ [] }
    ensures lines { named_lines (codes "4C KD" ++ line_feed ∷ line_feed ∷ codes "AS")
        ≡ 12 ∷ 49 ∷ 52 ∷ 3 ∷ 52 ∷ [] }
    ensures commas { named_cards (codes "4C,KD;|AS|") ≡ 12 ∷ 49 ∷ 3 ∷ [] }
{}

/// A line lists moves where each of its words is of one, in each form in which a solution is
/// written; a word alone that is a number is none, and in Eight Off there are more cells.
pub fn words_name_moves()
    ensures letters { (said_in freecell (codes "2a 23V2, 5h")).moves ≡ codes " 2a 23v2 5h" }
    ensures numbered { (said_in freecell (codes "1. 2a 2) 3b 3: 5h")).moves ≡ codes " 2a 3b 5h" }
    ensures labelled { (said_in freecell (codes "Solution: 2a 3b")).moves ≡ codes " 2a 3b" }
    ensures arrows { (said_in freecell (codes "2->6, 5 => a")).moves ≡ codes " 26 5a" }
    ensures dashes { (said_in freecell (codes "2-6 5 = a 3>b")).moves ≡ codes " 26 5a 3b" }
    ensures to { (said_in freecell (codes "5 to a")).moves ≡ codes " 5a" }
    ensures stacks { (said_in freecell (codes "Move 2 cards from stack 0 to stack 5")).moves
        ≡ codes " 16v2" }
    ensures home { (said_in freecell (codes "Move a card from freecell 1 to the foundations")).moves
        ≡ codes " bh" }
    ensures moves { is_list freecell (codes "1a, 23") ≡ true }
    ensures list { is_list freecell (codes "1. 2->6, 5 to a") ≡ true }
    ensures said { is_list freecell (codes "Move a card from stack 4 to freecell 0") ≡ true }
    ensures alone { is_list freecell (codes "2h") ≡ true }
    ensures number { is_list freecell (codes "24") ≡ false }
    ensures numbers { is_list freecell (codes "24 15") ≡ true }
    ensures prose { is_list freecell (codes "1a is bad") ≡ false }
    ensures other_label { is_list freecell (codes "zz: 1a 2b") ≡ false }
    ensures other_pile { is_list freecell (codes "Move a card from stack 4 to stakc 0") ≡ false }
    ensures dots { is_list freecell (codes "1a ... 2b") ≡ false }
    ensures label_within { is_list freecell (codes "1 - 3: c") ≡ false }
    ensures number_sign { is_list freecell (codes "#3a") ≡ false }
    ensures card { is_list freecell (codes "7b (8C)") ≡ false }
    ensures card_after_arrow { is_list freecell (codes "7->b (8C)") ≡ false }
    ensures capitals { is_list freecell (codes "Solution: 7B 8C") ≡ true }
    ensures small_letters { is_list freecell (codes "7b 8c") ≡ true }
    ensures blank { is_list freecell (codes "  ") ≡ false }
    ensures marked { is_list freecell (codes "> 9z") ≡ true }
    ensures cells { is_list freecell (codes "1k") ≡ false }
    ensures more_cells { is_list eight_off (codes "1k") ≡ true }
    ensures among { moves_in freecell (codes "so 1a and 23v2 or 5 to a, then 4h") ≡ 4 }
{}

/// No list passes in silence, and no line with a move of a digit and a letter, wherever it stands;
/// nor one whose moves or cards are not parted, with four moves, or with a pile by its name.
pub fn solutions_are_not_quiet()
    ensures lists { (game : Game) (line : Text) → is_list game line ≡ true → ¬ IsQuiet game line }
    ensures among { (game : Game) (line : Text) → 3 < moves_in game line → ¬ IsQuiet game line }
    ensures foreign { ¬ IsQuiet freecell (codes "3a 3b zz") }
    ensures first { ¬ IsQuiet freecell (codes "3a zz") }
    ensures labelled { ¬ IsQuiet freecell (codes "Solution: 3a 3b, won") }
    ensures later { ¬ IsQuiet freecell (codes "zz 3a 3b") }
    ensures arrows { ¬ IsQuiet freecell (codes "2->6, 5->3 zz") }
    ensures stacks { ¬ IsQuiet freecell (codes "Move 2 cards from stack 0 to stack 5") }
    ensures glued { ¬ IsQuiet freecell (codes "3a3b5c") }
    ensures single { ¬ IsQuiet freecell (codes "3 a 3 b") }
    ensures pair { ¬ IsQuiet freecell (codes "3 a") }
    ensures numbered { ¬ IsQuiet freecell (codes "1 3a") }
    ensures number_sign { ¬ IsQuiet freecell (codes "Solution #1: 3a 3b") }
    ensures cut { ¬ IsQuiet freecell (codes "12. 3 a (king)") }
    ensures begun { ¬ IsQuiet freecell (codes "3 a (king)") }
    ensures within { ¬ IsQuiet freecell (codes "Then 3 a") }
    ensures number_sign_first { ¬ IsQuiet freecell (codes "#1: 3a") }
    ensures target { ¬ IsQuiet freecell (codes "from 1 to d") }
    ensures two_targets { ¬ IsQuiet freecell (codes "1 - 3 to a") }
    ensures named { ¬ IsQuiet freecell (codes "Moves: 2 c and") }
    ensures last { ¬ IsQuiet freecell (codes "Step 1: 3a") }
    ensures from { ¬ IsQuiet freecell (codes "from 3 to a") }
    ensures pile { ¬ IsQuiet freecell (codes "column 3 to cell a") }
    ensures arrow { ¬ IsQuiet freecell (codes "so 3->4") }
    ensures words { ¬ IsQuiet freecell (codes "3 to the foundation") }
    ensures words_of_arrow { ¬ IsQuiet freecell (codes "3 -> any cell") }
    ensures from_cell { ¬ IsQuiet freecell (codes "a to column 5") }
    ensures dash { ¬ IsQuiet freecell (codes "3 - home") }
    ensures cards { ¬ IsQuiet freecell (codes "JDKD2S") }
    ensures number { IsQuiet freecell (codes "24") }
    ensures title { IsQuiet freecell (codes "Game 12") }
    ensures numbers { IsQuiet freecell (codes "Deals 1 to 8") }
    ensures more_numbers { IsQuiet freecell (codes "1 to 32000") }
    ensures heading { IsQuiet freecell (codes "Game 5 - hard") }
    ensures heights { IsQuiet freecell (codes "H-9 C-K D-2 S-0") }
    ensures other_words { IsQuiet freecell (codes "5 tons") }
    ensures bold { IsQuiet freecell (codes "<b>Dear Jim") }
    ensures apart { IsQuiet freecell (codes "1 2v2") }
    ensures card { IsProse freecell (codes "dig out the 7H") }
    ensures card_second { IsProse freecell (codes "The 7H is buried") }
    ensures card_moved { ¬ IsProse freecell (codes "we move 6C to c") }
    ensures card_first { ¬ IsProse freecell (codes "7H is buried") }
    ensures card_numbered { ¬ IsProse freecell (codes "1 3h zz") }
{}

/// Nothing after the first `#` of a line is a word, but where a digit comes next, as in `Column #1`.
pub fn comments_are_no_words()
    ensures after { uncommented (codes "KH # KS") ≡ codes "KH " }
    ensures first { uncommented (codes "#KH") ≡ [] }
    ensures last { uncommented (codes "KH #") ≡ codes "KH " }
    ensures none { uncommented (codes "KH KS") ≡ codes "KH KS" }
    ensures nothing { uncommented [] ≡ [] }
    ensures number { uncommented (codes "Column #1: KH") ≡ codes "Column #1: KH" }
    ensures number_first { uncommented (codes " #1: KH") ≡ codes " #1: KH" }
    ensures later { uncommented (codes "KH # as #1") ≡ codes "KH " }
{}

/// Where lines of columns that `show` does not read need no note, no line without words comes
/// between two that name cards.
pub fn lines_stand_together()
    ensures together { stand_together false false
        (lines_from 0 (codes "KH" ++ line_feed ∷ codes "KS" ++ line_feed ∷ codes "QH")) ≡ true }
    ensures around { stand_together false false (lines_from 0
        (line_feed ∷ codes "KH" ++ line_feed ∷ codes "KS" ++ line_feed ∷ line_feed ∷ [])) ≡ true }
    ensures named { stand_together false false
        (lines_from 0 (codes "KH" ++ line_feed ∷ codes "Tableau:" ++ line_feed ∷ codes "KS")) ≡ true }
    ensures blank { stand_together false false
        (lines_from 0 (codes "KH" ++ line_feed ∷ line_feed ∷ codes "KS")) ≡ false }
    ensures mark { stand_together false false
        (lines_from 0 (codes "KH" ++ line_feed ∷ codes " -" ++ line_feed ∷ codes "KS")) ≡ false }
    ensures later { stand_together false false (lines_from 0
        (codes "KH" ++ line_feed ∷ codes "KS" ++ line_feed ∷ line_feed ∷ codes "QH")) ≡ false }
    ensures before_words { stand_together false false (lines_from 0
        (codes "KH" ++ line_feed ∷ line_feed ∷ codes "now" ++ line_feed ∷ codes "KS")) ≡ false }
    ensures read { (game : Game) (piece : Text) (board : Board) → SpellsOut game piece board
        → ¬ Spells game piece board → stand_together false false (lines_from 0 piece) ≡ true }
{}

/// Where nothing is written for a piece, and nothing said of it, no line of it lists moves; but for
/// the last board once more, after the rule that begins a solution.
pub fn no_solution_passes_in_silence()
    ensures { (variant : Variant) (game : Game) (state next : State) (piece : Text) (line : Piece)
        → Contains (lines_from 0 piece) line → is_list game line.bytes ≡ true
        → Reading variant game state piece next [] [] → state.begun ≡ true }
{}

/// After lines of a solution that no mark begins comes a board, a list with a mark, or a line that
/// has no words: so a solution is not cut.
pub fn solutions_are_whole()
    ensures { (variant : Variant) (game : Game) (state next : State) (piece written said : Text)
        → state.goes_on ≡ true → ¬ IsApart state piece
        → Reading variant game state piece next written said
        → (next.last ≡ None) ⊎ (written ≢ []) ⊎ (state.begun ≡ true) }
{}

/// A line of columns names the cards of one, and a line of rows one card of each column; one line
/// has the columns, each up to a mark, or the rows one after another. Lines that are said to be
/// columns are no rows, and of those that are said to be rows one has a number or a colon before
/// its cards, if they are columns.
pub fn lines_are_in_layouts()
    ensures columns { lines_in Columns
        (of_columns ((51 ∷ 47 ∷ []) ∷ [] ∷ (50 ∷ []) ∷ [])) ≡ 51 ∷ 47 ∷ 52 ∷ 50 ∷ 52 ∷ [] }
    ensures rows { lines_in (Rows (Fields 0))
        (of_columns ((51 ∷ 47 ∷ []) ∷ [] ∷ (50 ∷ []) ∷ [])) ≡ 51 ∷ 50 ∷ 52 ∷ 47 ∷ 52 ∷ [] }
    ensures columns_in_line { lines_in ColumnsInLine
        (of_columns ((51 ∷ 47 ∷ []) ∷ [] ∷ (50 ∷ []) ∷ [])) ≡ 51 ∷ 47 ∷ 52 ∷ 50 ∷ 52 ∷ [] }
    ensures deal { lines_in Deal
        (of_columns ((51 ∷ 47 ∷ []) ∷ [] ∷ (50 ∷ []) ∷ [])) ≡ 51 ∷ 50 ∷ 47 ∷ 52 ∷ [] }
    ensures cut { ¬ AreIn Columns (codes "KH" ++ line_feed ∷ codes "KS")
        (of_columns ((50 ∷ 51 ∷ []) ∷ [])) }
    ensures cut_in_line { ¬ AreIn ColumnsInLine (codes "KH|KS") (of_columns ((50 ∷ 51 ∷ []) ∷ [])) }
    ensures joined_in_line { ¬ AreIn ColumnsInLine (codes "KH KS")
        (of_columns ((50 ∷ []) ∷ (51 ∷ []) ∷ [])) }
    ensures parted { AreIn ColumnsInLine (codes "[KH];KS/QH|QS")
        (of_columns ((50 ∷ []) ∷ (51 ∷ []) ∷ (46 ∷ []) ∷ (47 ∷ []) ∷ [])) }
    ensures brackets { AreIn ColumnsInLine (codes "(KH)(KS) {QH}{QS}")
        (of_columns ((50 ∷ []) ∷ (51 ∷ []) ∷ (46 ∷ []) ∷ (47 ∷ []) ∷ [])) }
    ensures no_rows { (strips : Strips) (piece : Text)
        → may_be AsColumns (Rows strips) piece ≡ false }
    ensures no_columns { may_be AsRows Columns (codes "KH KS") ≡ false }
    ensures cells_alone { may_be AsRows Columns (codes "Freecells: KH") ≡ false }
    ensures numbered { may_be AsRows Columns (codes "1. KH KS") ≡ true }
    ensures labelled { may_be AsRows Columns (codes "Column 1: KH KS") ≡ true }
    ensures marked { may_be AsRows Columns (codes ": KH KS") ≡ true }
{}

/// Rows tell under which columns their cards stand: by bytes where no mark stands for a card, by
/// fields, or by words of which each line has as many. One column to the left they are not told.
pub fn rows_tell_columns()
    ensures bytes { tells_columns (Rows (Bytes 1 4)) (codes " KH  KS" ++ line_feed ∷ codes "    10H")
        (of_columns ((50 ∷ []) ∷ (51 ∷ 38 ∷ []) ∷ [])) ≡ true }
    ensures bytes_left { tells_columns (Rows (Bytes 0 3)) (codes "KH KS" ++ line_feed ∷ codes "   QH")
        (of_columns ((50 ∷ 46 ∷ []) ∷ (51 ∷ []) ∷ [])) ≡ false }
    ensures marked { tells_columns (Rows (Bytes 0 3)) (codes "KH KS" ++ line_feed ∷ codes "-  QH")
        (of_columns ((50 ∷ []) ∷ (51 ∷ 46 ∷ []) ∷ [])) ≡ false }
    ensures fields { tells_columns (Rows (Fields 0)) (codes "KH,KS" ++ line_feed ∷ codes ",QH")
        (of_columns ((50 ∷ []) ∷ (51 ∷ 46 ∷ []) ∷ [])) ≡ true }
    ensures fields_left { tells_columns (Rows (Fields 0)) (codes "KH,KS" ++ line_feed ∷ codes ",QH")
        (of_columns ((50 ∷ 46 ∷ []) ∷ (51 ∷ []) ∷ [])) ≡ false }
    ensures words { tells_columns (Rows (Words 0 2)) (codes "KH KS" ++ line_feed ∷ codes "- QH")
        (of_columns ((50 ∷ []) ∷ (51 ∷ 46 ∷ []) ∷ [])) ≡ true }
    ensures words_lack { tells_columns (Rows (Words 0 2)) (codes "KH KS" ++ line_feed ∷ codes "QH")
        (of_columns ((50 ∷ 46 ∷ []) ∷ (51 ∷ []) ∷ [])) ≡ false }
{}

/// One line has the cards in the order of dealing only where all of a deal are there, and no other
/// mark between two of them than between the first two; a line without cards may have any.
pub fn cards_are_dealt_in_no_groups()
    ensures even { has_no_groups (codes "[KH, KS, QH]") ≡ true }
    ensures blanks { has_no_groups (codes "KH KS  QH QS") ≡ false }
    ensures other_mark { has_no_groups (codes "KH,KS QH,QS") ≡ false }
    ensures brackets { has_no_groups (codes "<KH KS> <QH QS>") ≡ false }
    ensures first { has_no_groups (codes "KH-KS KC QH QS") ≡ false }
    ensures last { has_no_groups (codes "KH KS KC-QH") ≡ false }
    ensures comment { has_no_groups (codes "KH KS QH # 3 cards") ≡ true }
    ensures no_cards { has_no_groups (codes "Foundations: H-0 C-0") ≡ true }
    ensures few { (piece : Text) → tells_columns Deal piece (of_columns ((51 ∷ []) ∷ [])) ≡ false }
    ensures dealt { (piece : Text) (board : Board) → tells_columns Deal piece board ≡ true
        → is_dealt board ≡ true }
    ensures parted { (piece : Text) (board : Board) (line : Piece) → tells_columns Deal piece board ≡ true
        → Contains (lines_from 0 piece) line → has_no_groups line.bytes ≡ true }
{}

/// A line with the number of a column, as a label or before a dot, is that column, and no other,
/// where lines are read as columns that `show` does not read.
pub fn numbers_are_those_of_columns()
    ensures unnumbered { tells_columns Columns (codes "KS" ++ line_feed ∷ codes "KH")
        (of_columns ((50 ∷ []) ∷ (51 ∷ []) ∷ [])) ≡ true }
    ensures told { tells_columns Columns (codes "1. KH" ++ line_feed ∷ codes "Column 2: KS")
        (of_columns ((50 ∷ []) ∷ (51 ∷ []) ∷ [])) ≡ true }
    ensures exchanged { tells_columns Columns (codes "2: KH" ++ line_feed ∷ codes "1: KS")
        (of_columns ((50 ∷ []) ∷ (51 ∷ []) ∷ [])) ≡ false }
    ensures one { tells_columns Columns (codes "KH" ++ line_feed ∷ codes "3. KS")
        (of_columns ((50 ∷ []) ∷ (51 ∷ []) ∷ [])) ≡ false }
    ensures left_out { tells_columns Columns (codes "2) KH")
        (of_columns ([] ∷ (50 ∷ []) ∷ [])) ≡ true }
    ensures commented { tells_columns Columns (codes "2. KH # so: first")
        (of_columns ((50 ∷ []) ∷ (51 ∷ []) ∷ [])) ≡ false }
    ensures first { tells_columns Columns (codes "2. QD KS KH")
        (of_columns ((50 ∷ []) ∷ (45 ∷ 51 ∷ []) ∷ [])) ≡ true }
    ensures read { (game : Game) (piece : Text) (board : Board) → IsReadAs AsColumns game piece board
        → ¬ Spells game piece board → piece ≢ text_of board
        → tells_columns Columns piece board ≡ true }
{}

/// Each sign of a suit, filled or outlined, is the letter of its suit, before the rank too; a
/// playing card is its rank, its suit and a blank, and a letter as wide as a sign of Chinese is
/// that letter; a no-break space and a wide one are blanks; a byte order mark, the mark after a
/// coloured sign and one of direction are nothing. Other signs stay, and so does a knight.
pub fn signs_are_letters()
    ensures spade { letters_of false (0x37 ∷ 0x2660 ∷ []) ≡ codes "7S" }
    ensures outlined { letters_of false (0x2662 ∷ 0x37 ∷ []) ≡ codes "D7" }
    ensures filled_suits { letters_of false (0x2660 ∷ 0x2665 ∷ 0x2666 ∷ 0x2663 ∷ []) ≡ codes "SHDC" }
    ensures outlined_suits { letters_of false (0x2664 ∷ 0x2661 ∷ 0x2662 ∷ 0x2667 ∷ [])
        ≡ codes "SHDC" }
    ensures no_break_space { letters_of false (0x37 ∷ 0x53 ∷ 0xA0 ∷ 0x37 ∷ 0x43 ∷ [])
        ≡ codes "7S 7C" }
    ensures wide_space { letters_of false (0x37 ∷ 0x3000 ∷ 0x38 ∷ []) ≡ codes "7 8" }
    ensures marks { letters_of false (0xFEFF ∷ 0x37 ∷ 0x2660 ∷ 0xFE0F ∷ []) ≡ codes "7S" }
    ensures direction { letters_of false (0x202E ∷ 0x37 ∷ []) ≡ codes "7" }
    ensures other_letter { letters_of false (0xE9 ∷ 0x2C ∷ []) ≡ 0xC3 ∷ 0xA9 ∷ 0x2C ∷ [] }
    ensures playing_cards { letters_of false (0x1F0A1 ∷ 0x1F0DE ∷ []) ≡ codes "AS KC " }
    ensures red_cards { letters_of false (0x1F0BA ∷ 0x1F0CD ∷ []) ≡ codes "TH QD " }
    ensures knight { letters_of false (0x1F0AC ∷ []) ≡ 0xF0 ∷ 0x9F ∷ 0x82 ∷ 0xAC ∷ [] }
    ensures wide_letters { letters_of false (0xFF17 ∷ 0xFF24 ∷ []) ≡ codes "7D" }
    ensures other_sign { letters_of false (0x1F3B4 ∷ []) ≡ 0xF0 ∷ 0x9F ∷ 0x8E ∷ 0xB4 ∷ [] }
{}

/// A line ends with a line feed, a carriage return or both, a line tabulation, a form feed, U+0085,
/// U+2028 or U+2029.
pub fn lines_end()
    ensures feed { letters_of false (0x41 ∷ 0x0A ∷ 0x42 ∷ []) ≡ 0x41 ∷ 0x0A ∷ 0x42 ∷ [] }
    ensures both { letters_of false (0x41 ∷ 0x0D ∷ 0x0A ∷ 0x42 ∷ []) ≡ 0x41 ∷ 0x0A ∷ 0x42 ∷ [] }
    ensures carriage_return { letters_of false (0x41 ∷ 0x0D ∷ 0x42 ∷ []) ≡ 0x41 ∷ 0x0A ∷ 0x42 ∷ [] }
    ensures two_feeds { letters_of false (0x0D ∷ 0x0A ∷ 0x0A ∷ []) ≡ 0x0A ∷ 0x0A ∷ [] }
    ensures tabulation { letters_of false (0x41 ∷ 0x0B ∷ 0x0C ∷ []) ≡ 0x41 ∷ 0x0A ∷ 0x0A ∷ [] }
    ensures next_line { letters_of false (0x41 ∷ 0x85 ∷ 0x42 ∷ []) ≡ 0x41 ∷ 0x0A ∷ 0x42 ∷ [] }
    ensures separators { letters_of false (0x2028 ∷ 0x2029 ∷ []) ≡ 0x0A ∷ 0x0A ∷ [] }
{}

/// From the eighth card of a column on, each goes on the one before it: so spades from the king
/// down to the six are a column of Baker's Game and Eight Off, and of FreeCell only down to the
/// seven. A board with another column is written only where lines are said to be columns, and that
/// is noted, unless they are it as it is printed.
pub fn columns_are_dealt_or_built()
    ensures freecell { ¬ IsBuilt freecell
        (51 ∷ 47 ∷ 43 ∷ 39 ∷ 35 ∷ 31 ∷ 27 ∷ 23 ∷ []) }
    ensures seven { IsBuilt freecell (51 ∷ 47 ∷ 43 ∷ 39 ∷ 35 ∷ 31 ∷ 27 ∷ []) }
    ensures bakers_game { IsBuilt bakers_game
        (51 ∷ 47 ∷ 43 ∷ 39 ∷ 35 ∷ 31 ∷ 27 ∷ 23 ∷ []) }
    ensures eight_off { IsBuilt eight_off
        (51 ∷ 47 ∷ 43 ∷ 39 ∷ 35 ∷ 31 ∷ 27 ∷ 23 ∷ []) }
    ensures upwards { ¬ IsBuilt eight_off
        (0 ∷ 4 ∷ 8 ∷ 12 ∷ 16 ∷ 20 ∷ 24 ∷ 28 ∷ []) }
    ensures said { (variant : Variant) (game : Game) (state next : State) (piece written : Text)
        → Reading variant game state piece next written [] → (board : Board) → written ≢ []
        → next.last ≡ Some board → CanBe game piece board ⊎ (state.last ≡ Some board) }
    ensures unsaid { (variant : Variant) (game : Game) (state next : State) (piece written said : Text)
        → Reading variant game state piece next written said → state.options.lines_are ≢ AsColumns
        → (board : Board) → written ≢ [] → next.last ≡ Some board
        → CanBe game piece board ⊎ (state.last ≡ Some board) }
{}

/// UTF-16 with a mark is read by its units, low byte first or high byte first, also where two of
/// them are one sign; a byte alone at the end becomes U+FFFD. UTF-8 is as it is. What stands for its
/// characters is the text.
pub fn utf_16_is_decoded()
    ensures low_first { decoded (0xFF ∷ 0xFE ∷ 0x37 ∷ 0x00 ∷ 0x60 ∷ 0x26 ∷ [])
        ≡ 0x37 ∷ 0xE2 ∷ 0x99 ∷ 0xA0 ∷ [] }
    ensures high_first { decoded (0xFE ∷ 0xFF ∷ 0x26 ∷ 0x60 ∷ []) ≡ 0xE2 ∷ 0x99 ∷ 0xA0 ∷ [] }
    ensures two_units { decoded (0xFF ∷ 0xFE ∷ 0x3C ∷ 0xD8 ∷ 0xA1 ∷ 0xDC ∷ [])
        ≡ 0xF0 ∷ 0x9F ∷ 0x82 ∷ 0xA1 ∷ [] }
    ensures byte_alone { decoded (0xFF ∷ 0xFE ∷ 0x37 ∷ []) ≡ 0xEF ∷ 0xBF ∷ 0xBD ∷ [] }
    ensures utf_8 { (bytes : Text) → IsUtf8 bytes → slice_index bytes 0 < 0xFE
        → decoded bytes ≡ bytes }
    ensures read { (bytes : Text) → text_read bytes ≡ letters_of false (chars (decoded bytes)) }
{}

/// Where nothing is said of a text, each board and list of it is taken, and no line is left out.
pub fn refusals_are_said()
    ensures refusals { (variant : Variant) (options : ImportOptions) (game : Game)
        (text : Text) (state : State) (written : Text) → Imported variant options game text state written []
        → refusals state.tally ≡ 0 }
    ensures left_out { (variant : Variant) (options : ImportOptions) (game : Game)
        (text : Text) (state : State) (written : Text) → Imported variant options game text state written []
        → state.tally.left_out ≡ 0 }
{}

/// What is imported in silence where each change is noted is so where only doubts are.
pub fn changes_are_noted_beside_doubts()
    ensures { (variant : Variant) (options : ImportOptions) (bytes made : Text) (summary : Summary)
        → Makes variant options bytes made [] summary
        → Makes variant (record options { noted = Doubts }) bytes made [] summary }
{}

/// What fcanon prints of boards, and of lists that are legal on them, is imported as it is, in
/// silence: if there is any, and `show` takes it.
pub fn what_is_printed_is_imported_as_it_is()
    ensures { (variant : Variant) (options : ImportOptions) (bytes made said : Text) (summary : Summary)
        (records : ℕ) → Makes variant options bytes made said summary
        → IsPrinted variant (game_of variant) None (text_read bytes) → text_read bytes ≢ []
        → IsShown variant (text_read bytes) records → (made ≡ text_read bytes) × (said ≡ []) }
{}

/// What an import writes is what fcanon prints; so importing it once more, whatever is noted, gives
/// that in silence.
pub fn what_is_imported_is_printed()
    ensures printed { (variant : Variant) (options : ImportOptions) (bytes made said : Text)
        (summary : Summary) → Makes variant options bytes made said summary
        → IsPrinted variant (game_of variant) None made }
    ensures again { (variant : Variant) (options other : ImportOptions)
        (bytes made said more again says : Text) (summary next : Summary)
        → Makes variant options bytes made said summary → made ≢ [] → text_read more ≡ made
        → Makes variant other more again says next → (again ≡ made) × (says ≡ []) }
{}

/// A strict import has refusals where anything is said, and no import has any where nothing is.
pub fn strict_imports_refuse_what_is_noted()
    ensures noted { (variant : Variant) (options : ImportOptions) (bytes made said : Text)
        (summary : Summary) → options.noted ≡ Strict → Makes variant options bytes made said summary
        → said ≢ [] → 0 < summary.refused }
    ensures silent { (variant : Variant) (options : ImportOptions) (bytes made : Text) (summary : Summary)
        → Makes variant options bytes made [] summary → summary.refused ≡ 0 }
{}

/// Of a board whose last ten is spelled `10H` nothing is said, but where each change is noted. Nor
/// is anything said there of one with `TH`, if it is as `show` prints it. A list without a mark is
/// noted there.
pub fn a_ten_is_a_change()
    ensures ten { (place : Place) (said : Text)
        → let piece = codes "Foundations: H-9 C-K D-K S-K" ++ line_feed ∷ codes "Freecells: 10H JH QH KH"
        ++ line_feed ∷ [] in
        SaysUnless (BoardNeedsNoNote Doubts freecell piece (board_of freecell piece)) place piece said
        → said ≡ [] }
    ensures ten_noted { (place : Place) (said : Text)
        → let piece = codes "Foundations: H-9 C-K D-K S-K" ++ line_feed ∷ codes "Freecells: 10H JH QH KH"
        ++ line_feed ∷ [] in
        SaysUnless (BoardNeedsNoNote Changes freecell piece (board_of freecell piece)) place piece said
        → said ≢ [] }
    ensures list_noted { (place : Place) (list : MoveList) (said : Text)
        → SaysUnless (ListNeedsNoNote Changes freecell (codes "1a 23" ++ line_feed ∷ []) list) place
        (codes "1a 23" ++ line_feed ∷ []) said → said ≢ [] }
{}

/// Where nothing is written for a text, and nothing said of it, its lines name no card.
pub fn no_card_is_lost_in_silence()
    ensures { (variant : Variant) (options : ImportOptions) (game : Game) (text : Text)
        (state : State) → Imported variant options game text state [] [] → named_in text ≡ [] }
{}

/// A place is named by its line, or, after a header, by the header's name and the line counted from
/// there. One board is a board, and two are boards; the second board of a name has its number.
pub fn notes_are_for_people()
    ensures line { place_text (record { name = []; header = 0; line = 9 }) 7 3
        ≡ decimal 7 ++ codes ":" ++ decimal 3 }
    ensures name { place_text (record { name = codes "a.txt"; header = 5; line = 9 }) 7 3
        ≡ codes "a.txt:" ++ decimal 2 ++ codes ":" ++ decimal 3 }
    ensures one { count_text 1 (codes "board") ≡ decimal 1 ++ codes " board" }
    ensures two { count_text 2 (codes "board") ≡ decimal 2 ++ codes " boards" }
    ensures second { numbered (codes "a") 2 ≡ codes "a_2" }
{}

/// The boards after a header have its name: the name that a place has is that of the last line of
/// the text that is a header.
pub fn names_are_those_of_the_last_header()
    ensures { (variant : Variant) (options : ImportOptions) (game : Game) (text : Text)
        (state : State) (written said : Text) → Imported variant options game text state written said
        → state.place.name ≡ fold (λ name line. if begins_with header_mark line.bytes
        then name_by (heading_of variant line.bytes) else name) [] (lines_from 0 text) }
{}

/// Where two words of four name cards, a line has few of them, and where two of three do, it may be
/// a board's, unless it is a list.
pub fn few_words_of_prose_name_cards()
    ensures half { HasFewCards (codes "the 7D and TD") }
    ensures more { ¬ HasFewCards (codes "7D TD x") }
    ensures list { IsNoBoard freecell (codes "> 1a") }
    ensures cards { ¬ IsNoBoard freecell (codes "7D TD 3C") }
{}

/// Where a line of a list that is not taken may be a board's, there is no last board after it: so a
/// list that follows is not taken for an earlier board.
pub fn a_board_between_lists_is_not_passed_over()
    ensures { (game : Game) (piece : Text) (line : Piece) (before after : Option Board)
        → Contains (lines_from 0 piece) line → ¬ IsNoBoard game line.bytes
        → StaysLast game piece before after → after ≡ None }
{}
