//! What stands before the cards of a line: a name with a colon, or the number of a column.
ghost use Rattle.std.specs.{List.{before_first}, Prelude.{◌==◌, ◌∷◌, ◌≡◌, []}};
ghost use Rattle.fc_text.specs.Bytes.{colon};
ghost use Rattle.fc_import.specs.Labels.{all_words, is_column_number, is_numbered, label_of};
ghost use Rattle.fc_import.specs.Labels.{said_by_front, said_by_one, said_by_two, said_by_words};
ghost use Rattle.fc_import.specs.{Labels.{says_column}, Names.{cells_names, column_names}};
ghost use Rattle.fc_import.specs.Names.{columns_names, foundations_names, is_among, is_pile_name};
ghost use Rattle.fc_import.specs.Seen.{piece_of};
ghost use Rattle.fc_import.specs.Strips.{fits_its_number, fits_label, tells_columns};
ghost use Rattle.fc_import.specs.declared.layout.Layout.TheVariants.{Columns};

use crate::cards::first_card;
use crate::solver::{count_words, word_at};
use crate::strips::is_in_column;
use crate::words::{Word, Words, before_mark, uncommented};
use fc_board::{Board, Rule};
use fc_card::Card;
use fc_text::Lines;

/// What a label says that its line is.
#[derive(Clone, Copy, PartialEq, Eq, Debug, Default)]
pub(crate) enum LabelKind {
    /// There is none, or a colon alone.
    #[default]
    Bare,
    /// The column of this number, from 1 to 8.
    Column(u8),
    Foundations,
    Cells,
    /// The columns that come after it.
    Columns,
    /// A name that is none of the table.
    Unknown,
}

/// What a line before a comment begins with, which has this before its first colon.
pub(crate) fn label_of(text: &[u8], front: &[u8]) -> LabelKind
    requires { front.now ≡ before_first (λ byte. byte == colon) text.now }
    ensures { result ≡ label_of text.now }
{
    if front.len() == text.len() {
        said_by_front(text)
    } else {
        said_by_words(front)
    }
}

/// Whether the first card of each line with the number of a column is in that column.
pub(crate) fn fit_their_numbers<R: Rule>(lines: &[u8], board: &Board<R>) -> bool
    ensures { result ≡ tells_columns Columns lines.now board.now }
{
    for line in Lines::new(lines) {
        if !fits_its_number(line.text, board) {
            return false;
        }
    }
    true
}

fn fits_its_number<R: Rule>(line: &[u8], board: &Board<R>) -> bool
    ensures { result ≡ fits_its_number board.now line.now }
{
    let text = uncommented(line);
    let label = label_of(text, before_mark(b':', text));
    fits_label(label, board, first_card(line))
}

// Whether there is no card, or it is in the column of the number that the label says, if it says
// one.
fn fits_label<R: Rule>(label: LabelKind, board: &Board<R>, card: Option<Card>) -> bool
    ensures { result ≡ fits_label label board.now card }
{
    match (label, card) {
        (LabelKind::Column(number), Some(card)) => {
            is_in_column(board, usize::from(number.saturating_sub(1)), card)
        }
        _ => true,
    }
}

/// Whether a line says that it is a column's: by its number, or by a colon alone.
pub(crate) fn says_column(line: &[u8]) -> bool
    ensures { result ≡ says_column line.now }
{
    let text = uncommented(line);
    let front = before_mark(b':', text);
    match label_of(text, front) {
        LabelKind::Bare => front.len() < text.len(),
        LabelKind::Column(_) => true,
        _ => false,
    }
}

fn said_by_words(front: &[u8]) -> LabelKind
    ensures { result ≡ said_by_words (all_words front.now) }
{
    match count_words(front) {
        0 => LabelKind::Bare,
        1 => said_by_one(word_at(front, 0)),
        2 => said_by_two(word_at(front, 0), word_at(front, 1)),
        _ => LabelKind::Unknown,
    }
}

fn said_by_one(word: &[u8]) -> LabelKind
    ensures { result ≡ said_by_one word.now }
{
    if is_foundations_name(word) {
        LabelKind::Foundations
    } else if is_cells_name(word) {
        LabelKind::Cells
    } else if is_columns_name(word) {
        LabelKind::Columns
    } else if is_column_number(word) {
        LabelKind::Column(word[0] - b'0')
    } else {
        LabelKind::Unknown
    }
}

fn said_by_two(first: &[u8], second: &[u8]) -> LabelKind
    ensures { result ≡ said_by_two first.now second.now }
{
    if is_either(second, b"cells", b"cell") {
        return if first.eq_ignore_ascii_case(b"free") {
            LabelKind::Cells
        } else if first.eq_ignore_ascii_case(b"home") {
            LabelKind::Foundations
        } else {
            LabelKind::Unknown
        };
    }
    if is_column_name(first) && is_column_number(second) {
        LabelKind::Column(second[0] - b'0')
    } else {
        LabelKind::Unknown
    }
}

fn said_by_front(text: &[u8]) -> LabelKind
    ensures { result ≡ said_by_front text.now (all_words text.now) }
{
    match Words::new(text).next() {
        Some(word) if is_numbered(text, &word) => LabelKind::Column(word.text[0] - b'0'),
        _ => LabelKind::Bare,
    }
}

// Whether the word is the number of a column, with a dot or a bracket after it.
fn is_numbered(text: &[u8], word: &Word<'_>) -> bool
    ensures { result ≡ is_numbered text.now (piece_of word.now) }
{
    is_column_number(word.text) && matches!(text.get(word.end), Some(b'.' | b')'))
}

/// Whether the word is a name of piles.
pub(crate) fn is_pile_name(word: &[u8]) -> bool
    ensures { result ≡ is_pile_name word.now }
{
    word.eq_ignore_ascii_case(b"free")
        || is_cells_name(word)
        || is_foundations_name(word)
        || is_column_name(word)
}

fn is_column_number(word: &[u8]) -> bool
    ensures { result ≡ is_column_number word.now }
{
    matches!(word, [b'1'..=b'8'])
}

fn is_foundations_name(word: &[u8]) -> bool
    ensures { result ≡ is_among word.now foundations_names }
{
    is_either(word, b"foundations", b"foundation")
        || is_either(word, b"founds", b"found")
        || is_either(word, b"decks", b"deck")
        || word.eq_ignore_ascii_case(b"home")
}

fn is_cells_name(word: &[u8]) -> bool
    ensures { result ≡ is_among word.now cells_names }
{
    is_either(word, b"freecells", b"freecell")
        || word.eq_ignore_ascii_case(b"fc")
        || is_either(word, b"cells", b"cell")
        || is_either(word, b"reserve", b"reserves")
}

fn is_column_name(word: &[u8]) -> bool
    ensures { result ≡ is_among word.now column_names }
{
    is_either(word, b"column", b"col")
        || is_either(word, b"stack", b"pile")
        || word.eq_ignore_ascii_case(b"cascade")
}

fn is_columns_name(word: &[u8]) -> bool
    ensures { result ≡ is_among word.now columns_names }
{
    is_either(word, b"columns", b"tableau")
        || is_either(word, b"stacks", b"piles")
        || is_either(word, b"cascades", b"board")
}

// Whether the word is one of these two, in any case.
fn is_either(word: &[u8], first: &[u8], second: &[u8]) -> bool
    ensures { result ≡ is_among word.now (first.now ∷ second.now ∷ []) }
{
    word.eq_ignore_ascii_case(first) || word.eq_ignore_ascii_case(second)
}
