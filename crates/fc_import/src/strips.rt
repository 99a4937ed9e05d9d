//! Under which columns the cards of rows stand: each column has a strip of each line.
ghost use Rattle.std.specs.List.{count_by, list_all, list_any};
ghost use Rattle.std.specs.Prelude.{◌&&◌, ◌≡◌, [], if◌then◌else◌, None, slice_index_or};
ghost use Rattle.std.specs.Str.{bytes_eq};
ghost use Rattle.fc_text.specs.Lines.{lines_from};
ghost use Rattle.fc_import.specs.{Scan.{uncommented, words_of}, Seen.{piece_of}, Strips.{are_even}};
ghost use Rattle.fc_import.specs.Strips.{between, has_card, has_no_groups, has_strips, is_dealt};
ghost use Rattle.fc_import.specs.Strips.{is_mark, is_told, parts_fields, strip_of, whole_strips};
ghost use Rattle.fc_import.specs.Strips.{words_in};

use crate::cards::first_card;
use crate::words::{Word, Words, uncommented};
use fc_board::{Board, Rule};
use fc_card::Card;
use fc_text::{Lines, Tokens};

/// Where the strips are.
#[derive(Clone, Copy, PartialEq, Eq, Debug)]
pub(crate) enum Strips {
    /// So many bytes from one to the next, from this place on.
    Bytes { base: u16, unit: u16 },
    /// One a field, after so many marks that part fields.
    Fields { base: u16 },
    /// One a word between blanks, after so many, of as many as each line has.
    Words { base: u16, count: u16 },
}

/// Whether a word that names this card, if any, and is in this strip, if any, names no card of a
/// column, or one of the column that has the strip.
pub(crate) fn is_told<R: Rule>(card: &Option<Card>, board: &Board<R>, strip: Option<usize>) -> bool
    ensures { result ≡ is_told card.now board.now strip }
{
    let Some(card) = *card else {
        return true;
    };
    match strip {
        Some(number) if is_in_column(board, number, card) => true,
        _ => board.cells().contains(&Some(card)),
    }
}

/// Whether the column of this number, from 0, has the card.
pub(crate) fn is_in_column<R: Rule>(board: &Board<R>, number: usize, card: Card) -> bool
    ensures { result ≡ has_card (slice_index_or board.now.columns number []) card }
{
    // The board has eight columns.
    let _ = board.heights();
    number < 8 && board.column(number).contains(&card)
}

/// Whether the line has strips of this kind.
pub(crate) fn has_strips<R: Rule>(strips: Strips, line: &[u8], board: &Board<R>) -> bool
    ensures { result ≡ has_strips strips board.now line.now }
{
    match strips {
        Strips::Bytes { .. } => !has_mark(line),
        Strips::Fields { .. } => true,
        Strips::Words { count, .. } => {
            fields_in(line) == 0 && (words_in(line) == usize::from(count) || is_dealt(board))
        }
    }
}

/// The number of the column in whose strip a word of the line is, if the line has strips.
pub(crate) fn strip_if(
    has_strips: bool,
    strips: Strips,
    line: &[u8],
    word: &Word<'_>,
) -> Option<usize>
    ensures { result
        ≡ if has_strips then strip_of strips line.now (piece_of word.now) else None }
{
    if has_strips {
        strip_of(strips, line, word)
    } else {
        None
    }
}

/// The number of the column in whose strip a word of the line is.
pub(crate) fn strip_of(strips: Strips, line: &[u8], word: &Word<'_>) -> Option<usize>
    ensures { result ≡ strip_of strips line.now (piece_of word.now) }
{
    let before = &line[..word.start.min(line.len())];
    match strips {
        Strips::Bytes { base, unit } => match whole_strips(base, unit, word.start) {
            Some(number) => Some(number),
            None => whole_strips(base, unit, word.end.saturating_sub(2)),
        },
        Strips::Fields { base } => whole_strips(base, 1, fields_in(before)),
        Strips::Words { base, .. } => whole_strips(base, 1, words_in(before)),
    }
}

// How many strips there are before this place, if they are whole.
fn whole_strips(base: u16, unit: u16, place: usize) -> Option<usize>
    ensures { result ≡ whole_strips base unit place }
{
    let (base, unit) = (usize::from(base), usize::from(unit));
    if unit == 0 || place < base || (place - base) % unit != 0 {
        return None;
    }
    Some((place - base) / unit)
}

/// Whether the board has as many cards in each column as a deal, and no words of a line with cards
/// are parted as groups.
pub(crate) fn are_dealt<R: Rule>(lines: &[u8], board: &Board<R>) -> bool
    ensures { result ≡ (is_dealt board.now
        && list_all (λ line. has_no_groups line.bytes) (lines_from 0 lines.now)) }
{
    is_dealt(board) && have_no_groups(lines)
}

fn have_no_groups(lines: &[u8]) -> bool
    ensures { result ≡ list_all (λ line. has_no_groups line.bytes) (lines_from 0 lines.now) }
{
    for line in Lines::new(lines) {
        if !has_no_groups(line.text) {
            return false;
        }
    }
    true
}

fn has_no_groups(line: &[u8]) -> bool
    ensures { result ≡ has_no_groups line.now }
{
    first_card(line).is_none() || are_even(line)
}

// Whether the same mark stands between any two words of the line.
fn are_even(line: &[u8]) -> bool
    ensures { result ≡ are_even (uncommented line.now) (words_of line.now) }
{
    let text = uncommented(line);
    let mut words = Words::new(text);
    let Some(first) = words.next() else {
        return true;
    };
    let Some(second) = words.next() else {
        return true;
    };
    let mark = between(text, first.end, second.start);
    let mut start = second.end;
    for word in words {
        if !is_mark_between(text, mark, start, word.start) {
            return false;
        }
        start = word.end;
    }
    true
}

// Whether this mark stands between two places of the text.
fn is_mark_between(text: &[u8], mark: &[u8], start: usize, end: usize) -> bool
    ensures { result ≡ bytes_eq (between text.now start end) mark.now }
{
    between(text, start, end) == mark
}

// What stands between two places of the text.
fn between(text: &[u8], start: usize, end: usize) -> &[u8]
    ensures { result.now ≡ between text.now start end }
{
    let rest = &text[start.min(text.len())..];
    &rest[..end.saturating_sub(start).min(rest.len())]
}

// Whether each column has as many cards as a deal puts there.
fn is_dealt<R: Rule>(board: &Board<R>) -> bool
    ensures { result ≡ is_dealt board.now }
{
    // The board has eight columns.
    let _ = board.heights();
    for number in 0..8 {
        if board.column(number).len() != if number < 4 { 7 } else { 6 } {
            return false;
        }
    }
    true
}

/// How many marks that part fields the text has.
pub(crate) fn fields_in(text: &[u8]) -> usize
    ensures { result ≡ count_by parts_fields text.now }
{
    text.iter().filter(|byte| parts_fields(**byte)).count()
}

/// How many words between blanks the text has, counted up to 65,535.
pub(crate) fn words_in(text: &[u8]) -> usize
    ensures { result ≡ words_in text.now }
{
    let mut count: u16 = 0;
    for _word in Tokens::new(text) {
        count = count.saturating_add(1);
    }
    usize::from(count)
}

// Whether the line has a mark that parts fields or may stand for no card.
fn has_mark(line: &[u8]) -> bool
    ensures { result ≡ list_any is_mark line.now }
{
    line.iter().any(|byte| is_mark(*byte))
}

fn is_mark(byte: u8) -> bool
    ensures { result ≡ is_mark byte }
{
    matches!(
        byte,
        b',' | b';' | b'|' | b'/' | b'\t' | b'-' | b'*' | b'.' | b'_' | b'[' | b']' | b'"' | b'\''
    )
}

fn parts_fields(byte: u8) -> bool
    ensures { result ≡ parts_fields byte }
{
    matches!(byte, b',' | b';' | b'|' | b'/' | b'\t')
}
