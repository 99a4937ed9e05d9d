//! Reading a board's text, from left to right in one pass.
ghost use Rattle.std.specs.{List.{list_any, position_or_len}, Prelude.{◌+◌, ◌==◌, ◌^◌, ◌∷◌, ◌≡◌}};
ghost use Rattle.std.specs.Prelude.{◌≤◌, [], IfErr, IfOk, IfSome, length, map, None, Some, ℕ};
ghost use Rattle.std.specs.Str.{str_eq_ignore_ascii_case};
ghost use Rattle.fc_text.specs.{Bytes.{is_gap}, Faults.{first_fault, items_of_row}};
ghost use Rattle.fc_text.specs.{Lines.{lines_from, piece_of, words_from}, reader.{AfterBlank}};
ghost use Rattle.fc_text.specs.reader.{begins_head, BeginsWithCard, IsHead, items_left};
ghost use Rattle.fc_text.specs.reader.{items_of_line, items_of_words, LeavesWords, TakesItems};
ghost use Rattle.fc_text.specs.Rows.{Blank, cells_names, heights_names, is_colon, line_of, row_of};
ghost use Rattle.fc_text.specs.Spelling.{Spells};
ghost use Rattle.fc_text.specs.declared.board.reader.Section.TheVariants.{Column};

use crate::{
    BoardFault, BoardFaultKind, Line, Lines, gap_len, is_gap, read_printed, strip_prefix,
    trim_carriage_return, word_len,
};
use fc_board::{Board, Rule};
use fc_card::Card;
use memchr::memchr;

mod reader;
mod spelling;

use reader::{Reader, Section};
pub use spelling::card_spelled;
use spelling::spelled_card;

/// The board of `R` that a text spells, or the first fault of the text.
///
/// The text is that of Freecell Solver, in many of its spellings; what a blank line means and `1`
/// for the ace are this project's profile. A fault has the offset in bytes of what is at fault.
#[tactic(auto, using(crate::proofs::SpellingLemmas::spelled))]
pub fn read_board<R: Rule>(text: &[u8]) -> Result<Board<R>, BoardFault>
    ensures board { IfOk result (Spells R.game text.now) }
    ensures fault { IfErr result (λ fault. first_fault R.game text.now ≡ Some fault) }
{
    match read_printed(text) {
        Some(board) => Ok(board),
        None => read_spelled(text),
    }
}

/// The same, by the words that the text has in whatever spelling, without a try whether it is
/// printed. It is a function of its own, so that each of the two ways has all registers.
#[inline(never)]
pub fn read_spelled<R: Rule>(text: &[u8]) -> Result<Board<R>, BoardFault>
    ensures board { IfOk result (Spells R.game text.now) }
    ensures fault { IfErr result (λ fault. first_fault R.game text.now ≡ Some fault) }
{
    let mut reader = Reader::new();
    read_lines(&mut reader, text)?;
    match reader.lowest_missing() {
        None => Ok(reader.board()),
        Some(card) => Err(BoardFault {
            place: text.len(),
            kind: BoardFaultKind::MissingCard(card),
        }),
    }
}

fn read_lines<R: Rule>(reader: &mut Reader<R>, text: &[u8]) -> Result<(), BoardFault>
    ensures { TakesItems R.game reader.old
        (items_left reader.old (map line_of (lines_from 0 text.now))) reader.new result }
{
    for line in Lines::new(text) {
        read_line(reader, line)?;
    }
    Ok(())
}

fn read_line<R: Rule>(reader: &mut Reader<R>, line: Line) -> Result<(), BoardFault>
    requires { line.start + length line.text.now ≤ 2 ^ 63 }
    ensures { TakesItems R.game reader.old
        (items_of_line reader.old (line_of (piece_of line.entry))) reader.new result }
{
    let text = trim_carriage_return(line.text);
    let gap = gap_len(text);
    let start = line.start + gap;
    let bytes = &text[gap..];
    match bytes.first() {
        None => read_blank(reader, start),
        Some(b'#') => Ok(()),
        Some(_) => read_row(reader, start, bytes),
    }
}

fn read_blank<R: Rule>(reader: &mut Reader<R>, start: usize) -> Result<(), BoardFault>
    ensures { TakesItems R.game reader.old
        (items_of_line reader.old (Blank start)) reader.new result }
{
    if reader.is_begun() && reader.has_room() {
        read_start(reader, Section::Column, start)
    } else {
        Ok(())
    }
}

fn read_row<R: Rule>(reader: &mut Reader<R>, start: usize, bytes: &[u8]) -> Result<(), BoardFault>
    requires { start + length bytes.now ≤ 2 ^ 63 }
    ensures { TakesItems R.game reader.old
        (items_of_row (row_of start bytes.now)) reader.new result }
{
    let (section, head) = row_head(bytes);
    read_start(reader, section, start)?;
    let left = read_front(reader, section, &bytes[head..]);
    read_words(reader, section, start + (bytes.len() - left.len()), left)
}

/// Takes the words at the front of a line that are cards of a column as most texts have them, and
/// returns what is left of the line.
fn read_front<'a, R: Rule>(reader: &mut Reader<R>, section: Section, words: &'a [u8]) -> &'a [u8]
    ensures { LeavesWords R.game section reader.old words.now reader.new result.now }
{
    match section {
        Section::Column => read_cards(reader, words),
        Section::Foundations | Section::Freecells => words,
    }
}

/// Takes cards up to the first word that is at fault or comes after more than one blank.
fn read_cards<'a, R: Rule>(reader: &mut Reader<R>, words: &'a [u8]) -> &'a [u8]
    ensures { LeavesWords R.game Column reader.old words.now reader.new result.now }
{
    let mut left = words;
    while let Some((card, rest)) = first_card(left) {
        if reader.put_card(card).is_err() {
            break;
        }
        left = rest;
    }
    left
}

/// The card that the bytes begin with, and what follows it and the blank after it.
fn first_card<'a>(bytes: &'a [u8]) -> Option<(Card, &'a [u8])>
    ensures { IfSome result (λ found. BeginsWithCard bytes.now found.0 found.1.now) }
{
    if let [rank, suit, b' ', rest @ ..] = bytes {
        if let Some(card) = spelled_card(*rank, *suit) {
            return Some((card, rest));
        }
    }
    first_ten_or_last(bytes)
}

/// The same of a card that the bytes end with, and of a ten that is spelled with two digits.
fn first_ten_or_last<'a>(bytes: &'a [u8]) -> Option<(Card, &'a [u8])>
    ensures { IfSome result (λ found. BeginsWithCard bytes.now found.0 found.1.now) }
{
    match bytes {
        [rank, suit] => Some((spelled_card(*rank, *suit)?, &bytes[2..])),
        _ => first_ten(bytes),
    }
}

/// The same of a ten that is spelled with two digits.
fn first_ten<'a>(bytes: &'a [u8]) -> Option<(Card, &'a [u8])>
    ensures { IfSome result (λ found. BeginsWithCard bytes.now found.0 found.1.now) }
{
    let [b'1', b'0', suit, rest @ ..] = bytes else {
        return None;
    };
    let card = spelled_card(b'T', *suit)?;
    Some((card, after_blank(rest)?))
}

/// What follows a blank, or nothing at the end.
fn after_blank<'a>(bytes: &'a [u8]) -> Option<&'a [u8]>
    ensures { IfSome result (λ rest. AfterBlank bytes.now rest.now) }
{
    match bytes {
        [] => Some(bytes),
        [b' ', rest @ ..] => Some(rest),
        _ => None,
    }
}

/// What a line holds, and how many bytes come before its words: a name and its colon, or a colon.
fn row_head(bytes: &[u8]) -> (Section, usize)
    ensures row { (start : ℕ) → IsHead start bytes.now result.0 result.1 }
    ensures within { result.1 ≤ length bytes.now }
{
    match bytes {
        [b':', b' ', ..] => (Section::Column, 2),
        [first, ..] if !begins_head(*first) => (Section::Column, 0),
        _ => head_by_name(bytes),
    }
}

/// The same of a line with a name, which most texts spell in these letters.
fn head_by_name(bytes: &[u8]) -> (Section, usize)
    ensures row { (start : ℕ) → IsHead start bytes.now result.0 result.1 }
    ensures within { result.1 ≤ length bytes.now }
{
    let mut heights = bytes;
    let mut cells = bytes;
    if strip_prefix(&mut heights, b"Foundations:").is_some() {
        (Section::Foundations, 12)
    } else if strip_prefix(&mut cells, b"Freecells:").is_some() {
        (Section::Freecells, 10)
    } else {
        head_before_words(bytes)
    }
}

/// The same of any line, by what comes before its first colon.
fn head_before_words(bytes: &[u8]) -> (Section, usize)
    ensures row { (start : ℕ) → IsHead start bytes.now result.0 result.1 }
    ensures within { result.1 ≤ length bytes.now }
{
    let colon = colon_place(bytes);
    let name = &bytes[..colon];
    if colon == bytes.len() {
        (Section::Column, 0)
    } else if is_heights_name(name) {
        (Section::Foundations, colon + 1)
    } else if is_cells_name(name) {
        (Section::Freecells, colon + 1)
    } else if colon == 0 {
        (Section::Column, 1)
    } else {
        (Section::Column, 0)
    }
}

/// Whether the byte is a colon or the first letter of a name.
fn begins_head(byte: u8) -> bool
    ensures { result ≡ begins_head byte }
{
    matches!(byte, b':' | b'D' | b'F' | b'd' | b'f')
}

fn is_heights_name(name: &[u8]) -> bool
    ensures { result ≡ list_any (str_eq_ignore_ascii_case name.now) heights_names }
{
    name.eq_ignore_ascii_case(b"foundations")
        || name.eq_ignore_ascii_case(b"foundation")
        || name.eq_ignore_ascii_case(b"founds")
        || name.eq_ignore_ascii_case(b"found")
        || name.eq_ignore_ascii_case(b"decks")
        || name.eq_ignore_ascii_case(b"deck")
}

fn is_cells_name(name: &[u8]) -> bool
    ensures { result ≡ list_any (str_eq_ignore_ascii_case name.now) cells_names }
{
    name.eq_ignore_ascii_case(b"freecells")
        || name.eq_ignore_ascii_case(b"freecell")
        || name.eq_ignore_ascii_case(b"fc")
}

fn read_words<R: Rule>(
    reader: &mut Reader<R>,
    section: Section,
    start: usize,
    bytes: &[u8],
) -> Result<(), BoardFault>
    requires { start + length bytes.now ≤ 2 ^ 63 }
    ensures { TakesItems R.game reader.old
        (items_of_words section (words_from is_gap start bytes.now))
        reader.new result }
{
    let mut at = 0;
    while at < bytes.len() {
        if is_gap(bytes[at]) {
            at += 1;
        } else {
            let end = at + word_len(&bytes[at..]);
            read_word(reader, section, start + at, &bytes[at..end])?;
            at = end;
        }
    }
    Ok(())
}

fn read_start<R: Rule>(
    reader: &mut Reader<R>,
    section: Section,
    start: usize,
) -> Result<(), BoardFault>
    ensures { TakesItems R.game reader.old
        (record { section = section; place = start; word = None } ∷ [])
        reader.new result }
{
    match reader.take_line(section) {
        Ok(()) => Ok(()),
        Err(kind) => Err(BoardFault { place: start, kind }),
    }
}

fn read_word<R: Rule>(
    reader: &mut Reader<R>,
    section: Section,
    start: usize,
    word: &[u8],
) -> Result<(), BoardFault>
    ensures { TakesItems R.game reader.old
        (record { section = section; place = start; word = Some word.now } ∷ [])
        reader.new result }
{
    match reader.take_word(section, word) {
        Ok(()) => Ok(()),
        Err(kind) => Err(BoardFault { place: start, kind }),
    }
}

/// The place of the first colon, or the number of bytes where there is none.
fn colon_place(bytes: &[u8]) -> usize
    ensures value { result ≡ position_or_len is_colon bytes.now }
    ensures within { result ≤ length bytes.now }
{
    match memchr(b':', bytes) {
        Some(place) => place,
        None => bytes.len(),
    }
}
