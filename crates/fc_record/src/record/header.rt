//! The header of a record.
ghost use Rattle.std.specs.{List.{list_all, position_or_len}, Option.{option_map}, Prelude.{◌&&◌}};
ghost use Rattle.std.specs.Prelude.{◌++◌, ◌+◌, ◌∷◌, ◌≡◌, ◌≤◌, codes, drop, Err, IfErr, IfOk};
ghost use Rattle.std.specs.Prelude.{IfSome, length, nat_le, Ok};
ghost use Rattle.fc_board.specs.Games.{variant_word};
ghost use Rattle.fc_text.specs.{Bytes.{blank, is_gap}, Lines.{words_from}};
ghost use Rattle.fc_record.specs.Grammar.{after_header, fault_at, heading_of, heading_of_words};
ghost use Rattle.fc_record.specs.Grammar.{heading_seen, is_line_feed, is_name, variant_named};
ghost use Rattle.fc_record.specs.Grammar.{with_header};
ghost use Rattle.fc_record.specs.declared.record.RecordFaultKind.TheVariants.{BadHeader};

use crate::printing::{BAKERS_GAME_FRONT, EIGHT_OFF_FRONT, FREECELL_FRONT};
use crate::record::{Heading, RecordFault, RecordFaultKind};
use fc_board::Variant;
use fc_text::{next_word, strip_prefix, trim_carriage_return};
use memchr::memchr;

/// The variant of a record, its heading and what comes after the line of its header, or what is at
/// fault there; a record without a header is of the variant that is handed in.
pub fn read_heading<'a>(
    variant: Variant,
    bytes: &'a [u8],
) -> Result<(Variant, Heading<'a>, &'a [u8]), RecordFault>
    ensures heading { IfOk result (λ read.
        heading_of variant bytes.now ≡ Ok (heading_seen read.0 read.1)) }
    ensures body { IfOk result (λ read. read.2.now ≡ after_header bytes.now) }
    ensures shorter { IfOk result (λ read. length read.2.now ≤ length bytes.now) }
    ensures fault { IfErr result (λ fault. heading_of variant bytes.now ≡ Err fault) }
    ensures within { IfErr result (λ fault. fault.place ≤ length bytes.now) }
{
    if bytes.first() != Some(&b'@') {
        let heading = Heading {
            has_header: false,
            name: None,
        };
        return Ok((variant, heading, bytes));
    }
    let end = line_len(bytes);
    let (variant, heading) = read_header(trim_carriage_return(&bytes[..end]))?;
    Ok((variant, heading, &bytes[bytes.len().min(end + 1)..]))
}

/// How many bytes come before the first line feed, or in all where there is none.
fn line_len(bytes: &[u8]) -> usize
    ensures value { result ≡ position_or_len is_line_feed bytes.now }
    ensures within { result ≤ length bytes.now }
{
    match memchr(b'\n', bytes) {
        Some(place) => place,
        None => bytes.len(),
    }
}

/// Reads the line of a header, which begins with `@`: as most headers are spelled, or else word by
/// word.
fn read_header<'a>(line: &'a [u8]) -> Result<(Variant, Heading<'a>), RecordFault>
    requires { 1 ≤ length line.now }
    ensures heading { IfOk result (λ read.
        heading_of_words (length line.now) (words_from is_gap 1 (drop 1 line.now))
        ≡ Ok (heading_seen read.0 read.1)) }
    ensures fault { IfErr result (λ fault.
        heading_of_words (length line.now) (words_from is_gap 1 (drop 1 line.now)) ≡ Err fault) }
    ensures within { IfErr result (λ fault. fault.place ≤ length line.now) }
{
    match printed_header(line) {
        Some(read) => Ok(read),
        None => read_header_words(line),
    }
}

/// What a header says that is spelled as it is printed, with a name.
fn printed_header<'a>(line: &'a [u8]) -> Option<(Variant, Heading<'a>)>
    ensures heading { IfSome result (λ read.
        heading_of_words (length line.now) (words_from is_gap 1 (drop 1 line.now))
        ≡ Ok (heading_seen read.0 read.1)) }
{
    let (variant, name) = printed_variant(line)?;
    if name.is_empty() || !is_name(name) {
        return None;
    }
    Some(with_header(variant, Some(name)))
}

/// The variant of a header that is spelled as it is printed, and what comes after its blank.
fn printed_variant<'a>(line: &'a [u8]) -> Option<(Variant, &'a [u8])>
    ensures { IfSome result (λ found.
        line.now ≡ codes "@ " ++ variant_word found.0 ++ blank ∷ found.1.now) }
{
    if let Some(name) = after_front(line, &FREECELL_FRONT) {
        return Some((Variant::FreeCell, name));
    }
    if let Some(name) = after_front(line, &BAKERS_GAME_FRONT) {
        return Some((Variant::BakersGame, name));
    }
    let name = after_front(line, &EIGHT_OFF_FRONT)?;
    Some((Variant::EightOff, name))
}

/// What comes after the front, where the line begins with it.
fn after_front<'a, const N: usize>(line: &'a [u8], front: &[u8; N]) -> Option<&'a [u8]>
    ensures { IfSome result (λ rest. line.now ≡ front.now ++ rest.now) }
{
    let mut rest = line;
    strip_prefix(&mut rest, front)?;
    Some(rest)
}

/// Reads the line of a header word by word.
fn read_header_words<'a>(line: &'a [u8]) -> Result<(Variant, Heading<'a>), RecordFault>
    requires { 1 ≤ length line.now }
    ensures heading { IfOk result (λ read.
        heading_of_words (length line.now) (words_from is_gap 1 (drop 1 line.now))
        ≡ Ok (heading_seen read.0 read.1)) }
    ensures fault { IfErr result (λ fault.
        heading_of_words (length line.now) (words_from is_gap 1 (drop 1 line.now)) ≡ Err fault) }
    ensures within { IfErr result (λ fault. fault.place ≤ length line.now) }
{
    let Some(word) = next_word(line, 1) else {
        return Err(bad_header(line.len()));
    };
    let Some(variant) = variant_named(word.text) else {
        return Err(bad_header(word.start));
    };
    let Some(name) = next_word(line, word.end) else {
        return Ok(with_header(variant, None));
    };
    if !is_name(name.text) {
        return Err(bad_header(name.start));
    }
    match next_word(line, name.end) {
        Some(further) => Err(bad_header(further.start)),
        None => Ok(with_header(variant, Some(name.text))),
    }
}

fn with_header<'a>(variant: Variant, name: Option<&'a [u8]>) -> (Variant, Heading<'a>)
    ensures { heading_seen result.0 result.1
        ≡ with_header variant (option_map (λ name. name.now) name.entry) }
{
    let heading = Heading {
        has_header: true,
        name,
    };
    (variant, heading)
}

fn bad_header(place: usize) -> RecordFault
    ensures { result ≡ fault_at place BadHeader }
{
    RecordFault {
        place,
        kind: RecordFaultKind::BadHeader,
    }
}

/// The variant that a word names, in any case.
fn variant_named(word: &[u8]) -> Option<Variant>
    ensures { result ≡ variant_named word.now }
{
    if word.eq_ignore_ascii_case(Variant::FreeCell.word().as_bytes()) {
        Some(Variant::FreeCell)
    } else if word.eq_ignore_ascii_case(Variant::BakersGame.word().as_bytes()) {
        Some(Variant::BakersGame)
    } else if word.eq_ignore_ascii_case(Variant::EightOff.word().as_bytes()) {
        Some(Variant::EightOff)
    } else {
        None
    }
}

/// Whether the word may be a name: at most 64 bytes, each a printing one of ASCII and no blank.
pub fn is_name(word: &[u8]) -> bool
    ensures { result ≡ is_name word.now }
{
    word.len() <= 64 && all_printing(word)
}

fn all_printing(word: &[u8]) -> bool
    ensures { result ≡ list_all (λ byte. nat_le 33 byte && nat_le byte 126) word.now }
{
    word.iter().all(|byte| is_printing(*byte))
}

fn is_printing(byte: u8) -> bool
    ensures { result ≡ (nat_le 33 byte && nat_le byte 126) }
{
    33 <= byte && byte <= 126
}
