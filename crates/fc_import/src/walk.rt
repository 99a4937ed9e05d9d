//! Where an import is in its text, and the notes on places there.
ghost use Rattle.std.specs.Prelude.{◌++◌, ◌-◌, ◌<◌, ◌≡◌, ◌≤◌, ◌⊎◌, if◌then◌else◌, length, OnOk};
ghost use Rattle.fc_import.specs.inside.{place_of, printing, PutsNote};
ghost use Rattle.fc_import.specs.{Notes.{line_after, line_feeds, place_text}, Words.{is_between}};

use crate::tally::counted;
use fc_record::push_number;
use memchr::memrchr;
use std::alloc::AllocError;

/// The most bytes of a block whose line feeds are counted in a byte.
const MOST_COUNTED: usize = 255;

/// The name that the last header gives, or nothing, the number of its line, and that of the next
/// line. Lines are numbered from 1.
#[derive(Drop)]
pub(crate) struct Walk {
    pub(crate) name: Vec<u8>,
    pub(crate) header: usize,
    pub(crate) line: usize,
}

impl Walk {
    /// Puts the note with these words on a byte of the piece that comes next, or on its first one
    /// where it has no such byte.
    pub(crate) fn push_note(
        &self,
        piece: &[u8],
        at: usize,
        words: &[u8],
        notes: &mut Vec<u8>,
    ) -> Result<(), AllocError>
        ensures { OnOk result (PutsNote (place_of self.now) piece.now
            notes.old.items notes.new.items) }
    {
        let before = &piece[..place_in(piece, at)];
        notes.extend_from_slice(b"fcanon: ")?;
        self.push_place(line_after(self.line, before), column_after(before), notes)?;
        notes.extend_from_slice(b": ")?;
        push_printing(words, notes)?;
        notes.push(b'\n')?;
        Ok(())
    }

    // Puts the name and the line counted from its header, or the line alone, and the column.
    fn push_place(&self, line: usize, column: usize, notes: &mut Vec<u8>) -> Result<(), AllocError>
        ensures { OnOk result (notes.new.items
            ≡ notes.old.items ++ place_text (place_of self.now) line column) }
    {
        if self.name.is_empty() {
            push_number(line, notes)?;
        } else {
            notes.extend_from_slice(self.name.as_slice())?;
            notes.push(b':')?;
            push_number(line.saturating_sub(self.header), notes)?;
        }
        notes.push(b':')?;
        push_number(column, notes)
    }
}

// The place, if the piece has a byte there, or else that of its first one.
fn place_in(piece: &[u8], at: usize) -> usize
    ensures within { (result ≡ 0) ⊎ (result < length piece.now) }
    ensures few { result ≤ length piece.now }
{
    if at < piece.len() { at } else { 0 }
}

/// The number of the line after the text, whose first byte is in the line of this number.
pub(crate) fn line_after(line: usize, text: &[u8]) -> usize
    ensures { result ≡ line_after line text.now }
{
    counted(line, line_feeds(text))
}

/// How many line feeds the text has.
pub(crate) fn line_feeds(text: &[u8]) -> usize
    ensures { result ≡ line_feeds text.now }
{
    let mut left = text;
    let mut count = 0;
    while left.len() > MOST_COUNTED {
        let (first, later) = left.split_at(MOST_COUNTED);
        count += usize::from(line_feeds_of_block(first));
        left = later;
    }
    count + usize::from(line_feeds_of_block(left))
}

// How many line feeds a block has. In counts of one byte a processor adds up sixteen bytes at once.
fn line_feeds_of_block(block: &[u8]) -> u8
    requires { length block.now ≤ 255 }
    ensures { result ≡ line_feeds block.now }
{
    let mut count: u8 = 0;
    for byte in block {
        count += u8::from(*byte == b'\n');
    }
    count
}

// The number of the next character in the last line of the text, from 1.
fn column_after(text: &[u8]) -> usize {
    let start = match memrchr(b'\n', text) {
        Some(feed) => feed.saturating_add(1),
        None => 0,
    };
    let line = text.get(start..).unwrap_or(b"");
    let before = line.iter().filter(|byte| begins_character(**byte)).count();
    before.saturating_add(1)
}

// Whether a character of UTF-8 begins with this byte.
fn begins_character(byte: u8) -> bool {
    !(0x80..0xC0).contains(&byte)
}

// Puts the words, with a question mark for each byte that does not print.
fn push_printing(words: &[u8], notes: &mut Vec<u8>) -> Result<(), AllocError>
    ensures { OnOk result (notes.new.items ≡ notes.old.items ++ printing words.now) }
{
    for byte in words {
        notes.push(printing(*byte))?;
    }
    Ok(())
}

fn printing(byte: u8) -> u8
    ensures { result ≡ if is_between 0x20 0x7E byte then byte else 0x3F }
{
    if (0x20..0x7F).contains(&byte) {
        byte
    } else {
        b'?'
    }
}
