//! The lines of a text with their places, and their words, which blanks and tabs separate.
ghost use Rattle.std.specs.List.{position_or_len, prefix_len};
ghost use Rattle.std.specs.Prelude.{◌==◌, ◌≡◌, ◌≤◌, All, length, not};
ghost use Rattle.fc_text.specs.{Bytes.{is_gap, line_feed}, Lines.{ComesNext, trim_carriage_return}};

use crate::Token;
use memchr::memchr;

/// A line of a text.
#[derive(Clone, Copy, Debug)]
pub struct Line<'a> {
    /// Its bytes without the line feed that ends it; a carriage return before that is one of them.
    pub text: &'a [u8],
    /// The offset in bytes of its first byte.
    pub start: usize,
}

impl<'a> Line<'a> {
    ghost use Rattle.fc_text.specs.{Lines.{piece_of}, Rows.{is_empty, line_of}};

    /// Whether the line is blank or a comment.
    pub fn is_blank_or_comment(&self) -> bool
        ensures { result ≡ is_empty (line_of (piece_of self.now)) }
    {
        let line = trim_carriage_return(self.text);
        match line[gap_len(line)..].first() {
            None => true,
            Some(byte) => *byte == b'#',
        }
    }
}

/// The lines of a text, in order: they end with line feeds, and what follows the last of these is a
/// line where it has any bytes.
#[derive(Clone, Copy, Debug)]
pub struct Lines<'a> {
    text: &'a [u8],
    at: usize,
    pub ghost within: { at ≤ length text.now },
}

impl<'a> Lines<'a> {
    ghost use Rattle.fc_text.specs.{Left.{lines_left}, Lines.{IsPieceOf, lines_from}};

    /// The lines of the text; offsets count from its first byte.
    pub fn new(text: &'a [u8]) -> Lines<'a>
        ensures lines { lines_left result ≡ lines_from 0 text.now }
        ensures places { All (IsPieceOf 0 text.now) (lines_left result) }
    {
        Lines { text, at: 0 }
    }
}

impl<'a> Iterator for Lines<'a> {
    ghost use Rattle.std.specs.Iterator.{item_count, YieldsFirstBy};
    ghost use Rattle.fc_text.specs.{Left.{lines_left}, Lines.{piece_of}};

    type Item = Line<'a>;

    ghost next_gives = { YieldsFirstBy piece_of lines_left };

    ghost remaining = { item_count lines_left };

    fn next(&mut self) -> Option<Line<'a>> {
        let start = self.at;
        if start == self.text.len() {
            return None;
        }
        let end = start + line_len(&self.text[start..]);
        self.at = self.text.len().min(end + 1);
        let text = &self.text[start..end];
        Some(Line { text, start })
    }
}

/// How many bytes come before the first line feed, or in all where there is none.
fn line_len(bytes: &[u8]) -> usize
    ensures value { result ≡ position_or_len (λ byte. byte == line_feed) bytes.now }
    ensures within { result ≤ length bytes.now }
{
    match memchr(b'\n', bytes) {
        Some(place) => place,
        None => bytes.len(),
    }
}

/// The line without the carriage return that ends it.
pub fn trim_carriage_return(line: &[u8]) -> &[u8]
    ensures value { result.now ≡ trim_carriage_return line.now }
    ensures within { length result.now ≤ length line.now }
{
    match line.split_last() {
        Some((last, front)) if *last == b'\r' => front,
        _ => line,
    }
}

/// How many blanks and tabs are at the front.
pub fn gap_len(bytes: &[u8]) -> usize
    ensures value { result ≡ prefix_len is_gap bytes.now }
    ensures within { result ≤ length bytes.now }
{
    bytes.iter().take_while(|byte| is_gap(**byte)).count()
}

/// Whether the byte is a blank or a tab.
pub fn is_gap(byte: u8) -> bool
    ensures { result ≡ is_gap byte }
{
    byte == b' ' || byte == b'\t'
}

/// The first word of a line from an offset in bytes on, which is at most the line's length.
pub fn next_word<'a>(line: &'a [u8], at: usize) -> Option<Token<'a>>
    requires { at ≤ length line.now }
    ensures { ComesNext is_gap line.now at result }
{
    let start = at + gap_len(&line[at..]);
    let end = start + word_len(&line[start..]);
    if start == end {
        return None;
    }
    let text = &line[start..end];
    Some(Token { text, start, end })
}

/// How many bytes at the front are in one word: two of most cards.
pub fn word_len(bytes: &[u8]) -> usize
    ensures value { result ≡ prefix_len (λ byte. not (is_gap byte)) bytes.now }
    ensures within { result ≤ length bytes.now }
{
    if let [first, second, third, ..] = bytes {
        if !is_gap(*first) && !is_gap(*second) && is_gap(*third) {
            return 2;
        }
    }
    bytes.iter().take_while(|byte| !is_gap(**byte)).count()
}
