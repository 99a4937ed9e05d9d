//! The words of a text: letters and digits together.
ghost use Rattle.std.specs.List.{before_first, prefix_len};
ghost use Rattle.std.specs.Prelude.{◌+◌, ◌==◌, ◌≡◌, ◌≤◌, drop, length, map, not};
ghost use Rattle.fc_import.specs.Scan.{parts_words, uncommented};

use memchr::memchr;

/// A word with the place of its first byte.
#[derive(Clone, Copy, Debug)]
pub(crate) struct Word<'a> {
    pub text: &'a [u8],
    pub start: usize,
    /// The place of what follows it.
    pub end: usize,
}

/// The words of a text that are left.
#[derive(Clone, Copy, Debug)]
pub(crate) struct Words<'a> {
    text: &'a [u8],
    at: usize,
    pub ghost within: { at ≤ length text.now },
}

impl<'a> Words<'a> {
    ghost use Rattle.fc_text.specs.Lines.{with_end, words_from};
    ghost use Rattle.fc_import.specs.Seen.{words_left};

    /// The words of the text; places count from its first byte.
    pub(crate) fn new(text: &'a [u8]) -> Words<'a>
        ensures { words_left result ≡ map with_end (words_from parts_words 0 text.now) }
    {
        Words { text, at: 0 }
    }
}

impl<'a> Iterator for Words<'a> {
    ghost use Rattle.std.specs.Iterator.{item_count, YieldsFirstBy};
    ghost use Rattle.fc_import.specs.Seen.{piece_of, words_left};

    type Item = Word<'a>;

    ghost next_gives = { YieldsFirstBy piece_of words_left };

    ghost remaining = { item_count words_left };

    fn next(&mut self) -> Option<Word<'a>> {
        let (gap, word) = gap_and_word(&self.text[self.at..]);
        let start = self.at + gap;
        let end = start + word;
        self.at = end;
        if start == end {
            return None;
        }
        let text = &self.text[start..end];
        Some(Word { text, start, end })
    }
}

/// How many bytes at the front are between words, and how many in the word after them: mostly one
/// blank and the two of a card, at the front of a line no blank, and at its end nothing after it.
fn gap_and_word(bytes: &[u8]) -> (usize, usize)
    ensures gap { result.0 ≡ prefix_len parts_words bytes.now }
    ensures word { result.1
        ≡ prefix_len (λ byte. not (parts_words byte)) (drop result.0 bytes.now) }
    ensures within { result.0 + result.1 ≤ length bytes.now }
{
    if let [b' ', first, second, b' ', ..] = bytes {
        if !parts_words(*first) && !parts_words(*second) {
            return (1, 2);
        }
    }
    if let [first, second, b' ', ..] = bytes {
        if !parts_words(*first) && !parts_words(*second) {
            return (0, 2);
        }
    }
    if let [b' ', first, second] = bytes {
        if !parts_words(*first) && !parts_words(*second) {
            return (1, 2);
        }
    }
    any_gap_and_word(bytes)
}

#[inline(never)]
fn any_gap_and_word(bytes: &[u8]) -> (usize, usize)
    ensures gap { result.0 ≡ prefix_len parts_words bytes.now }
    ensures word { result.1
        ≡ prefix_len (λ byte. not (parts_words byte)) (drop result.0 bytes.now) }
    ensures within { result.0 + result.1 ≤ length bytes.now }
{
    let gap = gap_len(bytes);
    (gap, word_len(&bytes[gap..]))
}

fn gap_len(bytes: &[u8]) -> usize
    ensures value { result ≡ prefix_len parts_words bytes.now }
    ensures within { result ≤ length bytes.now }
{
    bytes.iter().take_while(|byte| parts_words(**byte)).count()
}

fn word_len(bytes: &[u8]) -> usize
    ensures value { result ≡ prefix_len (λ byte. not (parts_words byte)) bytes.now }
    ensures within { result ≤ length bytes.now }
{
    bytes.iter().take_while(|byte| !parts_words(**byte)).count()
}

fn parts_words(byte: u8) -> bool
    ensures { result ≡ parts_words byte }
{
    !(byte.is_ascii_alphanumeric() || 128 <= byte)
}

/// The line before a comment, which its first `#` begins, but before a digit.
pub(crate) fn uncommented(line: &[u8]) -> &[u8]
    ensures { result.now ≡ uncommented line.now }
{
    let front = before_mark(b'#', line);
    match line.get(front.len() + 1) {
        Some(b'0'..=b'9') => line,
        _ => front,
    }
}

/// The text as far as the first of these marks.
pub(crate) fn before_mark(mark: u8, text: &[u8]) -> &[u8]
    ensures { result.now ≡ before_first (λ byte. byte == mark) text.now }
{
    match memchr(mark, text) {
        Some(place) => &text[..place],
        None => text,
    }
}
