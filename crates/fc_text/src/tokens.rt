//! The words of a text of moves, with their places.
ghost use Rattle.std.specs.List.{prefix_len};
ghost use Rattle.std.specs.Prelude.{◌+◌, ◌≡◌, ◌≤◌, All, drop, length, map, not};
ghost use Rattle.fc_text.specs.Notation.{separates_tokens};

/// A word of a text.
#[derive(Clone, Copy, Debug)]
pub struct Token<'a> {
    /// Its bytes, those from `start` to `end` of the text.
    pub text: &'a [u8],
    /// The offset in bytes of its first byte.
    pub start: usize,
    /// The offset in bytes of what follows it.
    pub end: usize,
}

/// The words of a text of moves, in order: they are separated by blanks, tabs, line feeds and
/// carriage returns.
#[derive(Clone, Copy, Debug)]
pub struct Tokens<'a> {
    text: &'a [u8],
    at: usize,
    pub ghost within: { at ≤ length text.now },
}

impl<'a> Tokens<'a> {
    ghost use Rattle.fc_text.specs.{Left.{tokens_left}, Lines.{IsAtSpan, with_end, words_from}};

    /// The words of the text; offsets count from its first byte.
    pub fn new(text: &'a [u8]) -> Tokens<'a>
        ensures words { tokens_left result ≡ map with_end (words_from separates_tokens 0 text.now) }
        ensures spans { All (IsAtSpan text.now) (tokens_left result) }
    {
        Tokens { text, at: 0 }
    }

    /// The words from this place of the text on: none where the text has ended before.
    pub fn from(text: &'a [u8], at: usize) -> Tokens<'a>
        ensures { tokens_left result
            ≡ map with_end (words_from separates_tokens at (drop at text.now)) }
    {
        let at = at.min(text.len());
        Tokens { text, at }
    }
}

impl<'a> Iterator for Tokens<'a> {
    ghost use Rattle.std.specs.Iterator.{item_count, YieldsFirstBy};
    ghost use Rattle.fc_text.specs.{Left.{tokens_left}, Lines.{word_of}};

    type Item = Token<'a>;

    ghost next_gives = { YieldsFirstBy word_of tokens_left };

    ghost remaining = { item_count tokens_left };

    fn next(&mut self) -> Option<Token<'a>> {
        let (gap, word) = gap_and_word(&self.text[self.at..]);
        let start = self.at + gap;
        let end = start + word;
        self.at = end;
        if start == end {
            return None;
        }
        let text = &self.text[start..end];
        Some(Token { text, start, end })
    }
}

/// How many bytes at the front are between words, and how many in the word after them: mostly one
/// blank and the two of a move of one card, before another blank.
fn gap_and_word(bytes: &[u8]) -> (usize, usize)
    ensures gap { result.0 ≡ prefix_len separates_tokens bytes.now }
    ensures word { result.1
        ≡ prefix_len (λ byte. not (separates_tokens byte)) (drop result.0 bytes.now) }
    ensures within { result.0 + result.1 ≤ length bytes.now }
{
    if let [b' ', first, second, b' ', ..] = bytes {
        if !separates_tokens(*first) && !separates_tokens(*second) {
            return (1, 2);
        }
    }
    any_gap_and_word(bytes)
}

/// The same by a search. It is no part of loops over tokens, which stay short so.
#[inline(never)]
fn any_gap_and_word(bytes: &[u8]) -> (usize, usize)
    ensures gap { result.0 ≡ prefix_len separates_tokens bytes.now }
    ensures word { result.1
        ≡ prefix_len (λ byte. not (separates_tokens byte)) (drop result.0 bytes.now) }
    ensures within { result.0 + result.1 ≤ length bytes.now }
{
    let gap = gap_len(bytes);
    (gap, word_len(&bytes[gap..]))
}

/// How many bytes at the front are between words: mostly one.
fn gap_len(bytes: &[u8]) -> usize
    ensures value { result ≡ prefix_len separates_tokens bytes.now }
    ensures within { result ≤ length bytes.now }
{
    if let [first, second, ..] = bytes {
        if separates_tokens(*first) && !separates_tokens(*second) {
            return 1;
        }
    }
    bytes
        .iter()
        .take_while(|byte| separates_tokens(**byte))
        .count()
}

/// How many bytes at the front are in one word: two of a move of one card.
fn word_len(bytes: &[u8]) -> usize
    ensures value { result ≡ prefix_len (λ byte. not (separates_tokens byte)) bytes.now }
    ensures within { result ≤ length bytes.now }
{
    if let [first, second, third, ..] = bytes {
        if !separates_tokens(*first) && !separates_tokens(*second) && separates_tokens(*third) {
            return 2;
        }
    }
    bytes
        .iter()
        .take_while(|byte| !separates_tokens(**byte))
        .count()
}

fn separates_tokens(byte: u8) -> bool
    ensures { result ≡ separates_tokens byte }
{
    byte <= b' ' && (byte == b' ' || byte == b'\t' || byte == b'\n' || byte == b'\r')
}
