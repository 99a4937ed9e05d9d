//! The search for the next header, and whether bytes are a record.
ghost use Rattle.std.specs.Prelude.{◌&&◌, ◌<◌, ◌==◌, ◌≡◌, ◌≤◌, get_or, length, take, true};
ghost use Rattle.fc_record.specs.RecordTexts.{ends_line, header_mark};
ghost use Rattle.fc_collect.specs.{inside.{PassesNoHeader, Searched}, Records.{has_content}};

use fc_record::begins_line;
use fc_text::Lines;
use memchr::memchr;

/// The first header at `from` or after it, in the bytes of a record and what follows it.
pub(crate) fn next_header(bytes: &[u8], from: usize) -> Option<usize>
    requires { from ≤ length bytes.now }
    ensures { Searched bytes.now from result }
{
    let mut at = next_mark(bytes, from);
    while at < bytes.len() {
        if is_header(bytes, at) {
            return Some(at);
        }
        at = next_mark(bytes, at + 1);
    }
    None
}

/// The place of the first `@` at `from` or after it, or the number of bytes where there is none.
fn next_mark(bytes: &[u8], from: usize) -> usize
    requires { from ≤ length bytes.now }
    ensures not_before { from ≤ result }
    ensures within { result ≤ length bytes.now }
    ensures passed { PassesNoHeader bytes.now from result }
{
    match memchr(b'@', &bytes[from..]) {
        Some(ahead) => from + ahead,
        None => bytes.len(),
    }
}

fn is_header(bytes: &[u8], at: usize) -> bool
    requires { at < length bytes.now }
    ensures { result ≡ (ends_line (take at bytes.now) && get_or bytes.now at 0 == header_mark) }
{
    if !begins_line(bytes, at) {
        return false;
    }
    bytes[at] == b'@'
}

/// Whether a line of these bytes is neither blank nor a comment.
pub(crate) fn has_content(bytes: &[u8]) -> bool
    ensures { result ≡ has_content bytes.now }
{
    if begins_header(bytes) {
        return true;
    }
    for line in Lines::new(bytes) {
        if !line.is_blank_or_comment() {
            return true;
        }
    }
    false
}

/// Whether the first byte is the mark of a header.
fn begins_header(bytes: &[u8]) -> bool
    ensures { result ≡ true → has_content bytes.now ≡ true }
{
    bytes.first() == Some(&b'@')
}
