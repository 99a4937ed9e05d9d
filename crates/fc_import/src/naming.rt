//! The names of boards, and the game that a header names.
ghost use Rattle.std.specs.List.{prefix_len};
ghost use Rattle.std.specs.Prelude.{◌≡◌, ◌≢◌, ◌≤◌, [], drop, IfOk, length, not, true};
ghost use Rattle.fc_text.specs.Notation.{separates_tokens};
ghost use Rattle.fc_record.specs.Grammar.{heading_of, is_name};
ghost use Rattle.fc_import.specs.{Import.{numbered}, Notes.{first_word, name_by, names_game}};

use fc_board::Variant;
use fc_record::{is_name, push_number, read_heading};
use std::alloc::{AllocError, Global};

/// The name that the header gives, or nothing.
pub(crate) fn name_given(
    alloc: Global,
    variant: Variant,
    line: &[u8],
) -> Result<Vec<u8>, AllocError>
    ensures { IfOk result (λ name. name.items ≡ name_by (heading_of variant line.now)) }
{
    match read_heading(variant, line) {
        Ok((_, heading, _)) => copied(alloc, heading.name.unwrap_or(b"")),
        Err(_) => Ok(Vec::new(alloc)),
    }
}

pub(crate) fn copied(alloc: Global, bytes: &[u8]) -> Result<Vec<u8>, AllocError>
    ensures { IfOk result (λ copy. copy.items ≡ bytes.now) }
{
    let mut copy = Vec::new(alloc);
    copy.extend_from_slice(bytes)?;
    Ok(copy)
}

/// The title, or the number where there is none.
pub(crate) fn title_or_number(
    alloc: Global,
    title: &[u8],
    number: usize,
) -> Result<Vec<u8>, AllocError>
    ensures name { IfOk result (λ name. is_name name.items ≡ true) }
    ensures some { IfOk result (λ name. name.items ≢ []) }
{
    if !title.is_empty() && is_name(title) {
        return copied(alloc, title);
    }
    let mut name = Vec::new(alloc);
    push_number(number, &mut name)?;
    Ok(name)
}

/// The name and the number, cut so that both have at most 64 bytes.
pub(crate) fn numbered(alloc: Global, name: &[u8], number: usize) -> Result<Vec<u8>, AllocError>
    ensures { IfOk result (λ made. made.items ≡ numbered name.now number) }
{
    let mut digits = Vec::new(alloc);
    push_number(number, &mut digits)?;
    let most = 63usize.saturating_sub(digits.len());
    let mut made = copied(alloc, name)?;
    made.truncate(most);
    made.push(b'_')?;
    made.extend_from_slice(digits.as_slice())?;
    Ok(made)
}

/// Whether the first word after the mark of a header names this game.
pub(crate) fn names_game(variant: Variant, line: &[u8]) -> bool
    ensures { result ≡ names_game variant line.now }
{
    first_word(after_mark(line)).eq_ignore_ascii_case(variant.word().as_bytes())
}

fn after_mark(line: &[u8]) -> &[u8]
    ensures { result.now ≡ drop 1 line.now }
{
    &line[line.len().min(1)..]
}

fn first_word(text: &[u8]) -> &[u8]
    ensures { result.now ≡ first_word text.now }
{
    let rest = &text[gap_len(text)..];
    &rest[..word_len(rest)]
}

fn gap_len(bytes: &[u8]) -> usize
    ensures value { result ≡ prefix_len separates_tokens bytes.now }
    ensures within { result ≤ length bytes.now }
{
    bytes.iter().take_while(|byte| separates(**byte)).count()
}

fn word_len(bytes: &[u8]) -> usize
    ensures value { result ≡ prefix_len (λ byte. not (separates_tokens byte)) bytes.now }
    ensures within { result ≤ length bytes.now }
{
    bytes.iter().take_while(|byte| !separates(**byte)).count()
}

fn separates(byte: u8) -> bool
    ensures { result ≡ separates_tokens byte }
{
    byte == b' ' || byte == b'\t' || byte == b'\n' || byte == b'\r'
}
