//! What the characters of a text stand for: letters of suits, ends of lines, blanks, or nothing.
ghost use Rattle.std.specs.Prelude.{◌%◌, ◌&&◌, ◌++◌, ◌==◌, ◌||◌, ◌≡◌, [], All, chars, false, IfOk};
ghost use Rattle.std.specs.Prelude.{if◌then◌else◌, IsTrue, OnOk, true};
ghost use Rattle.fc_text.specs.Bytes.{line_feed};
ghost use Rattle.fc_import.specs.inside.{is_alone};
ghost use Rattle.fc_import.specs.Words.{is_between, letters_of, mark_for, stands_for, text_read};

use crate::decoding::decode;
use std::alloc::{AllocError, Global};

/// The text that the bytes of a file are, with a line feed at the end of each line and letters for
/// the signs of suits.
pub(crate) fn read_text(alloc: Global, bytes: Vec<u8>) -> Result<Vec<u8>, AllocError>
    ensures { IfOk result (λ text. text.items ≡ text_read bytes.items) }
{
    if are_alone(bytes.as_slice()) {
        return Ok(bytes);
    }
    let text = decode(alloc, bytes.as_slice())?;
    with_letters(alloc, text.as_str())
}

// Whether each byte is read as it is. All are looked at, also after one that is not, so that many
// are looked at at once.
fn are_alone(text: &[u8]) -> bool
    ensures { IsTrue result → All (λ byte. is_alone byte ≡ true) text.now }
{
    let mut are_alone = true;
    for byte in text {
        are_alone &= is_alone(*byte);
    }
    are_alone
}

// Whether the byte is one of ASCII that ends no line, or a line feed.
fn is_alone(byte: u8) -> bool
    ensures { result ≡ is_alone byte }
{
    byte <= 10 || (14..128).contains(&byte)
}

// What stands for the characters of the text.
fn with_letters(alloc: Global, text: &str) -> Result<Vec<u8>, AllocError>
    ensures { IfOk result (λ made. made.items ≡ letters_of false (chars text.now)) }
{
    let mut made = Vec::new(alloc);
    let mut is_after_return = false;
    for sign in text.chars() {
        push_sign(&mut made, is_after_return, sign)?;
        is_after_return = sign == '\r';
    }
    Ok(made)
}

// Puts what stands for a character: nothing for a line feed right after a carriage return.
fn push_sign(made: &mut Vec<u8>, is_after_return: bool, sign: char) -> Result<(), AllocError>
    ensures { OnOk result (made.new.items ≡ made.old.items
        ++ (if is_after_return && sign == line_feed then [] else stands_for sign)) }
{
    if is_after_return && sign == '\n' {
        return Ok(());
    }
    push_letters(made, sign)
}

fn push_letters(made: &mut Vec<u8>, sign: char) -> Result<(), AllocError>
    ensures { OnOk result (made.new.items ≡ made.old.items ++ stands_for sign) }
{
    let number = sign as u32;
    if is_among(0x2660, 0x2667, number) {
        made.push(b"SHDC"[(number % 4) as usize])?;
    } else if is_card_sign(number) {
        made.push(b"?A23456789TJ?QK?"[(number % 16) as usize])?;
        made.push(b"SHDC"[(number / 16 - 0x1F0A) as usize])?;
        made.push(b' ')?;
    } else if is_among(0xFF01, 0xFF5E, number) {
        made.push((number - 0xFEE0) as u8)?;
    } else if ends_line(number) {
        made.push(b'\n')?;
    } else if !is_unseen(number) {
        push_mark(made, sign)?;
    }
    Ok(())
}

// Puts the mark that stands for a dash, dots, a space or an arrow, or the character itself.
fn push_mark(made: &mut Vec<u8>, sign: char) -> Result<(), AllocError>
    ensures { OnOk result (made.new.items ≡ made.old.items ++ mark_for sign) }
{
    let number = sign as u32;
    if is_dash(number) {
        made.push(b'-')?;
    } else if number == 0x2026 {
        made.extend_from_slice(b"...")?;
    } else if is_space(number) {
        made.push(b' ')?;
    } else if is_arrow(number) {
        made.push(b'>')?;
    } else {
        let mut room = [0; 4];
        made.extend_from_slice(sign.encode_utf8(&mut room).as_bytes())?;
    }
    Ok(())
}

fn is_dash(number: u32) -> bool
    ensures { result ≡ (is_between 0x2010 0x2015 number || number == 0x2212) }
{
    is_among(0x2010, 0x2015, number) || number == 0x2212
}

fn is_arrow(number: u32) -> bool
    ensures { result ≡ (is_between 0x2190 0x21FF number || is_between 0x279C 0x27BE number) }
{
    is_among(0x2190, 0x21FF, number) || is_among(0x279C, 0x27BE, number)
}

// Whether the sign is a playing card from U+1F0A1 on, and no knight and no joker.
fn is_card_sign(number: u32) -> bool
    ensures { result ≡ (is_between 0x1F0A0 0x1F0DF number
        && (is_between 1 11 (number % 16) || is_between 13 14 (number % 16))) }
{
    is_among(0x1F0A0, 0x1F0DF, number)
        && (is_among(1, 11, number % 16) || is_among(13, 14, number % 16))
}

fn ends_line(number: u32) -> bool
    ensures { result ≡ (is_between 0x0B 0x0D number || number == 0x85
        || is_between 0x2028 0x2029 number) }
{
    is_among(0x0B, 0x0D, number) || number == 0x85 || is_among(0x2028, 0x2029, number)
}

fn is_unseen(number: u32) -> bool
    ensures { result ≡ (number == 0xAD || number == 0x61C || is_between 0x200C 0x200F number
        || is_between 0x202A 0x202E number || is_between 0x2060 0x206F number
        || is_between 0xFE00 0xFE0F number || number == 0xFEFF) }
{
    number == 0xAD
        || number == 0x61C
        || is_among(0x200C, 0x200F, number)
        || is_among(0x202A, 0x202E, number)
        || is_among(0x2060, 0x206F, number)
        || is_among(0xFE00, 0xFE0F, number)
        || number == 0xFEFF
}

fn is_space(number: u32) -> bool
    ensures { result ≡ (number == 0xA0 || is_between 0x2000 0x205F number || number == 0x3000) }
{
    number == 0xA0 || is_among(0x2000, 0x205F, number) || number == 0x3000
}

// Whether the number is one of these.
fn is_among(low: u32, high: u32, number: u32) -> bool
    ensures { result ≡ is_between low high number }
{
    low <= number && number <= high
}
