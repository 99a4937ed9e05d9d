//! The moves that Freecell Solver says in words.
ghost use Rattle.std.specs.Prelude.{◌++◌, ◌-◌, ◌==◌, ◌≡◌, IfOk, length, map, min, not, OnOk};
ghost use Rattle.std.specs.Prelude.{slice_index, slice_index_or};
ghost use Rattle.fc_text.specs.Lines.{with_end, words_from};
ghost use Rattle.fc_import.specs.Scan.{count_said, if_move, is_said, move_said, parts_words};
ghost use Rattle.fc_import.specs.Scan.{pile_said, solver_said, word_at};

use crate::words::Words;
use fc_board::Rule;
use fc_text::run_named;
use std::alloc::AllocError;

/// Puts the move that the words of the text say, after a blank. Returns whether they say one.
pub(crate) fn push_solver_move<R: Rule>(
    text: &[u8],
    moves: &mut Vec<u8>,
) -> Result<bool, AllocError>
    ensures moves { OnOk result (moves.new.items ≡ moves.old.items ++ solver_said R.game
        (map with_end (words_from parts_words 0 text.now))) }
    ensures is { IfOk result (λ is. is ≡ not (length (solver_said R.game
        (map with_end (words_from parts_words 0 text.now))) == 0)) }
{
    if !is_said(text) {
        return Ok(false);
    }
    push_said::<R>(
        word_at(text, 1),
        word_at(text, 4),
        word_at(text, 5),
        word_at(text, 7),
        word_at(text, 8),
        moves,
    )
}

// Whether the text has the words of a move, and no others.
fn is_said(text: &[u8]) -> bool
    ensures { result ≡ is_said (map with_end (words_from parts_words 0 text.now)) }
{
    word_at(text, 0) == b"Move".as_slice()
        && word_at(text, 3) == b"from".as_slice()
        && word_at(text, 6) == b"to".as_slice()
        && count_words(text) == 9
}

// Puts the move of so many cards from one pile to another.
fn push_said<R: Rule>(
    count: &[u8],
    from_kind: &[u8],
    from_number: &[u8],
    to_kind: &[u8],
    to_number: &[u8],
    moves: &mut Vec<u8>,
) -> Result<bool, AllocError>
    ensures moves { OnOk result (moves.new.items ≡ moves.old.items ++ if_move R.game
        (move_said count.now from_kind.now from_number.now to_kind.now to_number.now)) }
    ensures is { IfOk result (λ is. is ≡ not (length (if_move R.game
        (move_said count.now from_kind.now from_number.now to_kind.now to_number.now)) == 0)) }
{
    let from = pile_said(from_kind, from_number);
    let to = pile_said(to_kind, to_number);
    if from.is_ascii_digit() && to.is_ascii_digit() {
        if let Some(digit) = count_said(count) {
            return push_if_move::<R>(&[from, to, b'v', digit], moves);
        }
    }
    push_if_move::<R>(&[from, to], moves)
}

// The digit of the number of cards, where it is said to be 2 to 9.
fn count_said(count: &[u8]) -> Option<u8>
    ensures { result ≡ count_said count.now }
{
    match count {
        [digit @ b'2'..=b'9'] => Some(*digit),
        _ => None,
    }
}

fn push_if_move<R: Rule>(word: &[u8], moves: &mut Vec<u8>) -> Result<bool, AllocError>
    ensures moves { OnOk result
        (moves.new.items ≡ moves.old.items ++ if_move R.game word.now) }
    ensures is { IfOk result (λ is. is ≡ not (length (if_move R.game word.now) == 0)) }
{
    if run_named::<R>(word).is_none() {
        return Ok(false);
    }
    moves.push(b' ')?;
    moves.extend_from_slice(word)?;
    Ok(true)
}

/// How many words the text has, up to ten.
pub(crate) fn count_words(text: &[u8]) -> usize
    ensures { result ≡ min (length (map with_end (words_from parts_words 0 text.now))) 10 }
{
    let mut count: usize = 0;
    for _word in Words::new(text) {
        if count < 10 {
            count += 1;
        }
    }
    count
}

// The word at this place among those of the text, or nothing.
pub(crate) fn word_at(text: &[u8], place: usize) -> &[u8]
    ensures { result.now ≡ word_at (map with_end (words_from parts_words 0 text.now)) place }
{
    let mut left = place;
    for word in Words::new(text) {
        if left == 0 {
            return word.text;
        }
        left -= 1;
    }
    b""
}

// The letter of a column, of a cell or of the foundations.
fn pile_said(kind: &[u8], number: &[u8]) -> u8
    ensures { result ≡ pile_said kind.now number.now }
{
    let letters = if kind == b"stack".as_slice() {
        b"12345678".as_slice()
    } else if kind == b"freecell".as_slice() {
        b"abcdefgk".as_slice()
    } else if kind == b"the".as_slice() {
        return b'h';
    } else {
        return b'?';
    };
    letter_at(letters, place_said(number))
}

fn place_said(number: &[u8]) -> usize
    ensures { result ≡ slice_index number.now 0 - 0x30 }
{
    match number.first() {
        Some(digit) => usize::from(digit.saturating_sub(b'0')),
        None => 0,
    }
}

fn letter_at(letters: &[u8], place: usize) -> u8
    ensures { result ≡ slice_index_or letters.now place 0x3F }
{
    match letters.get(place) {
        Some(letter) => *letter,
        None => b'?',
    }
}
