//! Writing a list of moves, of either kind.
ghost use Rattle.std.specs.{List.{join_with_byte}, Prelude.{◌++◌, ◌<◌, ◌==◌, ◌≡◌, [], All, IfOk}};
ghost use Rattle.std.specs.Prelude.{IsOk, IsOkAnd, map, OnOk, slice_index};
ghost use Rattle.fc_board.specs.{Games.{eight_off}, Moves.{IsCount, PlaceFits, SourceFits}};
ghost use Rattle.fc_text.specs.{Bytes.{blank}, Notation.{column_digits, count_suffix}};
ghost use Rattle.fc_text.specs.Notation.{source_character, target_character};

use super::Notated;
use fc_board::{Place, Source};
use std::alloc::{AllocError, Global};

pub(crate) fn write_list<M: Notated>(alloc: Global, moves: &[M]) -> Result<Vec<u8>, AllocError>
    requires printable { All (M.fits_game eight_off) moves.now }
    ensures printed { IfOk result (λ text. text.items
        ≡ join_with_byte blank (map M.token_of moves.now)) }
    ensures no_moves { moves.now ≡ [] → IsOkAnd result (λ text. text.items ≡ []) }
{
    let mut text = Vec::new(alloc);
    push_list(&mut text, moves)?;
    Ok(text)
}

/// The tokens after the text, with one blank between two.
pub(crate) fn push_list<M: Notated>(text: &mut Vec<u8>, moves: &[M]) -> Result<(), AllocError>
    requires printable { All (M.fits_game eight_off) moves.now }
    ensures printed { OnOk result (text.new.items
        ≡ text.old.items ++ join_with_byte blank (map M.token_of moves.now)) }
    ensures no_moves { moves.now ≡ [] → IsOk result }
{
    text.reserve(moves.len().saturating_mul(3))?;
    for (index, one) in moves.iter().enumerate() {
        if index == 0 {
            one.push_token(text)?;
        } else {
            one.push_next(text)?;
        }
    }
    Ok(())
}

/// The number of cards after the text, as `v` and its hexadecimal digit, where there is one.
pub(crate) fn push_count(count: Option<u8>, text: &mut Vec<u8>) -> Result<(), AllocError>
    requires { IsCount count }
    ensures { OnOk result (text.new.items ≡ text.old.items ++ count_suffix count) }
{
    if let Some(count) = count {
        text.push(b'v')?;
        text.push(b"0123456789abcdef"[usize::from(count)])?;
    }
    Ok(())
}

pub(crate) fn column_digit(column: u8) -> u8
    requires { column < 8 }
    ensures { result ≡ slice_index column_digits column }
{
    b"12345678"[usize::from(column)]
}

/// The character of what a card is taken from: the digit of the column or the letter of the cell.
pub fn source_character(source: Source) -> u8
    requires { SourceFits eight_off source }
    ensures { result ≡ source_character source }
{
    match source {
        Source::Column(column) => column_digit(column),
        Source::Cell(cell) => b"abcdefgk"[usize::from(cell)],
    }
}

/// The character of what a card is put on: the digit of the column, the letter of the cell, or `h`.
pub fn target_character(target: Place) -> u8
    requires { PlaceFits eight_off target }
    ensures { result ≡ target_character target }
{
    match target {
        Place::Column(column) => column_digit(column),
        Place::Cell(cell) => b"abcdefgk"[usize::from(cell)],
        Place::Home => b'h',
    }
}
