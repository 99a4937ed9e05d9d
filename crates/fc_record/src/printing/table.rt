//! The fields of a table's line.
ghost use Rattle.std.specs.{Fmt.{decimal}, Option.{option_map}, Prelude.{◌++◌, ◌∷◌, ◌≡◌, []}};
ghost use Rattle.std.specs.Prelude.{IfNone, IfSome, length, map, OnOk, slice_index};
ghost use Rattle.{fc_board.specs.Games.{variant_word}, fc_card.specs.{renaming_text}};
ghost use Rattle.fc_text.specs.{Bytes.{dash, tab}, Notation.{cell_letters, column_digits}};
ghost use Rattle.fc_record.specs.{inside.Fitting.{AllFit}, Printing.{name_of}};
ghost use Rattle.fc_record.specs.Tables.{first_win, side_by_side};

use super::heading::{push_name, push_number};
use super::passage::{push_places, push_renaming};
use crate::record::MoveList;
use fc_board::{Board, Rule, Variant};
use fc_canon::Passage;
use memchr::memchr;
use std::alloc::AllocError;

/// Prints the name of the record of this number, its game and its canonical text, each with a tab
/// after it.
pub(super) fn push_board_fields(
    number: usize,
    name: Option<&[u8]>,
    variant: Variant,
    canonical: &[u8],
    out: &mut Vec<u8>,
) -> Result<(), AllocError>
    ensures printed { OnOk result (out.new.items ≡ out.old.items
        ++ (name_of number (option_map (λ name. name.now) name.entry)
        ++ tab ∷ variant_word variant
        ++ tab ∷ side_by_side canonical.now ++ tab ∷ [])) }
{
    push_name(number, name, out)?;
    out.push(b'\t')?;
    out.extend_from_slice(variant.word().as_bytes())?;
    out.push(b'\t')?;
    push_side_by_side(canonical, out)?;
    out.push(b'\t')?;
    Ok(())
}

/// Prints the lines of a text side by side. No line of a board has two blanks in a row or ends with
/// one, so nothing is lost, and what is printed is ordered as the texts are.
pub(super) fn push_side_by_side(text: &[u8], out: &mut Vec<u8>) -> Result<(), AllocError>
    ensures printed { OnOk result (out.new.items ≡ out.old.items ++ side_by_side text.now) }
{
    let mut left = &text[..text.len().saturating_sub(1)];
    while let Some(end) = memchr(b'\n', left) {
        out.extend_from_slice(&left[..end])?;
        out.extend_from_slice(b"  ")?;
        left = &left[end + 1..];
    }
    out.extend_from_slice(left)
}

/// Prints the renaming of a passage, its columns and its cells as `canon` does, each with a tab
/// after it.
pub(super) fn push_passage_fields<R: Rule>(
    passage: &Passage<R>,
    out: &mut Vec<u8>,
) -> Result<(), AllocError>
    ensures printed { OnOk result (out.new.items ≡ out.old.items
        ++ (renaming_text passage.now.renaming
        ++ tab ∷ map (slice_index column_digits) passage.now.columns
        ++ tab ∷ map (slice_index cell_letters) passage.now.cells ++ tab ∷ [])) }
{
    push_renaming(passage.renaming(), out)?;
    out.push(b'\t')?;
    push_places(passage.columns(), b"12345678", out)?;
    out.push(b'\t')?;
    push_places(passage.cells(), b"abcdefgk", out)?;
    out.push(b'\t')?;
    Ok(())
}

/// Prints how many lists there are, a tab, and which of them wins first.
pub(super) fn push_list_fields<R: Rule>(
    board: &Board<R>,
    lists: &[MoveList],
    out: &mut Vec<u8>,
) -> Result<(), AllocError>
    requires fit { AllFit R.game lists.now }
    ensures printed { OnOk result (out.new.items ≡ out.old.items
        ++ (decimal (length lists.now) ++ tab ∷ first_win R.game board.now 1 lists.now)) }
{
    push_number(lists.len(), out)?;
    out.push(b'\t')?;
    push_first_win(board, lists, out)
}

// Prints the number of the first list that wins, or a dash.
fn push_first_win<R: Rule>(
    board: &Board<R>,
    lists: &[MoveList],
    out: &mut Vec<u8>,
) -> Result<(), AllocError>
    requires fit { AllFit R.game lists.now }
    ensures printed { OnOk result (out.new.items
        ≡ out.old.items ++ first_win R.game board.now 1 lists.now) }
{
    match number_of_first_win(board, lists) {
        Some(number) => push_number(number, out),
        None => {
            out.push(b'-')?;
            Ok(())
        }
    }
}

/// The number of the first list that wins, counted from 1.
pub(super) fn number_of_first_win<R: Rule>(board: &Board<R>, lists: &[MoveList]) -> Option<usize>
    requires fit { AllFit R.game lists.now }
    ensures some { IfSome result
        (λ number. first_win R.game board.now 1 lists.now ≡ decimal number) }
    ensures none { IfNone result (first_win R.game board.now 1 lists.now ≡ dash ∷ []) }
{
    for (index, list) in lists.iter().enumerate() {
        if list.wins(board) {
            return Some(index + 1);
        }
    }
    None
}
