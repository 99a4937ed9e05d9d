//! The members of a table's object. Of its strings only a name may have a byte that is escaped.
ghost use Rattle.std.specs.{Fmt.{decimal}, Option.{option_map}, Prelude.{◌++◌, ◌==◌, ◌||◌, ◌∷◌}};
ghost use Rattle.std.specs.Prelude.{◌≡◌, [], codes, if◌then◌else◌, length, map, OnOk, slice_index};
ghost use Rattle.{fc_board.specs.Games.{variant_word}, fc_card.specs.{renaming_text}};
ghost use Rattle.fc_text.specs.Notation.{cell_letters, column_digits};
ghost use Rattle.fc_record.specs.{inside.Fitting.{AllFit}, Printing.{name_of}};
ghost use Rattle.fc_record.specs.Tables.{first_win, json_string, number_or_null, side_by_side};

use super::heading::push_number;
use super::passage::{push_places, push_renaming};
use super::table::{number_of_first_win, push_side_by_side};
use crate::record::MoveList;
use fc_board::{Board, Rule, Variant};
use fc_canon::Passage;
use itoa::Buffer;
use std::alloc::AllocError;

/// Prints the members with the name of the record of this number, its game and its canonical text.
pub(super) fn push_board_members(
    number: usize,
    name: Option<&[u8]>,
    variant: Variant,
    canonical: &[u8],
    out: &mut Vec<u8>,
) -> Result<(), AllocError>
    ensures printed { OnOk result (out.new.items ≡ out.old.items ++ (codes "{\"name\":"
        ++ json_string (name_of number (option_map (λ name. name.now) name.entry))
        ++ codes ",\"variant\":\"" ++ variant_word variant
        ++ codes "\",\"board\":\"" ++ side_by_side canonical.now)) }
{
    out.extend_from_slice(b"{\"name\":")?;
    push_name_string(number, name, out)?;
    out.extend_from_slice(b",\"variant\":\"")?;
    out.extend_from_slice(variant.word().as_bytes())?;
    out.extend_from_slice(b"\",\"board\":\"")?;
    push_side_by_side(canonical, out)?;
    Ok(())
}

/// Prints the name, or the number where it has none, as a string.
pub(super) fn push_name_string(
    number: usize,
    name: Option<&[u8]>,
    out: &mut Vec<u8>,
) -> Result<(), AllocError>
    ensures printed { OnOk result (out.new.items ≡ out.old.items
        ++ json_string (name_of number (option_map (λ name. name.now) name.entry))) }
{
    match name {
        Some(name) => push_json_string(name, out),
        None => push_json_string(Buffer::new().format(number).as_bytes(), out),
    }
}

/// Prints the members with the renaming of a passage, its columns and its cells, after the quote
/// that ends the member before them.
pub(super) fn push_passage_members<R: Rule>(
    passage: &Passage<R>,
    out: &mut Vec<u8>,
) -> Result<(), AllocError>
    ensures printed { OnOk result (out.new.items ≡ out.old.items
        ++ (codes "\",\"renaming\":\"" ++ renaming_text passage.now.renaming
        ++ codes "\",\"columns\":\"" ++ map (slice_index column_digits) passage.now.columns
        ++ codes "\",\"cells\":\"" ++ map (slice_index cell_letters) passage.now.cells)) }
{
    out.extend_from_slice(b"\",\"renaming\":\"")?;
    push_renaming(passage.renaming(), out)?;
    out.extend_from_slice(b"\",\"columns\":\"")?;
    push_places(passage.columns(), b"12345678", out)?;
    out.extend_from_slice(b"\",\"cells\":\"")?;
    push_places(passage.cells(), b"abcdefgk", out)?;
    Ok(())
}

/// Prints the members that say how many lists there are and which of them wins first, after the
/// quote that ends the member before them, and ends the object.
pub(super) fn push_list_members<R: Rule>(
    board: &Board<R>,
    lists: &[MoveList],
    out: &mut Vec<u8>,
) -> Result<(), AllocError>
    requires fit { AllFit R.game lists.now }
    ensures printed { OnOk result (out.new.items ≡ out.old.items
        ++ (codes "\",\"lists\":" ++ decimal (length lists.now)
        ++ codes ",\"win\":" ++ number_or_null (first_win R.game board.now 1 lists.now)
        ++ codes "}\n")) }
{
    out.extend_from_slice(b"\",\"lists\":")?;
    push_number(lists.len(), out)?;
    out.extend_from_slice(b",\"win\":")?;
    push_win_or_null(board, lists, out)?;
    out.extend_from_slice(b"}\n")?;
    Ok(())
}

// Prints the number of the first list that wins, or null.
fn push_win_or_null<R: Rule>(
    board: &Board<R>,
    lists: &[MoveList],
    out: &mut Vec<u8>,
) -> Result<(), AllocError>
    requires fit { AllFit R.game lists.now }
    ensures printed { OnOk result (out.new.items
        ≡ out.old.items ++ number_or_null (first_win R.game board.now 1 lists.now)) }
{
    match number_of_first_win(board, lists) {
        Some(number) => push_number(number, out),
        None => out.extend_from_slice(b"null"),
    }
}

/// Prints a text of printing bytes as a string of JSON.
pub fn push_json_string(text: &[u8], out: &mut Vec<u8>) -> Result<(), AllocError>
    ensures printed { OnOk result (out.new.items ≡ out.old.items ++ json_string text.now) }
{
    out.push(b'"')?;
    for byte in text {
        push_escaped(*byte, out)?;
    }
    out.push(b'"')?;
    Ok(())
}

// Prints the byte, with a backslash before it where it is a quote or a backslash.
fn push_escaped(byte: u8, out: &mut Vec<u8>) -> Result<(), AllocError>
    ensures printed { OnOk result (out.new.items ≡ out.old.items
        ++ (if byte == 34 || byte == 92 then 92 ∷ byte ∷ [] else byte ∷ [])) }
{
    if byte == b'"' || byte == b'\\' {
        out.push(b'\\')?;
    }
    out.push(byte)?;
    Ok(())
}
