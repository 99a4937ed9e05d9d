//! The lines of lists of moves, as they are and with their moves one card at a time.
ghost use Rattle.std.specs.List.{flat_map};
ghost use Rattle.std.specs.Prelude.{◌++◌, ◌≡◌, codes, if◌then◌else◌, nat_le, OnOk};
ghost use Rattle.fc_board.specs.{Games.{eight_off}, Moves.{ListFits, move_count}, Play.{Refused}};
ghost use Rattle.fc_text.specs.Notation.{most_moves};
ghost use Rattle.fc_record.specs.{inside.Fitting.{AllFit}, Printing.{comment_line, expanded_line}};
ghost use Rattle.fc_record.specs.Printing.{list_line, numbered_lines, verdict_words};

use super::heading::push_number;
use super::verdict::push_refused;
use crate::record::MoveList;
use fc_board::{Board, PlayFault, Rule};
use fc_text::MOST_MOVES;
use std::alloc::{AllocError, Global};

/// Prints the line of each list.
pub(crate) fn push_lists(lists: &[MoveList], out: &mut Vec<u8>) -> Result<(), AllocError>
    requires fit { AllFit eight_off lists.now }
    ensures printed { OnOk result (out.new.items
        ≡ out.old.items ++ flat_map list_line lists.now) }
{
    for list in lists {
        push_list(list, out)?;
    }
    Ok(())
}

/// Prints the line of a list: its mark and, where it has moves, a blank and these.
pub fn push_list(list: &MoveList, out: &mut Vec<u8>) -> Result<(), AllocError>
    requires fits { ListFits eight_off list.now }
    ensures printed { OnOk result (out.new.items ≡ out.old.items ++ list_line list.now) }
{
    out.extend_from_slice(list.marks())?;
    if list.len() > 0 {
        out.push(b' ')?;
        list.push_tokens(out)?;
    }
    out.push(b'\n')?;
    Ok(())
}

/// Prints for each list its moves of one card, or why there are none.
pub(crate) fn push_expanded_lines<R: Rule>(
    alloc: Global,
    board: &Board<R>,
    lists: &[MoveList],
    out: &mut Vec<u8>,
) -> Result<(), AllocError>
    requires fit { AllFit R.game lists.now }
    ensures printed { OnOk result (out.new.items ≡ out.old.items
        ++ numbered_lines (expanded_line R.game board.now) 1 lists.now) }
{
    for (index, list) in lists.iter().enumerate() {
        push_expanded(alloc, index + 1, board, list, out)?;
    }
    Ok(())
}

// Prints the line for the list of this number.
fn push_expanded<R: Rule>(
    alloc: Global,
    number: usize,
    board: &Board<R>,
    list: &MoveList,
    out: &mut Vec<u8>,
) -> Result<(), AllocError>
    requires fits { ListFits R.game list.now }
    ensures printed { OnOk result (out.new.items ≡ out.old.items
        ++ expanded_line R.game board.now number list.now) }
{
    match list.expand(alloc, board)? {
        Ok(expansion) => push_within(number, &expansion, out),
        Err(fault) => push_illegal(number, fault, out),
    }
}

// Prints the line of a list in place of the one of this number, or that it has too many moves.
fn push_within(number: usize, list: &MoveList, out: &mut Vec<u8>) -> Result<(), AllocError>
    requires { ListFits eight_off list.now }
    ensures printed { OnOk result (out.new.items ≡ out.old.items
        ++ (if nat_le (move_count list.now) most_moves then list_line list.now
        else comment_line number (codes " too long"))) }
{
    if list.len() > MOST_MOVES {
        return push_too_long(number, out);
    }
    push_list(list, out)
}

fn push_illegal(number: usize, fault: PlayFault, out: &mut Vec<u8>) -> Result<(), AllocError>
    ensures printed { OnOk result (out.new.items ≡ out.old.items
        ++ comment_line number (verdict_words 0 (Refused fault.index fault.fault))) }
{
    out.extend_from_slice(b"# list ")?;
    push_number(number, out)?;
    push_refused(fault, out)?;
    out.push(b'\n')?;
    Ok(())
}

fn push_too_long(number: usize, out: &mut Vec<u8>) -> Result<(), AllocError>
    ensures printed { OnOk result (out.new.items ≡ out.old.items
        ++ comment_line number (codes " too long")) }
{
    out.extend_from_slice(b"# list ")?;
    push_number(number, out)?;
    out.extend_from_slice(b" too long\n")
}
