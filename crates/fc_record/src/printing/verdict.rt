//! The verdicts on the lists of a record, as they are printed.
ghost use Rattle.std.specs.{Option.{option_map}, Prelude.{◌++◌, ◌≡◌, [], if◌then◌else◌, OnOk, ℕ}};
ghost use Rattle.fc_board.specs.Moves.{ListFits, move_count};
ghost use Rattle.fc_board.specs.Play.{list_verdict, OnlyLegal, Refused, Won};
ghost use Rattle.fc_record.specs.inside.Fitting.{AllFit};
ghost use Rattle.fc_record.specs.Printing.{name_of, numbered_lines, verdict_line, verdict_words};

use super::heading::{push_name, push_number};
use super::refusal::push_step_reason;
use crate::record::MoveList;
use fc_board::{Board, PlayFault, Rule};
use std::alloc::AllocError;

/// Prints a line for each list of the record of this number: the name of the record, the number of
/// the list from 1, and the verdict.
pub(crate) fn push_verdict_lines<R: Rule>(
    number: usize,
    name: Option<&[u8]>,
    board: &Board<R>,
    lists: &[MoveList],
    out: &mut Vec<u8>,
) -> Result<(), AllocError>
    requires fit { AllFit R.game lists.now }
    ensures printed { OnOk result (out.new.items ≡ out.old.items
        ++ numbered_lines (verdict_line (name_of number (option_map (λ name. name.now) name.entry))
        R.game board.now) 1 lists.now) }
{
    for (index, list) in lists.iter().enumerate() {
        push_name(number, name, out)?;
        push_verdict(index + 1, board, list, out)?;
    }
    Ok(())
}

// What comes after the name in the line of the list of this number.
fn push_verdict<R: Rule>(
    number: usize,
    board: &Board<R>,
    list: &MoveList,
    out: &mut Vec<u8>,
) -> Result<(), AllocError>
    requires fits { ListFits R.game list.now }
    ensures printed { OnOk result (out.new.items ≡ out.old.items
        ++ verdict_line [] R.game board.now number list.now) }
{
    out.push(b' ')?;
    push_number(number, out)?;
    push_words(board, list, out)?;
    out.push(b'\n')?;
    Ok(())
}

fn push_words<R: Rule>(
    board: &Board<R>,
    list: &MoveList,
    out: &mut Vec<u8>,
) -> Result<(), AllocError>
    requires fits { ListFits R.game list.now }
    ensures printed { OnOk result (out.new.items ≡ out.old.items
        ++ verdict_words (move_count list.now) (list_verdict R.game board.now list.now)) }
{
    match list.play(board) {
        Ok(is_won) => push_played(is_won, list.len(), out),
        Err(fault) => push_refused(fault, out),
    }
}

fn push_played(is_won: bool, count: usize, out: &mut Vec<u8>) -> Result<(), AllocError>
    ensures printed { OnOk result (out.new.items
        ≡ out.old.items ++ verdict_words count (if is_won then Won else OnlyLegal)) }
{
    if is_won {
        out.extend_from_slice(b" wins ")?;
    } else {
        out.extend_from_slice(b" legal ")?;
    }
    push_number(count, out)
}

pub(crate) fn push_refused(fault: PlayFault, out: &mut Vec<u8>) -> Result<(), AllocError>
    ensures printed { (count : ℕ) → OnOk result (out.new.items ≡ out.old.items
        ++ verdict_words count (Refused fault.index fault.fault)) }
{
    out.extend_from_slice(b" illegal ")?;
    push_number(fault.index, out)?;
    out.push(b' ')?;
    push_step_reason(fault.fault, out)
}
