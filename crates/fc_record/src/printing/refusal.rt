//! What is printed for a record that is refused, and the reasons for refusing a record and a move.
ghost use Rattle.std.specs.Option.{option_map};
ghost use Rattle.std.specs.Prelude.{◌++◌, ◌+◌, ◌^◌, ◌∷◌, ◌≡◌, ◌≤◌, [], OnOk, Option};
ghost use Rattle.{fc_board.specs.Steps.{step_reason}, fc_card.specs.{card_text, Types.{Text}}};
ghost use Rattle.fc_text.specs.{Bytes.{blank}, Faults.{board_reason}};
ghost use Rattle.fc_record.specs.Printing.{record_reason, refusal_line};
ghost use Rattle.fc_record.specs.{RecordTexts.{RecordText as SaidText}, Tables.{refusal_object}};
ghost use Rattle.fc_record.specs.declared.record.RecordFault.{RecordFault as FaultValue};

use super::heading::{push_name, push_number};
use super::object::push_name_string;
use crate::record::{RecordFault, RecordFaultKind};
use fc_board::StepFault;
use fc_card::Card;
use fc_text::BoardFaultKind;
use std::alloc::AllocError;

/// What is printed for each refused record.
pub trait PrintsRefusal {
    /// The text, by the record's number and place, its name and its fault.
    ghost text: { SaidText → Option Text → FaultValue → Text };

    /// Prints that the record of this number is refused, whose first byte is at `start` in its
    /// collection.
    fn print(
        number: usize,
        start: usize,
        name: Option<&[u8]>,
        fault: RecordFault,
        out: &mut Vec<u8>,
    ) -> Result<(), AllocError>
        requires small { start + fault.place ≤ 2 ^ 62 }
        ensures printed { (bytes : Text) → OnOk result (out.new.items ≡ out.old.items
            ++ text (record { number = number; start = start; bytes = bytes })
            (option_map (λ name. name.now) name.entry) fault) };
}

/// A comment of one line.
#[derive(Drop)]
pub struct RefusalLine;

impl PrintsRefusal for RefusalLine {
    ghost text = { refusal_line };

    fn print(
        number: usize,
        start: usize,
        name: Option<&[u8]>,
        fault: RecordFault,
        out: &mut Vec<u8>,
    ) -> Result<(), AllocError> {
        push_refusal(number, start, name, fault, out)
    }
}

/// An object of JSON.
#[derive(Drop)]
pub struct RefusalObject;

impl PrintsRefusal for RefusalObject {
    ghost text = { refusal_object };

    fn print(
        number: usize,
        start: usize,
        name: Option<&[u8]>,
        fault: RecordFault,
        out: &mut Vec<u8>,
    ) -> Result<(), AllocError> {
        push_refusal_object(number, start, name, fault, out)
    }
}

// Prints the object that refuses the record of this number. No reason has a byte that is escaped.
fn push_refusal_object(
    number: usize,
    start: usize,
    name: Option<&[u8]>,
    fault: RecordFault,
    out: &mut Vec<u8>,
) -> Result<(), AllocError>
    requires small { start + fault.place ≤ 2 ^ 62 }
    ensures printed { OnOk result (out.new.items ≡ out.old.items
        ++ refusal_object (record { number = number; start = start; bytes = [] })
        (option_map (λ name. name.now) name.entry) fault) }
{
    out.extend_from_slice(b"{\"refused\":")?;
    push_name_string(number, name, out)?;
    out.extend_from_slice(b",\"place\":")?;
    push_number(start + fault.place, out)?;
    out.extend_from_slice(b",\"reason\":\"")?;
    push_reason(fault.kind, out)?;
    out.extend_from_slice(b"\"}\n")?;
    Ok(())
}

// Prints the line that refuses the record of this number.
fn push_refusal(
    number: usize,
    start: usize,
    name: Option<&[u8]>,
    fault: RecordFault,
    out: &mut Vec<u8>,
) -> Result<(), AllocError>
    requires small { start + fault.place ≤ 2 ^ 62 }
    ensures printed { OnOk result (out.new.items ≡ out.old.items
        ++ refusal_line (record { number = number; start = start; bytes = [] })
        (option_map (λ name. name.now) name.entry) fault) }
{
    out.extend_from_slice(b"# refused ")?;
    push_name(number, name, out)?;
    out.extend_from_slice(b" at ")?;
    push_number(start + fault.place, out)?;
    out.extend_from_slice(b": ")?;
    push_reason(fault.kind, out)?;
    out.push(b'\n')?;
    Ok(())
}

/// Prints the words for what is at fault in a record.
pub(crate) fn push_reason(kind: RecordFaultKind, out: &mut Vec<u8>) -> Result<(), AllocError>
    ensures printed { OnOk result (out.new.items ≡ out.old.items ++ record_reason kind) }
{
    match kind {
        RecordFaultKind::BadHeader => out.extend_from_slice(b"bad header"),
        RecordFaultKind::Board(fault) => push_board_reason(fault, out),
        RecordFaultKind::BadToken => out.extend_from_slice(b"bad token"),
        RecordFaultKind::TooManyMoves => out.extend_from_slice(b"too many moves"),
        RecordFaultKind::StrayLine => out.extend_from_slice(b"stray line"),
    }
}

fn push_board_reason(kind: BoardFaultKind, out: &mut Vec<u8>) -> Result<(), AllocError>
    ensures printed { OnOk result (out.new.items ≡ out.old.items ++ board_reason kind) }
{
    out.extend_from_slice(kind.words().as_bytes())?;
    if let BoardFaultKind::MissingCard(card) = kind {
        push_missing(card, out)
    } else {
        Ok(())
    }
}

// Prints which card is missing, after a blank.
fn push_missing(card: Card, out: &mut Vec<u8>) -> Result<(), AllocError>
    ensures printed { OnOk result (out.new.items ≡ out.old.items ++ blank ∷ card_text card) }
{
    out.extend_from_slice(&[b' ', card.rank().letter(), card.suit().letter()])
}

/// Prints the words for why a move is refused.
pub(crate) fn push_step_reason(fault: StepFault, out: &mut Vec<u8>) -> Result<(), AllocError>
    ensures printed { OnOk result (out.new.items ≡ out.old.items ++ step_reason fault) }
{
    out.extend_from_slice(fault.words().as_bytes())
}
