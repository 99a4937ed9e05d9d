//! What a command prints for the records of a collection.
ghost use Rattle.std.specs.{Option.{option_map}, Prelude.{◌++◌, ◌+◌, ◌^◌, ◌∷◌, ◌≡◌, ◌≤◌, [], Bool}};
ghost use Rattle.std.specs.Prelude.{IfOk, length, List, OnOk, true, ℕ};
ghost use Rattle.fc_card.specs.Types.{Text};
ghost use Rattle.fc_record.specs.Grammar.{after_header, Contents as SaidContents, contents_seen};
ghost use Rattle.fc_record.specs.Grammar.{Heading as SaidHeading, heading_seen, reading_after};
ghost use Rattle.fc_record.specs.Grammar.{reading_of};
ghost use Rattle.fc_record.specs.Printing.{is_refused, printed_or, printed_with, refuses};
ghost use Rattle.fc_collect.specs.Groups.{if_accepted, Member};
ghost use Rattle.fc_collect.specs.inside.{as_text, member_of, output_counts, SendingFits};
ghost use Rattle.fc_collect.specs.Streams.{GrowsBy, HasRoom, inner_of};
ghost use Rattle.fc_collect.specs.declared.streams.faults.Summary.{Summary as Counts};

use crate::{AnyGame, Counted, RunFault, Seed, Summary};
use fc_board::{BakersGame, EightOff, FreeCell, Rule, Variant};
use fc_record::{
    Contents, Heading, PrintsRefusal, RecordFault, RecordText, Unread, read_contents, read_heading,
};
use std::alloc::{AllocError, Global};
use std::io::Write;

/// An accepted record, whose game is `R`.
#[derive(Drop)]
pub struct Accepted<'a, R: Rule> {
    /// The number of the record.
    pub number: usize,
    /// What its header says.
    pub heading: Heading<'a>,
    /// What comes after that.
    pub contents: Contents<'a, R>,
}

// A record whose header was read.
struct Headed<'a> {
    text: RecordText<'a>,
    heading: Heading<'a>,
    // What comes after the header.
    body: &'a [u8],
}

/// A command: what it prints for each accepted record as it comes, and at the end for all of them.
pub trait Command {
    /// What is printed for each refused record as it comes.
    type Refusal: PrintsRefusal;

    /// What is kept of the accepted records so far.
    type Kept: Drop;

    /// The lines for a record after these earlier ones, by its number and what it says.
    ghost lines: { List Member → ℕ → SaidHeading → SaidContents → Text };

    /// The lines at the end, by how many records there are and for those that are accepted.
    ghost ending: { Counts → List Member → Text };

    /// Whether these records fail together, which counts as one more that is refused.
    ghost fails: { List Member → Bool };

    /// It is kept of these records.
    ghost keeps: { Self.Kept → List Member → Type 0 };

    /// What is kept before the first record.
    fn start(alloc: Global, seed: Seed) -> Self::Kept
        ensures { keeps result [] };

    /// Prints the lines for the record, and keeps what is to be kept of it.
    ///
    /// After an `Err` nothing is said of what was printed, nor of what is kept.
    fn accept<R: AnyGame>(
        alloc: Global,
        kept: &mut Self::Kept,
        accepted: Accepted<'_, R>,
        out: &mut Vec<u8>,
    ) -> Result<(), AllocError>
        ensures printed { OnOk result ((members : List Member) → keeps kept.old members
            → out.new.items ≡ out.old.items ++ lines members accepted.entry.number
            (heading_seen R.VARIANT accepted.entry.heading)
            (contents_seen accepted.entry.contents)) }
        ensures kept { OnOk result ((members : List Member) → keeps kept.old members
            → keeps kept.new (members ++ member_of accepted.entry.number
            (heading_seen R.VARIANT accepted.entry.heading)
            (contents_seen accepted.entry.contents) ∷ [])) };

    /// Prints the lines at the end, after what is pending, and returns whether all records fail
    /// together. What is printed is written once enough of it is pending.
    fn end<Wr: Write>(
        alloc: Global,
        kept: &Self::Kept,
        summary: Summary,
        pending: &mut Vec<u8>,
        output: &mut Counted<Wr>,
    ) -> Result<bool, RunFault>
        requires low { HasRoom output.old }
        ensures fails { IfOk result (λ failed. (members : List Member) → keeps kept.now members
            → failed ≡ fails members) }
        ensures counted { GrowsBy output.old output.new (output_counts result) }
        ensures sent { (members : List Member) → keeps kept.now members
            → SendingFits (ending summary members) pending.old.items pending.new.items
            (Wr.contents (inner_of output.old)) (Wr.contents (inner_of output.new)) result };
}

/// Accepts a record, or prints the line that refuses it; and returns whether it was refused.
pub(crate) fn take_record<A: Command>(
    alloc: Global,
    variant: Variant,
    kept: &mut A::Kept,
    text: RecordText<'_>,
    out: &mut Vec<u8>,
) -> Result<bool, AllocError>
    requires within { text.start + length text.bytes.now ≤ 2 ^ 60 }
    ensures printed { OnOk result ((members : List Member) → A.keeps kept.old members
        → out.new.items
        ≡ out.old.items ++ printed_with A.Refusal.text (A.lines members) variant
        (as_text text.entry)) }
    ensures refused { IfOk result (λ refused. refused ≡ is_refused variant (as_text text.entry)) }
    ensures kept { OnOk result ((members : List Member) → A.keeps kept.old members
        → A.keeps kept.new (members
        ++ if_accepted text.entry.number (reading_of variant text.entry.bytes.now))) }
{
    match read_heading(variant, text.bytes) {
        Err(fault) => refuse::<A::Refusal>(text, None, fault, out),
        Ok((named, heading, body)) => {
            let headed = Headed {
                text,
                heading,
                body,
            };
            match named {
                Variant::FreeCell => take_headed::<A, FreeCell>(alloc, kept, headed, out),
                Variant::BakersGame => take_headed::<A, BakersGame>(alloc, kept, headed, out),
                Variant::EightOff => take_headed::<A, EightOff>(alloc, kept, headed, out),
            }
        }
    }
}

// Takes a record whose header was read, by what comes after that.
fn take_headed<A: Command, R: AnyGame>(
    alloc: Global,
    kept: &mut A::Kept,
    headed: Headed<'_>,
    out: &mut Vec<u8>,
) -> Result<bool, AllocError>
    requires body { headed.body.now ≡ after_header headed.text.bytes.now }
    requires shorter { length headed.body.now ≤ length headed.text.bytes.now }
    requires within { headed.text.start + length headed.text.bytes.now ≤ 2 ^ 60 }
    ensures printed { OnOk result ((members : List Member) → A.keeps kept.old members
        → out.new.items ≡ out.old.items ++ printed_or A.Refusal.text (A.lines members)
        (as_text headed.entry.text)
        (reading_after (heading_seen R.VARIANT headed.entry.heading)
        headed.entry.text.bytes.now)) }
    ensures refused { IfOk result (λ refused. refused
        ≡ refuses (reading_after (heading_seen R.VARIANT headed.entry.heading)
        headed.entry.text.bytes.now)) }
    ensures kept { OnOk result ((members : List Member) → A.keeps kept.old members
        → A.keeps kept.new (members ++ if_accepted headed.entry.text.number
        (reading_after (heading_seen R.VARIANT headed.entry.heading)
        headed.entry.text.bytes.now))) }
{
    let Headed {
        text,
        heading,
        body,
    } = headed;
    match read_contents::<R>(alloc, text.bytes.len() - body.len(), body) {
        Ok(contents) => {
            let accepted = Accepted {
                number: text.number,
                heading,
                contents,
            };
            A::accept::<R>(alloc, kept, accepted, out)?;
            Ok(false)
        }
        Err(Unread::Fault(fault)) => refuse::<A::Refusal>(text, heading.name, fault, out),
        Err(Unread::Memory) => Err(AllocError),
    }
}

// Prints that a record is refused.
fn refuse<P: PrintsRefusal>(
    text: RecordText<'_>,
    name: Option<&[u8]>,
    fault: RecordFault,
    out: &mut Vec<u8>,
) -> Result<bool, AllocError>
    requires small { fault.place ≤ 2 ^ 61 }
    requires within { text.start + length text.bytes.now ≤ 2 ^ 60 }
    ensures printed { OnOk result (out.new.items ≡ out.old.items
        ++ P.text (as_text text.entry) (option_map (λ name. name.now) name.entry) fault) }
    ensures refused { IfOk result (λ refused. refused ≡ true) }
{
    P::print(text.number, text.start, name, fault, out)?;
    Ok(true)
}
