//! Printing of the records that a header ends.
ghost use Rattle.std.specs.Prelude.{◌++◌, ◌+◌, ◌<◌, ◌^◌, ◌↔◌, ◌≡◌, ◌≤◌, All, drop, IfErr, IfOk};
ghost use Rattle.std.specs.Prelude.{IsTrue, length, List, OnOk, true};
ghost use Rattle.fc_record.specs.{Printing.{is_refused}, RecordTexts.{RecordText as Text}};
ghost use Rattle.fc_collect.specs.inside.{begun_in, cut_in, output_counts, Passes, printed_after};
ghost use Rattle.fc_collect.specs.inside.{records_in, Remembers, SendingFits, text_at, Treats};
ghost use Rattle.fc_collect.specs.{Limits.{AreCountable}, Promises.{IsSmall}};
ghost use Rattle.fc_collect.specs.Records.{has_content, if_record, outputs_after};
ghost use Rattle.fc_collect.specs.Streams.{GrowsBy, HasRoom, inner_of};
ghost use Rattle.fc_collect.specs.declared.streams.faults.RunFault.TheVariants.{Memory};

use crate::engine::command::{Command, take_record};
use crate::engine::search::{has_content, next_header};
use crate::engine::write_full;
use crate::{Counted, Limits, MOST_RECORD_BYTES, RunConfig, RunFault, Summary};
use fc_board::Variant;
use fc_record::RecordText;
use std::alloc::Global;
use std::io::Write;

/// How far a run has come in a collection.
#[derive(Clone, Copy)]
pub(crate) struct Progress {
    /// The number that the next record has.
    pub number: usize,
    /// The offset in bytes of what was not taken up yet.
    pub start: usize,
    /// How many records were refused.
    pub refused: usize,
}

impl Progress {
    /// How many records were taken up, the first of which had this number, and how many refused.
    pub(crate) fn summary(self, first: usize) -> Summary
        requires later { first ≤ self.number }
        ensures records { result.records + first ≡ self.number }
        ensures refused { result.refused ≡ self.refused }
    {
        Summary {
            records: self.number - first,
            refused: self.refused,
        }
    }
}

/// What a run has printed, and how far it has come.
#[derive(Drop)]
pub(crate) struct Printed<K> {
    /// What the command keeps of the records so far.
    pub kept: K,
    pub progress: Progress,
    /// What is printed and not yet written.
    pub pending: Vec<u8>,
}

/// Whether each text of what is held is small enough for a record, the last one too.
pub(crate) fn are_small(limits: Limits, progress: Progress, held: &[u8], searched: usize) -> bool
    requires limits { AreCountable limits }
    requires within { searched ≤ length held.now }
    requires few { progress.start + length held.now ≤ limits.bytes }
    ensures { IsTrue result ↔ All (IsSmall limits) (cut_in progress held.now searched) }
{
    if are_few(limits, progress, held, searched) {
        return true;
    }
    are_each_small(limits, progress, held, searched)
}

/// Whether so few bytes are held that no text of them can be too large, nor a record too many: a
/// header takes two bytes at least, with the line feed before it.
fn are_few(limits: Limits, progress: Progress, held: &[u8], searched: usize) -> bool
    requires limits { AreCountable limits }
    requires within { searched ≤ length held.now }
    ensures { result ≡ true → All (IsSmall limits) (cut_in progress held.now searched) }
{
    if progress.number >= limits.records || held.len() / 2 >= limits.records - progress.number {
        return false;
    }
    match next_header(held, searched) {
        Some(len) => len <= MOST_RECORD_BYTES && held.len() - len <= MOST_RECORD_BYTES,
        None => held.len() <= MOST_RECORD_BYTES,
    }
}

/// The same, text by text.
fn are_each_small(limits: Limits, progress: Progress, held: &[u8], searched: usize) -> bool
    requires limits { AreCountable limits }
    requires within { searched ≤ length held.now }
    requires few { progress.start + length held.now ≤ limits.bytes }
    ensures { IsTrue result ↔ All (IsSmall limits) (cut_in progress held.now searched) }
{
    let mut at = progress;
    let mut front = 0;
    let mut from = searched;
    while let Some(len) = next_header(&held[front..], from) {
        let text = &held[front..front + len];
        if !is_small(limits, at, text) {
            return false;
        }
        pass(&mut at, text);
        front += len;
        from = 1;
    }
    is_small(limits, at, &held[front..])
}

fn is_small(limits: Limits, progress: Progress, bytes: &[u8]) -> bool
    ensures { IsTrue result ↔ IsSmall limits (text_at progress bytes.now) }
{
    bytes.len() <= MOST_RECORD_BYTES && progress.number <= limits.records
}

// Goes on to what comes after these bytes.
fn pass(progress: &mut Progress, bytes: &[u8])
    requires numbers { progress.old.number ≤ 2 ^ 60 }
    requires places { progress.old.start + length bytes.now ≤ 2 ^ 60 }
    ensures passed { Passes progress.old progress.new bytes.now }
    ensures refused { progress.new.refused ≡ progress.old.refused }
{
    progress.number += usize::from(has_content(bytes));
    progress.start += bytes.len();
}

/// Prints each record that a header ends, and returns how many bytes were taken up.
///
/// What is printed is written once enough of it is pending.
pub(crate) fn take_complete_records<C: Command, Wr: Write>(
    config: RunConfig,
    printed: &mut Printed<C::Kept>,
    held: &[u8],
    searched: usize,
    output: &mut Counted<Wr>,
) -> Result<usize, RunFault>
    requires limits { AreCountable config.limits }
    requires low { HasRoom output.old }
    requires within { searched ≤ length held.now }
    requires few { printed.old.progress.start + length held.now ≤ config.limits.bytes }
    requires small { All (IsSmall config.limits) (cut_in printed.old.progress held.now searched) }
    requires fewer { printed.old.progress.refused < printed.old.progress.number }
    ensures counted { GrowsBy output.old output.new (output_counts result) }
    ensures sent { (seen : List Text) → Remembers C.keeps config.variant printed.old.kept seen
        → SendingFits (outputs_after (printed_after C.Refusal.text C.lines config.variant) seen
        (records_in printed.old.progress held.now searched))
        printed.old.pending.items printed.new.pending.items
        (Wr.contents (inner_of output.old)) (Wr.contents (inner_of output.new)) result }
    ensures printed { OnOk result (Treats (is_refused config.variant)
        (Remembers C.keeps config.variant printed.old.kept)
        (Remembers C.keeps config.variant printed.new.kept)
        printed.old.progress printed.new.progress
        (records_in printed.old.progress held.now searched)) }
    ensures fewer { OnOk result (printed.new.progress.refused < printed.new.progress.number) }
    ensures within { IfOk result (λ front. front ≤ length held.now) }
    ensures begun { IfOk result (λ front. begun_in printed.old.progress held.now searched
        ≡ text_at printed.new.progress (drop front held.now)) }
{
    let mut front = 0;
    let mut from = searched;
    while let Some(len) = next_header(&held[front..], from) {
        let text = &held[front..front + len];
        take_text::<C, Wr>(config.alloc, config.variant, printed, text, output)?;
        front += len;
        from = 1;
    }
    Ok(front)
}

/// Prints these bytes if they are a record, and goes on after them.
pub(crate) fn take_text<C: Command, Wr: Write>(
    alloc: Global,
    variant: Variant,
    printed: &mut Printed<C::Kept>,
    bytes: &[u8],
    output: &mut Counted<Wr>,
) -> Result<(), RunFault>
    requires low { HasRoom output.old }
    requires few { printed.old.progress.start + length bytes.now ≤ 2 ^ 60 }
    requires small { printed.old.progress.number ≤ 2 ^ 60 }
    requires fewer { printed.old.progress.refused < printed.old.progress.number }
    ensures counted { GrowsBy output.old output.new (output_counts result) }
    ensures sent { (seen : List Text) → Remembers C.keeps variant printed.old.kept seen
        → SendingFits (outputs_after (printed_after C.Refusal.text C.lines variant) seen
        (if_record (text_at printed.old.progress bytes.now)))
        printed.old.pending.items printed.new.pending.items
        (Wr.contents (inner_of output.old)) (Wr.contents (inner_of output.new)) result }
    ensures printed { OnOk result (Treats (is_refused variant)
        (Remembers C.keeps variant printed.old.kept) (Remembers C.keeps variant printed.new.kept)
        printed.old.progress printed.new.progress
        (if_record (text_at printed.old.progress bytes.now))) }
    ensures fewer { OnOk result (printed.new.progress.refused < printed.new.progress.number) }
    ensures passed { OnOk result (Passes printed.old.progress printed.new.progress bytes.now) }
{
    take_record_text::<C>(alloc, variant, printed, bytes)?;
    pass(&mut printed.progress, bytes);
    write_full(&mut printed.pending, output)
}

// Prints these bytes if they are a record, and counts it if it is refused.
fn take_record_text<C: Command>(
    alloc: Global,
    variant: Variant,
    printed: &mut Printed<C::Kept>,
    bytes: &[u8],
) -> Result<(), RunFault>
    requires few { printed.old.progress.start + length bytes.now ≤ 2 ^ 60 }
    requires small { printed.old.progress.number ≤ 2 ^ 60 }
    requires fewer { printed.old.progress.refused < printed.old.progress.number }
    ensures printed { OnOk result ((seen : List Text)
        → Remembers C.keeps variant printed.old.kept seen
        → printed.new.pending.items ≡ printed.old.pending.items
        ++ outputs_after (printed_after C.Refusal.text C.lines variant) seen
        (if_record (text_at printed.old.progress bytes.now))) }
    ensures counted { OnOk result (Treats (is_refused variant)
        (Remembers C.keeps variant printed.old.kept) (Remembers C.keeps variant printed.new.kept)
        printed.old.progress printed.new.progress
        (if_record (text_at printed.old.progress bytes.now))) }
    ensures few { OnOk result (printed.new.progress.refused
        ≤ printed.old.progress.refused
        + length (if_record (text_at printed.old.progress bytes.now))) }
    ensures number { OnOk result (printed.new.progress.number ≡ printed.old.progress.number) }
    ensures start { OnOk result (printed.new.progress.start ≡ printed.old.progress.start) }
    ensures fault { IfErr result (λ fault. fault ≡ Memory) }
{
    if !has_content(bytes) {
        return Ok(());
    }
    let text = RecordText {
        number: printed.progress.number,
        start: printed.progress.start,
        bytes,
    };
    let kept = &mut printed.kept;
    let refused = take_record::<C>(alloc, variant, kept, text, &mut printed.pending)?;
    printed.progress.refused += usize::from(refused);
    Ok(())
}
