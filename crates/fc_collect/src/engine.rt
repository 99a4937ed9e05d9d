//! The engine: it reads a collection record by record, within limits and without a second try.
ghost use Rattle.std.specs.{List.{count_by}, Prelude.{◌++◌, ◌+◌, ◌<◌, ◌^◌, ◌↔◌, ◌≡◌, ◌≤◌, []}};
ghost use Rattle.std.specs.Prelude.{if◌then◌else◌, IsTrue, length, List};
ghost use Rattle.fc_record.specs.{Printing.{is_refused}, RecordTexts.{RecordText}};
ghost use Rattle.fc_collect.specs.{Closed.{refused_with}, inside.{ConsumesRead, ended, Finishes}};
ghost use Rattle.fc_collect.specs.inside.{IsAllowed, last_output, output_counts, printed_after};
ghost use Rattle.fc_collect.specs.{inside.{Remembers, text_at}, Limits.{AreCountable, standard}};
ghost use Rattle.fc_collect.specs.Promises.{IsWithinLimits, ReadsAsCounted, ResultFits, Transfers};
ghost use Rattle.fc_collect.specs.{Promises.{WritesAsCounted}, Records.{if_record, outputs_after}};
ghost use Rattle.fc_collect.specs.Streams.{bytes_of, GrowsBy, HasRoom, inner_of, stream};

use crate::{Counted, Limits, MOST_BYTES, MOST_RECORD_BYTES, RunConfig, RunFault, Summary};
use std::io::{Read, Write};

mod command;
mod progress;
mod search;
mod window;
mod writing;

pub use command::{Accepted, Command};
use progress::{Printed, Progress, are_small, take_complete_records, take_text};
use window::Window;
use writing::{FULL, write_out};
pub use writing::{write_bytes, write_full, write_text};

/// How many bytes of output have room from the start: twice as many as are pending before they are
/// written, and the lines of one short record.
const PENDING_ROOM: usize = 2 * FULL + 1_024;

/// Whether a run that is given no other limits takes a collection of these bytes.
pub fn is_within_limits(collection: &[u8]) -> bool
    ensures { IsTrue result ↔ IsWithinLimits standard collection.now }
{
    if collection.len() > MOST_BYTES {
        return false;
    }
    let progress = Progress {
        number: 1,
        start: 0,
        refused: 0,
    };
    are_small(Limits::STANDARD, progress, collection, 0)
}

/// Reads a collection to its end, and writes what is printed for its records before it reads on.
///
/// A run takes its buffers before it reads, counts what a read gave against the limits before it
/// prints any of it, writes once `FULL` bytes are pending and before each read, and flushes the
/// output at the end. A call that fails is not tried again, also where it was interrupted.
pub fn run_records<C: Command, Rd: Read, Wr: Write>(
    config: RunConfig,
    input: &mut Counted<Rd>,
    output: &mut Counted<Wr>,
) -> Result<Summary, RunFault>
    requires limits { AreCountable config.limits }
    requires input_low { HasRoom input.old }
    requires output_low { HasRoom output.old }
    ensures read_counted { ReadsAsCounted config.limits input.old input.new result }
    ensures write_counted { WritesAsCounted output.old output.new result }
    ensures wrote { Transfers
        (ResultFits config.limits (record {
          output = outputs_after (printed_after C.Refusal.text C.lines config.variant) [];
          ending = ended C.ending config.variant;
          refused = refused_with C.fails config.variant;
        }))
        (bytes_of
        (stream Rd.remaining input.old input.new) (stream Wr.contents output.old output.new)
        ) result }
{
    let mut window = Window::new(config.alloc)?;
    let pending = Vec::with_capacity(config.alloc, PENDING_ROOM)?;
    let mut printed = Printed {
        kept: C::start(config.alloc, config.seed),
        progress: Progress {
            number: config.limits.number,
            start: config.limits.place,
            refused: 0,
        },
        pending,
    };
    for _turn in 0..config.limits.reads {
        let searched = window.as_slice().len();
        let Ok(given) = window.fill(input) else {
            return Err(RunFault::Read);
        };
        if given == 0 {
            return finish::<C, Wr>(config, &mut printed, window.as_slice(), output);
        }
        consume::<C, Wr>(config, &mut printed, &mut window, searched, output)?;
    }
    Err(RunFault::ReaderNeverEnds)
}

// Prints and writes the records that a header ends, if what is held passes no limit.
fn consume<C: Command, Wr: Write>(
    config: RunConfig,
    printed: &mut Printed<C::Kept>,
    window: &mut Window,
    searched: usize,
    output: &mut Counted<Wr>,
) -> Result<(), RunFault>
    requires limits { AreCountable config.limits }
    requires low { HasRoom output.old }
    requires within { searched ≤ length window.old }
    requires few { printed.old.progress.start ≤ config.limits.bytes }
    requires fewer { printed.old.progress.refused < printed.old.progress.number }
    requires none { printed.old.pending.items ≡ [] }
    ensures counted { GrowsBy output.old output.new (output_counts result) }
    ensures bytes { (seen : List RecordText)
        → Remembers C.keeps config.variant printed.old.kept seen
        → ConsumesRead config.limits (outputs_after (printed_after C.Refusal.text C.lines config.variant) seen)
        (is_refused config.variant) (Remembers C.keeps config.variant printed.old.kept)
        (Remembers C.keeps config.variant printed.new.kept)
        printed.old.progress printed.new.progress
        window.old searched window.new printed.new.pending.items
        (Wr.contents (inner_of output.old)) (Wr.contents (inner_of output.new)) result }
{
    let held = window.as_slice();
    if !is_allowed(config.limits, printed.progress, held, searched) {
        return Err(RunFault::TooLarge);
    }
    let front = take_complete_records::<C, Wr>(config, printed, held, searched, output)?;
    write_out(&mut printed.pending, output)?;
    window.drop_front(front);
    Ok(())
}

// Whether what is held passes no limit of size.
fn is_allowed(limits: Limits, progress: Progress, held: &[u8], searched: usize) -> bool
    requires limits { AreCountable limits }
    requires within { searched ≤ length held.now }
    requires few { progress.start ≤ limits.bytes }
    ensures { IsTrue result ↔ IsAllowed limits progress held.now searched }
{
    if progress.start + held.len() > limits.bytes {
        return false;
    }
    are_small(limits, progress, held, searched)
}

// Prints and writes the last record and the end, and flushes the output.
fn finish<C: Command, Wr: Write>(
    config: RunConfig,
    printed: &mut Printed<C::Kept>,
    held: &[u8],
    output: &mut Counted<Wr>,
) -> Result<Summary, RunFault>
    requires low { HasRoom output.old }
    requires few { printed.old.progress.start + length held.now ≤ 2 ^ 60 }
    requires small { printed.old.progress.number ≤ 2 ^ 60 }
    requires later { config.limits.number ≤ printed.old.progress.number }
    requires fewer { printed.old.progress.refused < printed.old.progress.number }
    requires none { printed.old.pending.items ≡ [] }
    ensures counted { WritesAsCounted output.old output.new result }
    ensures bytes { (seen : List RecordText)
        → Remembers C.keeps config.variant printed.old.kept seen
        → printed.old.progress.number ≡ config.limits.number + length seen
        → printed.old.progress.refused ≡ count_by (is_refused config.variant) seen
        → Finishes config.limits.number
        (last_output (outputs_after (printed_after C.Refusal.text C.lines config.variant) seen)
        (ended C.ending config.variant) seen (text_at printed.old.progress held.now))
        (refused_with C.fails config.variant
        (seen ++ if_record (text_at printed.old.progress held.now)))
        printed.old.progress (text_at printed.old.progress held.now)
        (Wr.contents (inner_of output.old)) (Wr.contents (inner_of output.new)) result }
{
    take_text::<C, Wr>(config.alloc, config.variant, printed, held, output)?;
    let summary = printed.progress.summary(config.limits.number);
    let failed = C::end(
        config.alloc,
        &printed.kept,
        summary,
        &mut printed.pending,
        output,
    )?;
    write_text(output, printed.pending.as_slice())?;
    Ok(with_failed(summary, failed))
}

// The counts, with one more that is refused where all records failed together.
fn with_failed(summary: Summary, failed: bool) -> Summary
    requires few { summary.refused ≤ 2 ^ 61 }
    ensures records { result.records ≡ summary.records }
    ensures refused { result.refused
        ≡ (if failed then summary.refused + 1 else summary.refused) }
{
    Summary {
        records: summary.records,
        refused: summary.refused + usize::from(failed),
    }
}
