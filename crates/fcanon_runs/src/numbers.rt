//! The numbers by which C knows games, tasks and formats, and those that calls answer.
ghost use Rattle.std.specs.Prelude.{◌<◌, ◌≡◌, ◌≤◌, IfSome, None};
ghost use Rattle.fcanon_runs.specs.{fault_answer, format_at, kind_at, lines_at};

use fc_collect::{CountFormat, Format, RunFault, RunKind};
use fc_import::LinesAre;

/// The call did what it says.
pub(crate) const DONE: u32 = 0;
/// No game has this number.
pub(crate) const NO_GAME: u32 = 1;
/// What would be written is more than there is room for.
pub(crate) const NO_ROOM: u32 = 9;
/// No task has this number.
pub(crate) const NO_TASK: u32 = 10;
/// No format has this number.
pub(crate) const NO_FORMAT: u32 = 11;
/// There is no memory.
const NO_MEMORY: u32 = 12;
/// The collection, the number of its records or one of them is larger than a run takes.
const TOO_LARGE: u32 = 13;
/// The input was not read to its end. No input is known that does this.
const NOT_READ: u32 = 14;

/// The kind of run of a task and a format by their numbers. Each task takes each format, also where
/// it has one alone.
pub(crate) fn kind_of(task: u32, format: u32) -> Option<RunKind>
    ensures some { IfSome result (λ kind. (format < 3) × (kind ≡ kind_at task format)) }
    ensures none { result ≡ None → task < 12 → 3 ≤ format }
{
    let format = format_of(format)?;
    match task {
        0 => Some(RunKind::Show),
        1 => Some(RunKind::Canon),
        2 => Some(RunKind::Check),
        3 => Some(RunKind::Group),
        4 => Some(RunKind::Share),
        5 => Some(RunKind::Expand),
        6 => Some(RunKind::Unique),
        7 => Some(RunKind::Table(format)),
        8 => Some(RunKind::Same),
        9 => Some(RunKind::Symmetries),
        10 => Some(RunKind::Count(CountFormat::of(format))),
        11 => Some(RunKind::Closed(CountFormat::of(format))),
        _ => None,
    }
}

/// The format of this number.
fn format_of(number: u32) -> Option<Format>
    ensures some { IfSome result (λ format. (number < 3) × (format ≡ format_at number)) }
    ensures none { result ≡ None → 3 ≤ number }
{
    match number {
        0 => Some(Format::Lines),
        1 => Some(Format::Header),
        2 => Some(Format::Json),
        _ => None,
    }
}

/// What lines of cards are by this number, where they may be columns or rows.
pub(crate) fn lines_of(number: u32) -> LinesAre
    ensures { result ≡ lines_at number }
{
    match number {
        1 => LinesAre::Columns,
        2 => LinesAre::Rows,
        _ => LinesAre::Unsaid,
    }
}

/// What is answered where a run gives up. A write into memory fails for want of it alone.
pub(crate) fn answer_to(fault: RunFault) -> u32
    ensures { result ≡ fault_answer fault }
{
    match fault {
        RunFault::Memory | RunFault::Write => NO_MEMORY,
        RunFault::TooLarge => TOO_LARGE,
        RunFault::Read | RunFault::ReaderNeverEnds => NOT_READ,
    }
}
