//! What a command line asks for, or why it asks for nothing.

use fc_collect::{CountFormat, Format, Limits, RunKind, Variant};
use fc_import::{LinesAre, Noted};

/// What a command does: one task for each command, by its name.
#[derive(Clone, Copy, PartialEq, Eq)]
pub enum Task {
    Show,
    Canon,
    Check,
    Group,
    Share,
    Expand,
    Unique,
    Table,
    Same,
    Symmetries,
    Count,
    Closed,
    /// Makes a collection of what other programs print.
    Import,
    /// Prints the board of a deal of Microsoft's, by its number. It reads nothing.
    Deal,
}

/// All tasks, in the order of their commands in the help.
pub(crate) static TASKS: [Task; 14] = [
    Task::Show,
    Task::Canon,
    Task::Check,
    Task::Group,
    Task::Share,
    Task::Expand,
    Task::Unique,
    Task::Table,
    Task::Same,
    Task::Symmetries,
    Task::Count,
    Task::Closed,
    Task::Import,
    Task::Deal,
];

impl Task {
    ghost use Rattle.std.specs.Prelude.{◌≡◌};
    ghost use Rattle.fc_tool.specs.{command_of, run_of_task, task_named};

    /// The task of the command with this name.
    pub(crate) fn named(name: &str) -> Option<Task>
        ensures { result ≡ task_named name.now }
    {
        for at in 0..TASKS.len() {
            if name == TASKS[at].name() {
                return Some(TASKS[at]);
            }
        }
        None
    }

    /// The name of its command.
    pub(crate) fn name<'a>(self) -> &'a str
        ensures { result.now ≡ command_of self }
    {
        match self {
            Task::Show => "show",
            Task::Canon => "canon",
            Task::Check => "check",
            Task::Group => "group",
            Task::Share => "share",
            Task::Expand => "expand",
            Task::Unique => "unique",
            Task::Table => "table",
            Task::Same => "same",
            Task::Symmetries => "symmetries",
            Task::Count => "count",
            Task::Closed => "closed",
            Task::Import => "import",
            Task::Deal => "deal",
        }
    }

    /// The run over a collection that the task is, a table in this format; `import` and `deal` are
    /// none.
    pub(crate) fn run(self, format: Format) -> Option<RunKind>
        ensures { result ≡ run_of_task format self }
    {
        match self {
            Task::Show => Some(RunKind::Show),
            Task::Canon => Some(RunKind::Canon),
            Task::Check => Some(RunKind::Check),
            Task::Group => Some(RunKind::Group),
            Task::Share => Some(RunKind::Share),
            Task::Expand => Some(RunKind::Expand),
            Task::Unique => Some(RunKind::Unique),
            Task::Table => Some(RunKind::Table(format)),
            Task::Same => Some(RunKind::Same),
            Task::Symmetries => Some(RunKind::Symmetries),
            Task::Count => Some(RunKind::Count(CountFormat::of(format))),
            Task::Closed => Some(RunKind::Closed(CountFormat::of(format))),
            Task::Import | Task::Deal => None,
        }
    }
}

/// A task, the game that it is for, the number of a deal where the task is `deal`, and what is
/// optional.
#[derive(Clone, Copy, PartialEq, Eq)]
pub struct Request {
    pub task: Task,
    pub variant: Variant,
    pub number: Option<u32>,
    pub options: Options,
}

/// The format of what a task writes, the limits of what it reads, and for `import` what lines of
/// cards are where they may be columns or rows, and what is noted.
#[derive(Clone, Copy, PartialEq, Eq)]
pub struct Options {
    pub format: Format,
    pub limits: Limits,
    pub lines_are: LinesAre,
    pub noted: Noted,
}

impl Options {
    ghost use Rattle.std.specs.Prelude.{◌≡◌};
    ghost use Rattle.fc_tool.specs.{plain_options};

    /// Those of a command that is given none.
    pub(crate) fn plain() -> Options
        ensures { result ≡ plain_options }
    {
        Options {
            format: Format::Lines,
            limits: Limits::STANDARD,
            lines_are: LinesAre::Unsaid,
            noted: Noted::Doubts,
        }
    }
}

/// What made the words give no request.
#[derive(Drop)]
pub enum WordsFault {
    /// There was no memory to build the command line or to read the words.
    Memory,
    /// The parser refused the words, or was asked for help or the version; its text says so.
    Parser(clap::Error),
}
