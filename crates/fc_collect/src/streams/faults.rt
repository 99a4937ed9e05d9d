//! What a run gives: how many records it took up, or why it gave up.
ghost use Rattle.std.specs.Prelude.{◌≡◌, ◌≤◌, length};
ghost use Rattle.fc_collect.specs.Limits.{fault_words};
ghost use Rattle.fc_collect.specs.declared.streams.faults.RunFault.TheVariants.{Memory};

use std::alloc::AllocError;
use thiserror::Error;

/// How many records a run took up, and how many of them it refused.
#[derive(Clone, Copy, Debug, PartialEq, Eq, Hash)]
pub struct Summary {
    pub records: usize,
    pub refused: usize,
}

/// What made a run give up.
#[derive(Clone, Copy, Debug, PartialEq, Eq, Error)]
#[error("{}", self.words())]
pub enum RunFault {
    /// A read of the input failed; it was not tried again.
    Read,
    /// A write or a flush of the output failed, or a write took no byte; it was not tried again.
    Write,
    /// There was no memory, for the buffers of a run or for what is printed.
    Memory,
    /// The input, the number of its records or one of them is larger than a run takes.
    TooLarge,
    /// The reader gave no end within the reads that a run makes.
    ReaderNeverEnds,
}

impl From<AllocError> for RunFault {
    ghost from_gives = { λ _ fault. fault ≡ Memory };

    fn from(_: AllocError) -> RunFault {
        RunFault::Memory
    }
}

impl RunFault {
    /// The words for the fault, which are its `Display`, and of the program's line on standard
    /// error.
    pub fn words(self) -> &'static str
        ensures words { result.now ≡ fault_words self }
        ensures short { length result.now ≤ 17 }
    {
        match self {
            RunFault::Read => "read fault",
            RunFault::Write => "write fault",
            RunFault::Memory => "out of memory",
            RunFault::TooLarge => "input too large",
            RunFault::ReaderNeverEnds => "reader never ends",
        }
    }
}
