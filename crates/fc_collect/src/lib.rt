//! Collections of boards: runs of commands over readers and writers that they are lent.
#![tactic(auto)]

mod commands;
mod engine;
mod groups;
mod streams;

pub use commands::{
    CountFormat, Format, RunKind, run_canon, run_check, run_expand, run_group, run_share, run_show,
    run_table, run_unique, run_within,
};
pub(crate) use engine::{Accepted, Command, run_records, write_full};
pub use engine::{is_within_limits, write_bytes, write_text};
pub use fc_board::Variant;
pub(crate) use groups::{
    AnyBoard, AnyCanon, AnyGame, AnyPassage, ByGame, EachGroup, Gathered, Gathering, GroupKey,
    ShareLines, key_and_passage,
};
pub(crate) use streams::KeyHasher;
pub use streams::{
    Counted, Limits, MOST_BYTES, MOST_COUNTABLE, MOST_READS, MOST_RECORD_BYTES, MOST_RECORDS,
    RunConfig, RunFault, Seed, Summary, limits_are_defined,
};
