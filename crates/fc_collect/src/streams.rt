//! What a run is given: streams that are counted, and limits; and how it ends.

mod counted;
mod faults;
mod limits;

pub use counted::Counted;
pub use faults::{RunFault, Summary};
pub(crate) use limits::KeyHasher;
pub use limits::{
    Limits, MOST_BYTES, MOST_COUNTABLE, MOST_READS, MOST_RECORD_BYTES, MOST_RECORDS, RunConfig,
    Seed, limits_are_defined,
};
