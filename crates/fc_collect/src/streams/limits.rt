//! What a run is given beside its reader and its writer: the game of records without a header,
//! which part of a collection it reads, and what the hashes of keys begin with.

ghost use Rattle.std.specs.Prelude.{◌≡◌};
ghost use Rattle.fc_collect.specs.Limits.{begun_of, begun_with, largest, most_bytes, most_reads};
ghost use Rattle.fc_collect.specs.Limits.{most_record_bytes, most_records, standard};

use fc_board::Variant;
use std::alloc::Global;
use std::hash::{BuildHasher, FoldHasher, Hasher};

/// The most reads of a run, the one that finds the end included.
pub const MOST_READS: u32 = 1_048_576;

/// The most bytes of a collection.
pub const MOST_BYTES: usize = 16_777_216;

/// The most bytes of a record, and of what comes before the first header.
pub const MOST_RECORD_BYTES: usize = 65_536;

/// The most records of a collection.
pub const MOST_RECORDS: usize = 65_536;

/// The greatest number that a run counts up to: of records, bytes and reads.
pub const MOST_COUNTABLE: usize = 1 << 60;

/// The settings of a run.
#[derive(Clone, Copy)]
pub struct RunConfig {
    /// Where a run takes its memory.
    pub alloc: Global,
    /// The game of the records without a header.
    pub variant: Variant,
    /// How much is read, and where that is in its collection.
    pub limits: Limits,
    /// What the hashes of the keys of groups begin with.
    pub seed: Seed,
}

/// Where what a run reads begins and ends in a collection, and how many reads it makes. A record,
/// and what comes before the first header, has at most `MOST_RECORD_BYTES` bytes in any case.
#[derive(Clone, Copy, Debug, PartialEq, Eq, Hash)]
pub struct Limits {
    /// The number of the first record.
    pub number: usize,
    /// The place of the first byte.
    pub place: usize,
    /// The greatest number of a record.
    pub records: usize,
    /// The greatest place after the last byte.
    pub bytes: usize,
    /// The most reads of a run, the one that finds the end included.
    pub reads: u64,
}

impl Limits {
    /// Those of a run that is given no others: a whole collection.
    pub const STANDARD: Limits = Limits {
        number: 1,
        place: 0,
        records: MOST_RECORDS,
        bytes: MOST_BYTES,
        reads: MOST_READS as u64,
    };

    /// A whole collection, up to the largest numbers that a run can count to. No input is known
    /// that reaches one of them.
    pub const LARGEST: Limits = Limits {
        number: 1,
        place: 0,
        records: MOST_COUNTABLE,
        bytes: MOST_COUNTABLE,
        reads: MOST_COUNTABLE as u64,
    };
}

/// The limits here are those of the definitions.
pub fn limits_are_defined()
    ensures records { MOST_RECORDS ≡ most_records }
    ensures bytes { MOST_BYTES ≡ most_bytes }
    ensures reads { MOST_READS ≡ most_reads }
    ensures record_bytes { MOST_RECORD_BYTES ≡ most_record_bytes }
    ensures standard { Limits.STANDARD ≡ standard }
    ensures largest { Limits.LARGEST ≡ largest }
{}

/// A number that the hashes of a run's keys begin with.
///
/// Whoever knows it can make a collection whose keys have one hash, which takes a time that grows
/// with the square of their number. So a run of any size is handed one that is drawn by chance.
#[derive(Clone, Copy, Debug, PartialEq, Eq)]
pub struct Seed(pub u64);

impl Seed {
    /// That of a run that is given no other. Everybody knows it.
    pub const KNOWN: Seed = Seed(0);
}

/// Makes a hasher for each key, which begins with the seed.
#[derive(Clone, Copy)]
pub struct KeyHasher {
    begun: FoldHasher,
}

impl KeyHasher {
    /// Each hasher begins with this seed.
    pub fn new(seed: Seed) -> Self
        ensures { begun_of result ≡ begun_with seed.0 }
    {
        let mut begun = FoldHasher::default();
        begun.write_u64(seed.0);
        KeyHasher { begun }
    }
}

impl BuildHasher for KeyHasher {
    type Hasher = FoldHasher;

    ghost build_hasher = { λ hasher. hasher.begun };

    fn build_hasher(&self) -> FoldHasher {
        self.begun
    }
}
