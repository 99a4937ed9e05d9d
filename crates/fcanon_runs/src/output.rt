//! What a call writes, and its counts.
ghost use Rattle.std.specs.Prelude.{◌++◌, ◌<◌, ◌≡◌, ◌≤◌, ◌⊎◌, drop, length};

use crate::numbers::{DONE, NO_ROOM};
use fc_collect::Summary;

/// How much a call writes, of how many records.
#[repr(C)]
#[derive(Clone, Copy, PartialEq, Eq)]
pub struct Written {
    /// How many bytes the whole output has.
    pub length: usize,
    /// How many records the input has.
    pub records: usize,
    /// How many of them are refused.
    pub refused: usize,
}

impl Written {
    /// The counts of a run that wrote this text.
    pub(crate) fn of(text: &[u8], summary: Summary) -> Self
        ensures length { result.length ≡ length text.now }
        ensures records { result.records ≡ summary.records }
        ensures refused { result.refused ≡ summary.refused }
    {
        Written {
            length: text.len(),
            records: summary.records,
            refused: summary.refused,
        }
    }
}

/// Puts the text to the front of the output, if there is room for it, and says how long it is.
pub(crate) fn hand_over(
    text: &[u8],
    summary: Summary,
    output: &mut [u8],
    written: &mut Written,
) -> u32
    ensures done { result ≡ 0 → (length text.now ≤ length output.old)
        × (output.new ≡ text.now ++ drop (length text.now) output.old) }
    ensures no_room { result ≡ 9 → length output.old < length text.now }
    ensures no_other_answer { (result ≡ 0) ⊎ (result ≡ 9) }
    ensures kept { result ≡ 9 → output.new ≡ output.old }
    ensures length { written.new.length ≡ length text.now }
    ensures records { written.new.records ≡ summary.records }
    ensures refused { written.new.refused ≡ summary.refused }
{
    *written = Written::of(text, summary);
    if output.len() < text.len() {
        return NO_ROOM;
    }
    put_front(text, output);
    DONE
}

/// Puts the text to the front of the output.
pub(crate) fn put_front(text: &[u8], output: &mut [u8])
    requires { length text.now ≤ length output.old }
    ensures { output.new ≡ text.now ++ drop (length text.now) output.old }
{
    output[..text.len()].copy_from_slice(text);
}
