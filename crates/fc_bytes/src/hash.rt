//! A hash of a board's bytes.
ghost use Rattle.std.specs.Prelude.{◌++◌, ◌≡◌};
ghost use Rattle.fc_bytes.specs.{all_bytes, board_hash};

use crate::BoardBytes;
use fc_text::put;
use std::hash::{DefaultHasher, Hasher};

impl BoardBytes {
    /// A hash of the board in 16 bytes, the same on every machine and in every later version.
    pub fn board_hash(&self) -> [u8; 16]
        ensures { result ≡ board_hash self.now }
    {
        let mut hasher = DefaultHasher::new();
        hasher.write(&self.all_bytes());
        let first = hasher.finish();
        hasher.write(&[1]);
        concat(first.to_le_bytes(), hasher.finish().to_le_bytes())
    }

    /// The 72 bytes, as they are in memory.
    fn all_bytes(&self) -> [u8; 72]
        ensures { result ≡ all_bytes self.now }
    {
        let mut bytes = [0; 72];
        let end = put(&mut bytes, 0, &self.heights);
        let end = put(&mut bytes, end, &self.cells);
        let end = put(&mut bytes, end, &self.lengths);
        put(&mut bytes, end, &self.cards);
        bytes
    }
}

pub(crate) fn concat(first: [u8; 8], next: [u8; 8]) -> [u8; 16]
    ensures { result ≡ first ++ next }
{
    let [a, b, c, d, e, f, g, h] = first;
    let [i, j, k, l, m, n, o, p] = next;
    [a, b, c, d, e, f, g, h, i, j, k, l, m, n, o, p]
}
