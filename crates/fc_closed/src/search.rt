//! Keys found among keys in ascending order, by halves.
ghost use Rattle.std.specs.{Int.{from_be_bytes, w32, w64}, List.{Contains}, Prelude.{◌<◌, ◌↔◌}};
ghost use Rattle.std.specs.Prelude.{◌≡◌, ◌≤◌, All, IsFalse, IsTrue, length, slice_index_or, ℕ};
ghost use Rattle.{fc_bytes.specs.{all_bytes}, fc_text.specs.Bytes.{IsLess}};
ghost use Rattle.fc_bytes.specs.declared.board.BoardBytes.{BoardBytes as Bytes};
ghost use Rattle.fc_closed.specs.{IsAbove};

use fc_bytes::BoardBytes;

/// Whether the key is found among the keys.
pub(crate) fn is_among(key: &BoardBytes, keys: &[BoardBytes]) -> bool
    ensures found { IsTrue result → Contains keys.now key.now }
    ensures absent { IsFalse result
        → ((place : ℕ) → place < length keys.now → IsAbove keys.now place)
        → ¬ Contains keys.now key.now }
{
    let at = first_place(key, keys);
    at < keys.len() && is_same(&keys[at], key)
}

/// Whether the two are one.
pub(crate) fn is_same(one: &BoardBytes, other: &BoardBytes) -> bool
    ensures { IsTrue result ↔ one.now ≡ other.now }
{
    *one == *other
}

/// The place of the first key that is not less than this one, where the keys ascend.
fn first_place(key: &BoardBytes, keys: &[BoardBytes]) -> usize
    ensures within { result ≤ length keys.now }
    ensures before { ((place : ℕ) → place < length keys.now → IsAbove keys.now place)
        → (k : ℕ) (default : Bytes) → k < result
        → IsLess (all_bytes (slice_index_or keys.now k default)) (all_bytes key.now) }
    ensures after { ((place : ℕ) → place < length keys.now → IsAbove keys.now place)
        → (k : ℕ) (default : Bytes) → result ≤ k → k < length keys.now
        → ¬ IsLess (all_bytes (slice_index_or keys.now k default)) (all_bytes key.now) }
{
    let mut first = 0;
    let mut end = keys.len();
    while first < end {
        let middle = first + (end - first) / 2;
        if is_less(&keys[middle], key) {
            first = middle + 1;
        } else {
            end = middle;
        }
    }
    first
}

/// Whether the 72 bytes of the one are less than those of the other. Parts are compared as numbers.
#[inline(always)]
pub(crate) fn is_less(one: &BoardBytes, other: &BoardBytes) -> bool
    ensures { IsTrue result ↔ IsLess (all_bytes one.now) (all_bytes other.now) }
{
    let heights = number_of_four(&one.heights);
    let other_heights = number_of_four(&other.heights);
    if heights != other_heights {
        return heights < other_heights;
    }
    let cells = number_of_eight(&one.cells);
    let other_cells = number_of_eight(&other.cells);
    if cells != other_cells {
        return cells < other_cells;
    }
    let lengths = number_of_eight(&one.lengths);
    let other_lengths = number_of_eight(&other.lengths);
    if lengths != other_lengths {
        return lengths < other_lengths;
    }
    one.cards.cmp(&other.cards).is_lt()
}

/// The number with these bytes, of which the first is the highest: numbers are ordered as their
/// bytes are.
#[inline(always)]
fn number_of_four(bytes: &[u8; 4]) -> u32
    ensures number { result ≡ from_be_bytes w32 bytes.now }
    ensures size { length bytes.now ≡ 4 }
    ensures bytes { All (λ byte. byte < 256) bytes.now }
{
    u32::from_be_bytes(*bytes)
}

#[inline(always)]
fn number_of_eight(bytes: &[u8; 8]) -> u64
    ensures number { result ≡ from_be_bytes w64 bytes.now }
    ensures size { length bytes.now ≡ 8 }
    ensures bytes { All (λ byte. byte < 256) bytes.now }
{
    u64::from_be_bytes(*bytes)
}
