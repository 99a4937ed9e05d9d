//! Eight columns of cards, end to end in one array.
ghost use Rattle.std.specs.{List.{flat_map}, Prelude.{◌*◌, ◌++◌, ◌+◌, ◌-◌, ◌<◌, ◌==◌, ◌∷◌, ◌≡◌}};
ghost use Rattle.std.specs.Prelude.{◌≤◌, [], All, count_by, if◌then◌else◌, length, map, nat_le};
ghost use Rattle.std.specs.Prelude.{set, slice_index, slice_index_or, slice_range, take, ℕ};
ghost use Rattle.fc_board.specs.inside.{AreBounds, AreIn, AreOut, AscendTo, columns_between};
ghost use Rattle.fc_board.specs.inside.{columns_from, lowered, raised, size_of};

use arrayvec::ArrayVec;
use fc_card::Card;
use std::marker::Model;
use std::simd::prelude::*;

/// Eight columns, of 52 cards in all at most. Contracts see the list of the columns.
///
/// They lie end to end, so that a board is small and is copied at once.
#[derive(Drop)]
pub struct Columns {
    cards: [Card; 52],
    /// Where each column begins, and where the last one ends.
    bounds: [u8; 9],
}

impl Model for Columns {
    ghost use Rattle.std.specs.Prelude.{List, ℕ};
    ghost use Rattle.fc_board.specs.inside.{AreBounds, columns_between};

    ghost Value = { List (List ℕ) };

    ghost view = { λ columns. columns_between columns.cards columns.bounds };

    ghost invariant = { λ columns. AreBounds columns.bounds 52 };
}

impl Columns {
    /// These columns.
    pub fn of(columns: &[ArrayVec<Card, 52>; 8]) -> Columns
        requires { length (flat_map (λ column. column.items) columns.now) ≤ 52 }
        ensures { result ≡ map (λ column. column.items) columns.now }
    {
        let mut cards = [Card::default(); 52];
        let mut ends = [0; 8];
        let mut count = 0;
        for (i, column) in columns.iter().enumerate() {
            count = lay(&mut cards, count, column.as_slice());
            ends[i] = count as u8;
        }
        Columns::from_ends(cards, ends)
    }

    /// The columns that lie end to end among these cards, each up to its end.
    pub fn from_ends(cards: [Card; 52], ends: [u8; 8]) -> Columns
        requires { AscendTo 0 ends 52 }
        ensures { result ≡ columns_from 0 cards ends }
    {
        Columns {
            cards,
            bounds: after_zero(ends),
        }
    }

    /// The cards of the column.
    pub fn column(&self, i: usize) -> &[Card]
        requires { i < 8 }
        ensures value { result.now ≡ slice_index_or self.now i [] }
        ensures at_most_a_deck { length result.now ≤ 52 }
    {
        column_at(&self.cards, &self.bounds, i)
    }

    /// The cards end to end, and where each column begins among them, and where the last one ends.
    pub fn laid(&self) -> (&[Card; 52], &[u8; 9])
        ensures columns { columns_between result.0.now result.1.now ≡ self.now }
        ensures bounds { AreBounds result.1.now 52 }
    {
        (&self.cards, &self.bounds)
    }

    /// The same columns once more.
    pub fn copy(&self) -> Columns
        ensures { result ≡ self.now }
    {
        Columns {
            cards: self.cards,
            bounds: self.bounds,
        }
    }

    /// How many columns have no card.
    pub fn count_empty(&self) -> usize
        requires { length self.now ≡ 8 }
        ensures { result ≡ count_by (λ column. length column == 0) self.now }
    {
        let mut count = 0;
        for i in 0..8 {
            if self.column(i).is_empty() {
                count += 1;
            }
        }
        count
    }

    /// Takes so many last cards off the column.
    pub fn take_off(&mut self, i: usize, count: usize)
        requires inside { i < 8 }
        requires there { count ≤ length (slice_index_or self.old i []) }
        ensures { self.new
            ≡ set self.old i (take (length (slice_index_or self.old i []) - count)
            (slice_index_or self.old i [])) }
    {
        let end = usize::from(self.bounds[i + 1]);
        let last = usize::from(self.bounds[8]);
        close(&mut self.cards, end, last, count);
        lower(&mut self.bounds, i, count as u8);
    }

    /// Puts the cards at the end of the column.
    pub fn put_on(&mut self, i: usize, cards: &[Card])
        requires inside { i < 8 }
        requires room { size_of self.old + length cards.now ≤ 52 }
        ensures { self.new ≡ set self.old i (slice_index_or self.old i [] ++ cards.now) }
    {
        let end = usize::from(self.bounds[i + 1]);
        let last = usize::from(self.bounds[8]);
        open(&mut self.cards, end, last, cards);
        raise(&mut self.bounds, i, cards.len() as u8);
    }
}

/// The cards from the bound of this column to the next one.
fn column_at<'a>(cards: &'a [Card], bounds: &[u8; 9], i: usize) -> &'a [Card]
    requires place { i < 8 }
    requires deck { length cards.now ≡ 52 }
    requires ascend { AreBounds bounds.now 52 }
    ensures value { result.now ≡ slice_range cards.now
        (slice_index bounds.now i) (slice_index bounds.now (i + 1)) }
    ensures at_most_a_deck { length result.now ≤ 52 }
    ensures nine { length bounds.now ≡ 9 }
{
    let start = usize::from(bounds[i]);
    let end = usize::from(bounds[i + 1]);
    &cards[start..end]
}

/// The ends after a 0.
fn after_zero(ends: [u8; 8]) -> [u8; 9]
    ensures { result ≡ 0 ∷ ends }
{
    let [a, b, c, d, e, f, g, h] = ends;
    [0, a, b, c, d, e, f, g, h]
}

/// Lays the cards from this place on, and returns where they end.
fn lay(cards: &mut [Card; 52], start: usize, column: &[Card]) -> usize
    requires { start + length column.now ≤ 52 }
    ensures end { result ≡ start + length column.now }
    ensures size { length cards.new ≡ 52 }
    ensures laid { take result cards.new ≡ take start cards.old ++ column.now }
{
    let end = start + column.len();
    let all = &mut cards[..];
    all[start..end].copy_from_slice(column);
    end
}

/// Takes so many cards before this place out: those from it on, up to the last, move on.
fn close(cards: &mut [Card; 52], end: usize, last: usize, count: usize)
    requires { (count ≤ end) × (end ≤ last) × (last ≤ 52) }
    ensures { AreOut cards.old cards.new end count last }
{
    let at = move_down::<32>(cards, end, last, count);
    let at = move_down::<16>(cards, at, last, count);
    let at = move_down::<8>(cards, at, last, count);
    let at = move_down::<4>(cards, at, last, count);
    let at = move_down::<2>(cards, at, last, count);
    move_down::<1>(cards, at, last, count);
}

/// Moves `K` cards down if so many are there from this place on, and returns where the rest begins.
/// They are read whole before they are written, and their number is fixed, so no loop is needed.
fn move_down<const K: usize>(cards: &mut [Card; 52], at: usize, last: usize, count: usize) -> usize
    requires { (count ≤ at) × (at ≤ last) × (last ≤ 52) × (last < at + 2 * K) }
    ensures next { (at ≤ result) × (result ≤ last) × (last < result + K) }
    ensures moved { AreOut cards.old cards.new at count result }
    ensures rest { (k : ℕ) → result ≤ k → slice_index cards.new k ≡ slice_index cards.old k }
{
    if last - at < K {
        return at;
    }
    let next = at + K;
    let mut piece = [Card::default(); K];
    let held = &mut piece[..];
    let all = &mut cards[..];
    held.copy_from_slice(&all[at..next]);
    all[at - count..next - count].copy_from_slice(held);
    next
}

/// Puts the cards at this place: those from it on, up to the last, move on.
fn open(cards: &mut [Card; 52], end: usize, last: usize, more: &[Card])
    requires { (end ≤ last) × (last + length more.now ≤ 52) }
    ensures { AreIn cards.old cards.new end last more.now }
{
    let count = more.len();
    let at = move_up::<32>(cards, end, last, count);
    let at = move_up::<16>(cards, end, at, count);
    let at = move_up::<8>(cards, end, at, count);
    let at = move_up::<4>(cards, end, at, count);
    let at = move_up::<2>(cards, end, at, count);
    move_up::<1>(cards, end, at, count);
    put_at(cards, end, more);
}

/// Moves `K` cards up if so many are between these places, and returns where they were first.
fn move_up<const K: usize>(cards: &mut [Card; 52], end: usize, at: usize, count: usize) -> usize
    requires { (end ≤ at) × (at + count ≤ 52) × (at < end + 2 * K) }
    ensures next { (end ≤ result) × (result ≤ at) × (result < end + K) }
    ensures size { length cards.new ≡ 52 }
    ensures moved { (k : ℕ) → result ≤ k → k < at
        → slice_index cards.new (k + count) ≡ slice_index cards.old k }
    ensures before { (k : ℕ) → k < result + count
        → slice_index cards.new k ≡ slice_index cards.old k }
    ensures after { (k : ℕ) → at + count ≤ k
        → slice_index cards.new k ≡ slice_index cards.old k }
{
    if at - end < K {
        return at;
    }
    let start = at - K;
    let mut piece = [Card::default(); K];
    let held = &mut piece[..];
    let all = &mut cards[..];
    held.copy_from_slice(&all[start..at]);
    all[start + count..at + count].copy_from_slice(held);
    start
}

/// Puts the cards at this place, over those that are there.
fn put_at(cards: &mut [Card; 52], at: usize, more: &[Card])
    requires { at + length more.now ≤ 52 }
    ensures there { AreIn cards.old cards.new at at more.now }
    ensures after { (k : ℕ) → at + length more.now ≤ k
        → slice_index cards.new k ≡ slice_index cards.old k }
{
    let next = at + more.len();
    let all = &mut cards[..];
    all[at..next].copy_from_slice(more);
}

/// Lowers the ends of this column and of those after it.
fn lower(bounds: &mut [u8; 9], column: usize, count: u8)
    requires { column < 8 }
    ensures { bounds.new ≡ lowered count (column + 1) bounds.old }
{
    let all = &mut bounds[..];
    let ends = u8x8::from_slice(&all[1..]);
    let moved = ends.saturating_sub(from_column(column, count));
    moved.copy_to_slice(&mut all[1..]);
}

/// Raises the ends of this column and of those after it.
fn raise(bounds: &mut [u8; 9], column: usize, count: u8)
    requires column { column < 8 }
    requires room { All (λ bound. bound + count < 256) bounds.old }
    ensures { bounds.new ≡ raised count (column + 1) bounds.old }
{
    let all = &mut bounds[..];
    let ends = u8x8::from_slice(&all[1..]);
    let moved = ends + from_column(column, count);
    moved.copy_to_slice(&mut all[1..]);
}

/// The count for this column and for those after it, and 0 for those before it.
fn from_column(column: usize, count: u8) -> u8x8
    requires { column < 8 }
    ensures eight { length result ≡ 8 }
    ensures each { (place : ℕ) → place < 8
        → slice_index result place ≡ (if nat_le column place then count else 0) }
{
    u8x8::from_array([0, 1, 2, 3, 4, 5, 6, 7])
        .simd_ge(u8x8::splat(column as u8))
        .select(u8x8::splat(count), u8x8::splat(0))
}
