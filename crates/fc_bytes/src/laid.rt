//! The cards of columns that lie end to end, as bytes.
ghost use Rattle.std.specs.{List.{flat_map}, Prelude.{◌≡◌, ◌≤◌, All, if◌then◌else◌, IsTrue}};
ghost use Rattle.std.specs.Prelude.{length, List, map, take, ℕ};
ghost use Rattle.fc_card.specs.{IsCode, IsOrder, pick};
ghost use Rattle.fc_board.specs.inside.{AreBounds, columns_between};
ghost use Rattle.fc_bytes.specs.{inside.{AreInside, card_byte, pieces}, padded};

use crate::board::place_as_byte;
use fc_card::{Card, Order};
use fc_text::put;
use std::simd::prelude::*;

/// The bytes of the cards, and room after them, so that sixteen bytes can be copied from each.
#[inline(always)]
pub(crate) fn bytes_of_laid(cards: &[Card; 52]) -> [u8; 80]
    ensures bytes { take 52 result ≡ map card_byte cards.now }
    ensures codes { All IsCode result }
    ensures size { length result ≡ 80 }
{
    let mut bytes = [0; 80];
    for place in 0..52 {
        bytes[place] = cards[place].number() + 1;
    }
    bytes
}

/// The bytes before this place, and 0 from there on.
pub(crate) fn bytes_before(bytes: &[u8; 80], end: u8) -> [u8; 52]
    requires { end ≤ 52 }
    ensures { result ≡ padded 52 (take end bytes.now) }
{
    let mut before = [0; 52];
    for place in 0..52 {
        before[place] = kept(bytes[place], place_as_byte(place) < end);
    }
    before
}

fn kept(byte: u8, is_before: bool) -> u8
    ensures { result ≡ (if is_before then byte else 0) }
{
    if is_before { byte } else { 0 }
}

/// How many cards each column between these bounds has.
pub(crate) fn lengths_between(bounds: &[u8; 9]) -> [u8; 8]
    requires { AreBounds bounds.now 52 }
    ensures { (cards : List ℕ) → 52 ≤ length cards
        → result ≡ map length (columns_between cards bounds.now) }
{
    let all = &bounds[..];
    let lengths = u8x8::from_slice(&all[1..]) - u8x8::from_slice(all);
    lengths.to_array()
}

/// Where each column between these bounds begins.
fn starts_between(bounds: &[u8; 9]) -> [u8; 8]
    ensures { result ≡ take 8 bounds.now }
{
    let starts = u8x8::from_slice(&bounds[..]);
    starts.to_array()
}

/// The bytes in this order, all at once.
#[inline(always)]
fn in_order(bytes: &[u8; 8], order: &Order) -> [u8; 8]
    requires { length order.now ≡ 8 }
    ensures value { result ≡ pick bytes.now order.now }
    ensures order { IsOrder order.now }
{
    let [a, b, c, d, e, f, g, h] = *bytes;
    let table = u8x16::from_array([a, b, c, d, e, f, g, h, 0, 0, 0, 0, 0, 0, 0, 0]);
    let all = table.swizzle_dyn(places_of(order)).to_array();
    [
        all[0], all[1], all[2], all[3], all[4], all[5], all[6], all[7],
    ]
}

/// The places of the order, and 0 after them.
#[inline(always)]
fn places_of(order: &Order) -> u8x16
    requires { length order.now ≡ 8 }
    ensures lanes { result ≡ padded 16 order.now }
    ensures order { IsOrder order.now }
{
    let a = order.at(0) as u8;
    let b = order.at(1) as u8;
    let c = order.at(2) as u8;
    let d = order.at(3) as u8;
    let e = order.at(4) as u8;
    let f = order.at(5) as u8;
    let g = order.at(6) as u8;
    let h = order.at(7) as u8;
    u8x16::from_array([a, b, c, d, e, f, g, h, 0, 0, 0, 0, 0, 0, 0, 0])
}

/// Puts the columns between these bounds end to end in this order, with their lengths, and returns
/// where the last one ends. After it is what was copied with it.
#[inline(always)]
pub(crate) fn put_in_order(
    to: &mut [u8; 80],
    lengths: &mut [u8; 8],
    from: &[u8; 80],
    bounds: &[u8; 9],
    order: &Order,
) -> usize
    requires bounds { AreBounds bounds.now 52 }
    requires order { length order.now ≡ 8 }
    requires room { length (flat_map (λ column. column)
        (pick (columns_between from.now bounds.now) order.now)) ≤ 52 }
    ensures end { result ≡ length (flat_map (λ column. column)
        (pick (columns_between from.now bounds.now) order.now)) }
    ensures bytes { take result to.new ≡ flat_map (λ column. column)
        (pick (columns_between from.now bounds.now) order.now) }
    ensures lengths { lengths.new
        ≡ map length (pick (columns_between from.now bounds.now) order.now) }
{
    let starts = in_order(&starts_between(bounds), order);
    let counts = in_order(&lengths_between(bounds), order);
    *lengths = counts;
    put_pieces(to, from, &starts, &counts)
}

/// Puts the pieces end to end that start at these places and have so many bytes each, and returns
/// where the last one ends. After it is what was copied with it.
#[inline(always)]
fn put_pieces(to: &mut [u8; 80], from: &[u8; 80], starts: &[u8; 8], counts: &[u8; 8]) -> usize
    requires inside { AreInside starts.now counts.now }
    requires room { length (flat_map (λ piece. piece)
        (pieces from.now starts.now counts.now)) ≤ 52 }
    ensures end { result
        ≡ length (flat_map (λ piece. piece) (pieces from.now starts.now counts.now)) }
    ensures bytes { take result to.new
        ≡ flat_map (λ piece. piece) (pieces from.now starts.now counts.now) }
{
    if are_short(counts) {
        put_short(to, from, starts, counts)
    } else {
        put_all(to, from, starts, counts)
    }
}

/// Whether none has more than sixteen bytes, as the columns of most boards.
#[inline(always)]
fn are_short(counts: &[u8; 8]) -> bool
    ensures { IsTrue result → All (λ count. count ≤ 16) counts.now }
{
    u8x8::from_array(*counts).simd_le(u8x8::splat(16)).all()
}

/// The same for pieces of sixteen bytes at most: so many are copied of each.
#[inline(always)]
fn put_short(to: &mut [u8; 80], from: &[u8; 80], starts: &[u8; 8], counts: &[u8; 8]) -> usize
    requires short { All (λ count. count ≤ 16) counts.now }
    requires inside { AreInside starts.now counts.now }
    requires room { length (flat_map (λ piece. piece)
        (pieces from.now starts.now counts.now)) ≤ 52 }
    ensures end { result
        ≡ length (flat_map (λ piece. piece) (pieces from.now starts.now counts.now)) }
    ensures bytes { take result to.new
        ≡ flat_map (λ piece. piece) (pieces from.now starts.now counts.now) }
{
    let all = &mut to[..];
    let mut end = 0;
    for place in 0..8 {
        let start = usize::from(starts[place]);
        let count = usize::from(counts[place]);
        put(all, end, &from[start..start + 16]);
        end += count;
    }
    end
}

/// The same for pieces of any number of bytes.
#[cold]
#[inline(never)]
fn put_all(to: &mut [u8; 80], from: &[u8; 80], starts: &[u8; 8], counts: &[u8; 8]) -> usize
    requires inside { AreInside starts.now counts.now }
    requires room { length (flat_map (λ piece. piece)
        (pieces from.now starts.now counts.now)) ≤ 52 }
    ensures end { result
        ≡ length (flat_map (λ piece. piece) (pieces from.now starts.now counts.now)) }
    ensures bytes { take result to.new
        ≡ flat_map (λ piece. piece) (pieces from.now starts.now counts.now) }
{
    let all = &mut to[..];
    let mut end = 0;
    for place in 0..8 {
        let start = usize::from(starts[place]);
        let count = usize::from(counts[place]);
        end = put(all, end, &from[start..start + count]);
    }
    end
}
