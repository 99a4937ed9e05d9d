//! Passages in 20 bytes.
ghost use Rattle.std.specs.Prelude.{◌<◌, ◌↔◌, ◌≡◌, ◌≤◌, All, IfSome, IsNone, IsTrue, length, map};
ghost use Rattle.std.specs.Prelude.{SomeIff};
ghost use Rattle.fc_card.specs.{IsOrder, IsRenaming, suit_number};
ghost use Rattle.fc_board.specs.Passages.{Passage as Parts};
ghost use Rattle.fc_bytes.specs.{HoldsPassage, padded};

use crate::board::are_zero;
use arrayvec::ArrayVec;
use fc_board::Rule;
use fc_canon::Passage;
use fc_card::{Order, Renaming, Suit};

/// A passage in 20 bytes.
///
/// The numbers of the suits that C, D, H and S become, and for each new place, from 0, the old
/// place of the column and of the cell that comes there. Cells past the game's are 0.
#[repr(C)]
#[derive(Clone, Copy, PartialEq, Eq)]
pub struct PassageBytes {
    /// What C, D, H and S become: 0 for C, 1 for D, 2 for H, 3 for S.
    pub suits: [u8; 4],
    /// The old places of the columns.
    pub columns: [u8; 8],
    /// The old places of the cells.
    pub cells: [u8; 8],
}

impl PassageBytes {
    /// The bytes of the passage.
    pub fn of<R: Rule>(passage: &Passage<R>) -> PassageBytes
        ensures { HoldsPassage R.game result passage.now }
    {
        PassageBytes {
            suits: suit_bytes(passage.renaming()),
            columns: order_bytes(passage.columns()),
            cells: order_bytes(passage.cells()),
        }
    }

    /// The passage of `R` that the bytes hold, or `None` where they hold none.
    pub fn passage<R: Rule>(&self) -> Option<Passage<R>>
        ensures passage { IfSome result (HoldsPassage R.game self.now) }
        ensures no_passage { IsNone result
            → (passage : Parts) → ¬ HoldsPassage R.game self.now passage }
    {
        if !are_zero(&self.cells, R::CELLS) {
            return None;
        }
        let renaming = renaming_of(&self.suits)?;
        let columns = order_of(&self.columns)?;
        let cells = order_of(&self.cells[..R::CELLS])?;
        let passage = Passage::new(renaming, columns, cells)?;
        Some(passage)
    }
}

/// The numbers of the images of C, D, H and S.
pub fn suit_bytes(renaming: Renaming) -> [u8; 4]
    ensures { result ≡ renaming }
{
    [
        renaming.apply(Suit::C).number(),
        renaming.apply(Suit::D).number(),
        renaming.apply(Suit::H).number(),
        renaming.apply(Suit::S).number(),
    ]
}

/// The places of the order, and 0 after them.
fn order_bytes(order: &Order) -> [u8; 8]
    ensures { result ≡ padded 8 order.now }
{
    let mut bytes = [0; 8];
    for place in 0..order.len() {
        bytes[place] = order.at(place) as u8;
    }
    bytes
}

/// The suit with this number, and S from 4 up, which has another number.
fn suit_of(byte: u8) -> Suit
    ensures { byte < 4 → suit_number result ≡ byte }
{
    match byte {
        0 => Suit::C,
        1 => Suit::D,
        2 => Suit::H,
        _ => Suit::S,
    }
}

/// The suits with these numbers; where one has no suit they have other numbers.
fn suits_of(bytes: &[u8; 4]) -> [Suit; 4]
    ensures { All (λ byte. byte < 4) bytes.now → map suit_number result ≡ bytes.now }
{
    let [clubs, diamonds, hearts, spades] = *bytes;
    [
        suit_of(clubs),
        suit_of(diamonds),
        suit_of(hearts),
        suit_of(spades),
    ]
}

/// The renaming with these numbers of images, if they are four suits.
fn renaming_of(suits: &[u8; 4]) -> Option<Renaming>
    ensures { SomeIff result (IsRenaming suits.now) suits.now }
{
    if !is_order(suits) {
        return None;
    }
    Some(Renaming::of_images(suits_of(suits)))
}

/// The order of these places, if they are one of at most eight.
fn order_of(places: &[u8]) -> Option<Order>
    ensures { SomeIff result (IsOrder places.now × (length places.now ≤ 8)) places.now }
{
    let places = ArrayVec::try_from(places).ok()?;
    if is_order(places.as_slice()) {
        Some(Order::of_places(places))
    } else {
        None
    }
}

/// Whether these are the places 0 to n - 1, each once.
fn is_order(places: &[u8]) -> bool
    requires { length places.now ≤ 8 }
    ensures { IsTrue result ↔ IsOrder places.now }
{
    let mut seen = [false; 8];
    for at in 0..places.len() {
        let place = usize::from(places[at]);
        if place >= places.len() || seen[place] {
            return false;
        }
        seen[place] = true;
    }
    true
}
