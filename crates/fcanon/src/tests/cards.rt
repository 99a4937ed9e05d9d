//! Cards, renamings and orders.
ghost use Rattle.std.specs.Prelude.{◌<◌, ◌≤◌, length};

use arrayvec::ArrayVec;
use fc_card::Suit::{self, C, D, H, S};
use fc_card::{Acts, Card, Group, Order, Rank, Renaming, rename_lanes};
use std::alloc::{AllocError, Global};

// Whether the card has this number, and these letters, the colour aside.
fn is_card(card: Card, number: u8, rank: u8, suit: u8) -> bool {
    card.number() == number && card.rank().letter() == rank && card.suit().letter() == suit
}

#[test]
fn cards(rt: HostRuntime) {
    let king = Card::new(Rank::King, D);
    assert!(rt; Card::from_number(49) == Some(king));
    assert!(rt; is_card(king, 49, b'K', b'D') && king.is_red());
}

// A group through its bound.
fn identity<G: Group>(member: &G) -> G {
    member.identity()
}

// An action through its bound.
fn image<T: Drop, A: Acts<T>>(member: &A, item: &T) -> T
    requires { A.can_act (A.size member.now) item.now }
{
    member.act(item)
}

// The print of the first renaming and then the second, and of KD by the inverse of the second.
fn print_of(alloc: Global, first: &Renaming, second: &Renaming) -> Result<String, AllocError> {
    let king = second.inverse().act(&Card::new(Rank::King, D));
    format!(in alloc; "{} {king}", first.then(second))
}

// Whether the first renaming is its own inverse, the second makes C of D, and both are printed so.
fn are_renamings(alloc: Global, first: [Suit; 4], second: [Suit; 4], print: &str) -> bool {
    let (Some(first), Some(second)) = (Renaming::new(first), Renaming::new(second)) else {
        return false;
    };
    first.then(&first) == identity(&second)
        && image(&second, &D) == C
        && matches!(print_of(alloc, &first, &second), Ok(text) if text.as_str() == print)
}

#[test]
fn renamings(rt: HostRuntime) {
    assert!(rt; are_renamings(rt.alloc(), [D, C, S, H], [H, C, S, D], "CHDS KS"));
}

// Whether the order makes `yzx` of the line.
fn is_turned(line: &ArrayVec<u8, 8>, turned: &Order) -> bool {
    (line.len(), turned.len()) == (3, 3) && image(turned, line).as_slice() == b"yzx".as_slice()
}

// Whether the order takes `xyz` to `yzx`, and back when it is taken twice more.
fn is_turn(turned: &Order) -> bool
    requires { 1 < length turned.now }
{
    turned.at(1) == 2
        && turned.then(turned) == turned.inverse()
        && identity(turned).len() == 3
        && matches!(ArrayVec::try_from(b"xyz".as_slice()), Ok(line) if is_turned(&line, turned))
}

#[test]
fn orders(rt: HostRuntime) {
    assert!(rt; matches!(Order::new(&[1, 2, 0]), Some(turned) if is_turn(&turned)));
}

/// So many of one code, renamed at once, and then the same code as it was, 80 in all.
fn lanes(renaming: &Renaming, code: u8, length: usize) -> [u8; 80]
    requires code { code ≤ 52 }
    requires within { length ≤ 80 }
{
    let mut codes = [code; 80];
    rename_lanes(renaming, &mut codes[..length]);
    codes
}

/// Whether just so many of the card's codes are renamed as the card is.
fn is_renamed(renaming: &Renaming, card: Card, length: usize) -> bool
    requires { length ≤ 80 }
{
    let mut expected = [card.code(); 80];
    expected[..length].fill(renaming.act(&card).code());
    lanes(renaming, card.code(), length) == expected
}

// Whether codes of each card are renamed at every length.
fn are_renamed(renaming: &Renaming) -> bool {
    for number in 0..52 {
        for length in 0..81 {
            match Card::from_number(number) {
                Some(card) if is_renamed(renaming, card, length) => (),
                _ => return false,
            }
        }
    }
    true
}

#[test]
fn codes_are_renamed_at_every_length(rt: HostRuntime) {
    assert!(rt; matches!(Renaming::new([D, C, S, H]), Some(dcsh) if are_renamed(&dcsh)));
}
