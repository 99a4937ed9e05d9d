//! What each game's rule says, and relabelled decks.
ghost use Rattle.std.specs.Prelude.{◌<◌};

use fc_board::{BakersGame, EightOff, FreeCell, Rule, relabelling};
use fc_card::Suit::{self, C, D, H, S};
use fc_card::{Acts, Card, Rank, Renaming};

// Whether QH takes KS, and fills an empty column, and the second renaming has this image of the
// suit. Each call goes through its bound.
fn is_rule<R: Rule>(goes: (bool, bool), suit: Suit, image: Suit) -> bool
    requires { 1 < R.RENAMINGS }
{
    let (queen, king) = (Card::new(Rank::Queen, H), Card::new(Rank::King, S));
    (R::builds(queen, king), R::fills_empty(queen)) == goes && R::renaming(1).apply(suit) == image
}

#[test]
fn rules(rt: HostRuntime) {
    assert!(rt; is_rule::<FreeCell>((true, true), D, H));
    assert!(rt; is_rule::<BakersGame>((false, true), H, S));
    assert!(rt; is_rule::<EightOff>((false, false), H, S));
}

// The table of the deck under the renaming.
fn table(renaming: Renaming) -> [Card; 52] {
    let mut table = [Card::default(); 52];
    for number in 0..52_u8 {
        if let Some(card) = Card::from_number(number) {
            table[usize::from(number)] = renaming.act(&card);
        }
    }
    table
}

// Whether the table under the renaming with these images is found to be that, or none of the game.
fn is_found<R: Rule>(images: [Suit; 4], is_kept: bool) -> bool {
    match Renaming::new(images) {
        Some(own) => relabelling::<R>(&table(own)) == if is_kept { Some(own) } else { None },
        None => false,
    }
}

#[test]
fn relabellings(rt: HostRuntime) {
    assert!(rt; is_found::<FreeCell>([D, C, S, H], true));
    assert!(rt; is_found::<FreeCell>([C, D, S, H], false));
    assert!(rt; is_found::<BakersGame>([C, D, S, H], true));
    let mut queens = table(Renaming::default());
    (queens[44], queens[47]) = (Card::new(Rank::Queen, S), Card::new(Rank::Queen, C));
    assert!(rt; relabelling::<FreeCell>(&queens).is_none());
    assert!(rt; relabelling::<EightOff>(&[Card::default(); 52]).is_none());
}
