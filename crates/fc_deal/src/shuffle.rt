//! The deck, and how the random numbers of a seed shuffle it.
ghost use Rattle.std.specs.Prelude.{◌≡◌};
ghost use Rattle.fc_deal.specs.{deal, deck, drawn, next_state};

use fc_card::Card;

/// The deck in the order in which this seed deals it. The card that is dealt changes places with
/// the last one that is left, so that the deck has its dealt cards at the end, the first one last.
pub(crate) fn shuffle_deck(seed: u32) -> [Card; 52]
    ensures { result ≡ deal seed }
{
    let mut cards = whole_deck();
    let mut draws = Draws::new(seed);
    for last in (0..52_usize).rev() {
        let place = draws.draw() as usize % (last + 1);
        cards.swap(place, last);
    }
    cards.reverse();
    cards
}

/// The whole deck by number.
fn whole_deck() -> [Card; 52]
    ensures { result ≡ deck }
{
    let mut cards = [Card::default(); 52];
    for number in 0..52_u8 {
        if let Some(card) = Card::from_number(number) {
            cards[usize::from(number)] = card;
        }
    }
    cards
}

/// The numbers from 0 to 32,767 that the generator of Microsoft's C library draws, one after
/// another, from a seed on.
#[derive(Drop)]
struct Draws {
    state: u32,
}

impl Draws {
    /// The draws that this seed begins.
    fn new(seed: u32) -> Draws
        ensures { result.state ≡ seed }
    {
        Draws { state: seed }
    }

    /// The next number.
    fn draw(&mut self) -> u32
        ensures state { self.new.state ≡ next_state self.old.state }
        ensures number { result ≡ drawn (next_state self.old.state) }
    {
        let next = self.state.wrapping_mul(214_013).wrapping_add(2_531_011);
        self.state = next % (1 << 31);
        self.state / 65_536
    }
}
