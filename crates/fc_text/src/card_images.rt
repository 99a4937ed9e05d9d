//! The images of the cards under a renaming of the suits.
ghost use Rattle.std.specs.Prelude.{◌+◌, ◌≡◌, All, length, slice_index, ℕ};
ghost use Rattle.fc_card.specs.{IsCard, IsCode, places, renamed_card};
ghost use Rattle.fc_text.specs.writer.{AreNumbers};

use fc_card::{Card, Renaming, rename_lanes};
use std::marker::Model;

/// The images of all cards under a renaming, which contracts see as the renaming.
#[derive(Drop)]
pub(crate) struct CardImages {
    renaming: Renaming,
    /// By the number of the card.
    images: [Card; 52],
}

impl Model for CardImages {
    ghost use Rattle.{fc_text.specs.writer.{AreCardImages}, std.specs.Prelude.{List, ℕ}};

    ghost Value = { List ℕ };

    ghost view = { λ cards. cards.renaming };

    ghost invariant = { λ cards. AreCardImages cards.renaming cards.images };
}

impl CardImages {
    /// Each card as itself.
    #[inline(always)]
    pub(crate) fn identity() -> CardImages
        ensures { result ≡ places 4 }
    {
        CardImages {
            renaming: Renaming::default(),
            images: cards_numbered(&numbers()),
        }
    }

    /// Those under the renaming.
    #[inline(always)]
    pub(crate) fn of(renaming: Renaming) -> CardImages
        ensures { result ≡ renaming }
    {
        // Numbers of cards and their codes both have the suit in their two last bits, so a renaming
        // moves numbers as it moves codes.
        let mut numbers = numbers();
        rename_lanes(&renaming, &mut numbers);
        CardImages {
            renaming,
            images: cards_numbered(&numbers),
        }
    }

    /// The image of the card.
    pub(crate) fn image(&self, card: Card) -> Card
        ensures { result ≡ renamed_card self.now card }
    {
        self.images[usize::from(card.number())]
    }
}

/// The number of each card plus 1, by the number of the card, and 0 after them.
#[inline(always)]
fn numbers() -> [u8; 64]
    ensures cards { (card : ℕ) → IsCard card → slice_index result card ≡ card + 1 }
    ensures codes { All IsCode result }
    ensures size { length result ≡ 64 }
{
    let mut numbers = [0; 64];
    for number in 0..52 {
        numbers[usize::from(number)] = number + 1;
    }
    numbers
}

/// The cards whose numbers plus 1 are the first 52 of these.
#[inline(always)]
fn cards_numbered(numbers: &[u8; 64]) -> [Card; 52]
    requires numbers { AreNumbers numbers.now }
    ensures { (card : ℕ) → IsCard card
        → slice_index result card + 1 ≡ slice_index numbers.now card }
{
    let mut cards = [Card::default(); 52];
    for place in 0..52 {
        cards[place] = Card::of_number(numbers[place] - 1);
    }
    cards
}
