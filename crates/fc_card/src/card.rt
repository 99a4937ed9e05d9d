//! A card, which contracts see as its number in the deck.
ghost use Rattle.std.specs.Prelude.{◌<◌, ◌↔◌, ◌≡◌, IsTrue, SomeIff};
ghost use Rattle.fc_card.specs.{card_code, card_of, IsCard, IsRed, rank_number, rank_of};
ghost use Rattle.fc_card.specs.{suit_number, suit_of};

use crate::{Rank, Suit};
use std::fmt;
use std::marker::Model;

/// The packed codes of the cards, by number.
#[rattlefmt::skip]
static CODES: [u8; 52] = [
    33, 34, 35, 36, // AC AD AH AS
    1, 2, 3, 4,
    5, 6, 7, 8,
    9, 10, 11, 12,
    13, 14, 15, 16,
    17, 18, 19, 20,
    21, 22, 23, 24,
    25, 26, 27, 28,
    29, 30, 31, 32, // 9C 9D 9H 9S
    49, 50, 51, 52,
    37, 38, 39, 40,
    45, 46, 47, 48,
    41, 42, 43, 44, // KC KD KH KS
];

/// A card of the deck. Cards are ordered by number: AC AD AH AS 2C and so on up to KS.
///
/// The default is AC, the card with number 0.
#[derive(Clone, Copy, Debug, PartialEq, Eq, PartialOrd, Ord, Hash)]
pub struct Card {
    number: u8,
}

impl Model for Card {
    ghost use Rattle.{fc_card.specs.{IsCard}, std.specs.Prelude.{ℕ}};

    ghost Value = { ℕ };

    ghost view = { λ card. card.number };

    ghost invariant = { λ card. IsCard card.number };

    ghost inverse = { λ number. record { number = number } };
}

impl Card {
    /// The card of this rank and this suit.
    pub fn new(rank: Rank, suit: Suit) -> Card
        ensures { result ≡ card_of (rank_number rank) (suit_number suit) }
    {
        Card {
            number: 4 * (rank.number() - 1) + suit.number(),
        }
    }

    /// The card with this number, from 0 to 51, or `None` from 52 up.
    pub fn from_number(number: u8) -> Option<Card>
        ensures { SomeIff result (IsCard number) number }
    {
        if number < 52 {
            Some(Card { number })
        } else {
            None
        }
    }

    /// The card with this number, which is one from 0 to 51.
    pub fn of_number(number: u8) -> Card
        requires { IsCard number }
        ensures { result ≡ number }
    {
        Card { number }
    }

    /// The number of the card, from 0 for AC to 51 for KS: four times the rank's place from 0, and
    /// the number of the suit.
    pub fn number(self) -> u8
        ensures value { result ≡ self }
        ensures in_deck { IsCard result }
    {
        self.number
    }

    /// The rank of the card.
    pub fn rank(self) -> Rank
        ensures { rank_number result ≡ rank_of self }
    {
        match self.number / 4 {
            0 => Rank::Ace,
            1 => Rank::Two,
            2 => Rank::Three,
            3 => Rank::Four,
            4 => Rank::Five,
            5 => Rank::Six,
            6 => Rank::Seven,
            7 => Rank::Eight,
            8 => Rank::Nine,
            9 => Rank::Ten,
            10 => Rank::Jack,
            11 => Rank::Queen,
            12 => Rank::King,
            _ => unreachable!(),
        }
    }

    /// The suit of the card.
    pub fn suit(self) -> Suit
        ensures { suit_number result ≡ suit_of self }
    {
        Suit::from_number(self.number % 4)
    }

    /// The card of the same rank and the suit with this number.
    pub(crate) fn with_suit(self, suit: u8) -> Card
        requires { suit < 4 }
        ensures { result ≡ card_of (rank_of self) suit }
    {
        Card {
            number: self.number - self.number % 4 + suit,
        }
    }

    /// Whether the card is a diamond or a heart. Clubs and spades are black.
    pub fn is_red(self) -> bool
        ensures { IsTrue result ↔ IsRed self }
    {
        matches!(self.suit(), Suit::D | Suit::H)
    }

    /// The packed code of the card, from 1 for 2C to 52 for TS, in the byte order of the printed
    /// cards: four times the rank's place in `2 3 4 5 6 7 8 9 A J K Q T`, the number of the suit,
    /// and 1.
    pub fn code(&self) -> u8
        ensures { result ≡ card_code self.now }
    {
        CODES[usize::from(self.number)]
    }
}

impl Default for Card {
    ghost is_default = { λ card. card ≡ 0 };

    fn default() -> Card {
        Card { number: 0 }
    }
}

impl fmt::Display for Card {
    ghost use Rattle.{fc_card.specs.{card_text}, std.specs.Prelude.{Some}};

    ghost output = { λ card. Some (card_text card) };

    fn fmt<W: fmt::Write>(&self, f: &mut fmt::Formatter<W>) -> fmt::Result {
        let rank = char::from(self.rank().letter());
        let suit = char::from(self.suit().letter());
        write!(f, "{rank}{suit}")
    }
}
