//! Which cards of the deck were counted, and which of them more than once.
ghost use Rattle.std.specs.{Int.{bit_at}, Prelude.{◌+◌, ◌<◌, ◌^◌, ◌↔◌, ◌∷◌, ◌≡◌, ◌≤◌, [], All}};
ghost use Rattle.std.specs.Prelude.{if◌then◌else◌, IsFalse, IsTrue, MatchOption, min, slice_index};
ghost use Rattle.std.specs.Prelude.{ℕ};
ghost use Rattle.fc_card.specs.{AreBitsOf, AreCountsOf, Counts, CountsEachOnce, CountsNoneUpTo};
ghost use Rattle.fc_card.specs.{CountsUpTo, is_up_to, IsCard, IsLowest, NoCard, suit_number};

use crate::{Card, Suit};
use std::marker::Model;

/// How often each card of the deck was counted: not at all, once, or more often. Contracts see a
/// count for each card by its number, which stops at two.
#[derive(Clone, Copy)]
pub struct CardSet {
    /// Bit n is set where the card of number n was counted.
    once: u64,
    /// The same where it was counted more than once.
    twice: u64,
}

impl Model for CardSet {
    ghost use Rattle.std.specs.Prelude.{List, ℕ};
    ghost use Rattle.fc_card.specs.inside.{AreCounts, counts_of, once_back, once_of, twice_back};
    ghost use Rattle.fc_card.specs.inside.{twice_of};

    ghost Value = { List ℕ };

    ghost view = { λ set. counts_of set.once set.twice };

    ghost invariant = { λ set. AreCounts set.once set.twice };

    ghost inverse = { λ counts. record { once = once_of counts; twice = twice_of counts } };

    ghost inverse_ok = { λ set are i. record {
      once = once_back set.once set.twice are i;
      twice = twice_back set.once set.twice are i;
    } };
}

impl CardSet {
    /// No card was counted.
    pub fn new() -> CardSet
        ensures { AreCountsOf result [] }
    {
        CardSet { once: 0, twice: 0 }
    }

    /// How often each card of the deck is among these.
    pub fn of(cards: &[Card]) -> CardSet
        ensures { AreCountsOf result cards.now }
    {
        let mut bits = 0;
        for card in cards {
            bits |= 1 << card.number();
        }
        CardSet::of_bits(cards, bits)
    }

    /// The same where the bits of the cards are known, of the card of number n bit n: where they
    /// are as many as the cards, no pass over the cards is needed.
    #[inline(always)]
    pub fn of_bits(cards: &[Card], bits: u64) -> CardSet
        requires { AreBitsOf cards.now bits }
        ensures { AreCountsOf result cards.now }
    {
        if bits.count_ones() as usize == cards.len() {
            return CardSet {
                once: bits,
                twice: 0,
            };
        }
        CardSet::of_each(cards)
    }

    /// The same, counted card by card.
    #[cold]
    #[inline(never)]
    fn of_each(cards: &[Card]) -> CardSet
        ensures { AreCountsOf result cards.now }
    {
        let mut set = CardSet::new();
        set.insert_all(cards);
        set
    }

    /// Counts the card once more, and returns whether it was not counted before.
    #[inline(always)]
    pub fn insert(&mut self, card: Card) -> bool
        ensures counted { Counts self.old self.new (card ∷ []) }
        ensures first { IsTrue result ↔ (slice_index self.old card ≡ 0) }
        ensures in_deck { IsCard card }
    {
        let bit = 1 << card.number();
        let is_first = self.once & bit == 0;
        self.add(bit);
        is_first
    }

    /// Counts each of the cards once more.
    pub fn insert_all(&mut self, cards: &[Card])
        ensures counted { Counts self.old self.new cards.now }
        ensures in_deck { All IsCard cards.now }
    {
        for card in cards {
            self.insert(*card);
        }
    }

    /// Whether one of the first cards of the suit was counted, from the ace on so many.
    #[inline(always)]
    pub fn contains_up_to(&self, suit: Suit, height: u8) -> bool
        requires { height ≤ 13 }
        ensures { IsFalse result ↔ CountsNoneUpTo self.now (suit_number suit) height }
    {
        self.once & bits_up_to(suit, height) != 0
    }

    /// Counts each of the first cards of the suit once more, from the ace on so many.
    #[inline(always)]
    pub fn insert_up_to(&mut self, suit: Suit, height: u8)
        requires { height ≤ 13 }
        ensures { CountsUpTo self.old self.new (suit_number suit) height }
    {
        self.add(bits_up_to(suit, height));
    }

    /// Whether each card of the deck was counted once.
    #[inline(always)]
    pub fn is_whole(&self) -> bool
        ensures { IsTrue result ↔ CountsEachOnce self.now }
    {
        self.once == (1 << 52) - 1 && self.twice == 0
    }

    /// The lowest card that was not counted.
    pub fn lowest_missing(&self) -> Option<Card>
        ensures { MatchOption result (NoCard (λ card. slice_index self.now card ≡ 0))
            (IsLowest (λ card. slice_index self.now card ≡ 0)) }
    {
        Card::from_number(self.once.trailing_ones() as u8)
    }

    /// The lowest card that was counted more than once.
    pub fn lowest_repeated(&self) -> Option<Card>
        ensures { MatchOption result (NoCard (λ card. 2 ≤ slice_index self.now card))
            (IsLowest (λ card. 2 ≤ slice_index self.now card)) }
    {
        Card::from_number(self.twice.trailing_zeros() as u8)
    }

    /// Counts each card once more that has its bit.
    #[inline(always)]
    fn add(&mut self, bits: u64)
        requires { bits < 2 ^ 52 }
        ensures { (card : ℕ) → IsCard card → slice_index self.new card
            ≡ min (slice_index self.old card + bit_at bits card) 2 }
    {
        self.twice |= self.once & bits;
        self.once |= bits;
    }
}

/// The bits of no club, of the ace of clubs, and so on up to all clubs.
static CLUBS_UP_TO: [u64; 14] = [
    0,
    0x1,
    0x11,
    0x111,
    0x1111,
    0x1_1111,
    0x11_1111,
    0x111_1111,
    0x1111_1111,
    0x1_1111_1111,
    0x11_1111_1111,
    0x111_1111_1111,
    0x1111_1111_1111,
    0x1_1111_1111_1111,
];

/// A bit of each of the first cards of the suit, from the ace on so many: of the card of number n
/// bit n.
#[inline(always)]
fn bits_up_to(suit: Suit, height: u8) -> u64
    requires { height ≤ 13 }
    ensures below { result < 2 ^ 52 }
    ensures bits { (card : ℕ) → IsCard card → bit_at result card
        ≡ (if is_up_to (suit_number suit) height card then 1 else 0) }
{
    let clubs = CLUBS_UP_TO[usize::from(height)];
    clubs << suit.number()
}
