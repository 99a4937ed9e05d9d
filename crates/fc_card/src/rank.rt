//! The thirteen ranks.
ghost use Rattle.std.specs.Prelude.{◌≡◌, ◌≤◌};
ghost use Rattle.fc_card.specs.{rank_letter, rank_number};

/// Ace to king, in the order of their numbers 1 to 13.
#[derive(Clone, Copy, Debug, PartialEq, Eq, PartialOrd, Ord, Hash)]
pub enum Rank {
    Ace = 1,
    Two,
    Three,
    Four,
    Five,
    Six,
    Seven,
    Eight,
    Nine,
    Ten,
    Jack,
    Queen,
    King,
}

impl Rank {
    /// The number of the rank, from 1 for the ace to 13 for the king.
    pub fn number(self) -> u8
        ensures value { result ≡ rank_number self }
        ensures at_least_one { 1 ≤ result }
        ensures at_most_thirteen { result ≤ 13 }
    {
        self as u8
    }

    /// The letter that stands for the rank in printed boards, one ASCII byte: `A`, `2` to `9`,
    /// `T`, `J`, `Q` or `K`.
    pub fn letter(self) -> u8
        ensures { result ≡ rank_letter (rank_number self) }
    {
        match self {
            Rank::Ace => b'A',
            Rank::Two => b'2',
            Rank::Three => b'3',
            Rank::Four => b'4',
            Rank::Five => b'5',
            Rank::Six => b'6',
            Rank::Seven => b'7',
            Rank::Eight => b'8',
            Rank::Nine => b'9',
            Rank::Ten => b'T',
            Rank::Jack => b'J',
            Rank::Queen => b'Q',
            Rank::King => b'K',
        }
    }
}
