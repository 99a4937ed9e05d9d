//! The four suits.
ghost use Rattle.std.specs.Prelude.{◌<◌, ◌≡◌};
ghost use Rattle.fc_card.specs.{suit_letter, suit_number};

/// Clubs, diamonds, hearts or spades, in the order of their letters and of their numbers 0 to 3.
#[derive(Clone, Copy, Debug, PartialEq, Eq, PartialOrd, Ord, Hash)]
pub enum Suit {
    C,
    D,
    H,
    S,
}

impl Suit {
    /// The suit with this number.
    pub fn from_number(number: u8) -> Suit
        requires { number < 4 }
        ensures { suit_number result ≡ number }
    {
        match number {
            0 => Suit::C,
            1 => Suit::D,
            2 => Suit::H,
            3 => Suit::S,
            _ => unreachable!(),
        }
    }

    /// The number of the suit: 0 for clubs, 1 for diamonds, 2 for hearts, 3 for spades.
    pub fn number(self) -> u8
        ensures { result ≡ suit_number self }
    {
        self as u8
    }

    /// The letter that stands for the suit in printed boards, one ASCII byte: `C`, `D`, `H` or `S`.
    pub fn letter(self) -> u8
        ensures { result ≡ suit_letter (suit_number self) }
    {
        match self {
            Suit::C => b'C',
            Suit::D => b'D',
            Suit::H => b'H',
            Suit::S => b'S',
        }
    }
}
