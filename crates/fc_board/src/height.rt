//! How far a foundation is built.
ghost use Rattle.std.specs.Prelude.{◌≡◌, SomeIff};
ghost use Rattle.{fc_board.specs.Boards.{IsHeight}, fc_card.specs.{rank_number}};

use fc_card::Rank;
use std::marker::Model;

/// How many cards a foundation holds, from 0 to 13. Contracts see the number.
#[derive(Clone, Copy, Debug, PartialEq, Eq)]
pub struct Height {
    cards: u8,
}

impl Model for Height {
    ghost use Rattle.{fc_board.specs.Boards.{IsHeight}, std.specs.Prelude.{ℕ}};

    ghost Value = { ℕ };

    ghost view = { λ height. height.cards };

    ghost invariant = { λ height. IsHeight height.cards };

    ghost inverse = { λ cards. record { cards = cards } };
}

impl Height {
    /// The height of a foundation with this many cards, or `None` past 13.
    pub fn new(cards: u8) -> Option<Height>
        ensures { SomeIff result (IsHeight cards) cards }
    {
        if cards <= 13 {
            Some(Height { cards })
        } else {
            None
        }
    }

    /// The height of a foundation whose last card has this rank.
    pub fn up_to(rank: Rank) -> Height
        ensures { result ≡ rank_number rank }
    {
        Height {
            cards: rank.number(),
        }
    }

    /// How many cards the foundation holds.
    pub fn get(self) -> u8
        ensures value { result ≡ self }
        ensures at_most_a_suit { IsHeight result }
    {
        self.cards
    }
}
