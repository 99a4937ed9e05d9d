//! Why cards are no whole deck, and why moves are refused.

use fc_card::Card;

/// What is wrong with a deck. A repeated card comes before a missing one, and of several the one
/// of lowest number.
#[derive(Clone, Copy, PartialEq, Eq, Debug)]
pub enum DeckFault {
    /// The card is in two or more places.
    RepeatedCard(Card),
    /// The card is nowhere.
    MissingCard(Card),
}

/// Why a move is refused. The first six are the reasons of a move of one card, in the order in
/// which they are tried; the others are reasons of a move of several cards alone.
#[derive(Clone, Copy, PartialEq, Eq, Debug)]
pub enum StepFault {
    /// The target is the source itself.
    SamePile,
    /// No card is there to be taken.
    EmptySource,
    /// The target is a cell that holds a card.
    TargetTaken,
    /// The target is an empty column, which the card may not fill.
    KingsOnly,
    /// The target is a column with cards, on whose last card the card does not go.
    NotBuilding,
    /// The foundation of the card's suit does not wait for its rank.
    NotNext,
    /// The last cards of the column are no run of that length.
    NoRun,
    /// The run has more cards than empty cells and columns let go at once.
    OverCapacity,
    /// The move says another number of cards than the ranks.
    WrongCount,
}

impl StepFault {
    ghost use Rattle.std.specs.Prelude.{◌≡◌, slice_get, Some};
    ghost use Rattle.fc_board.specs.Steps.{step_faults, step_reason};

    /// The reason in two words, as the program prints it.
    pub fn words(self) -> &'static str
        ensures { result.now ≡ step_reason self }
    {
        match self {
            StepFault::SamePile => "same pile",
            StepFault::EmptySource => "empty source",
            StepFault::TargetTaken => "target taken",
            StepFault::KingsOnly => "kings only",
            StepFault::NotBuilding => "not building",
            StepFault::NotNext => "not next",
            StepFault::NoRun => "no run",
            StepFault::OverCapacity => "over capacity",
            StepFault::WrongCount => "wrong count",
        }
    }

    /// The place of the reason among all, from 0.
    pub fn number(self) -> u32
        ensures { slice_get step_faults result ≡ Some self }
    {
        self as u32
    }
}

/// Which move of a list is refused, and why.
#[derive(Clone, Copy, PartialEq, Eq, Debug)]
pub struct PlayFault {
    /// The index of the move in the list, from 0.
    pub index: usize,
    /// Why the board that the moves before it leave does not allow it.
    pub fault: StepFault,
}
