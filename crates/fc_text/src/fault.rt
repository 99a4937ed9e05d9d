//! Why a text spells no board, and why it lists no moves.
use fc_card::Card;

/// What is at fault in a text that spells no board, in the order in which the tests are made of one
/// name, line or word; a missing card is found last of all.
#[derive(Clone, Copy, PartialEq, Eq, Debug)]
pub enum BoardFaultKind {
    /// A second line of the foundations, or a second line of the cells.
    RepeatedLine,
    /// A ninth line of a column.
    TooManyColumns,
    /// A word after as many words of the cells as there are cells.
    TooManyCells,
    /// A word of a column that is no card, or one of the cells that is neither a card nor empty.
    BadCard,
    /// A word of the foundations that is no suit with its height, or whose suit was named before.
    BadFoundation,
    /// A word that names a card that an earlier word names.
    RepeatedCard,
    /// The lowest card by number that no word names.
    MissingCard(Card),
}

impl BoardFaultKind {
    ghost use Rattle.std.specs.Prelude.{◌≡◌};
    ghost use Rattle.fc_text.specs.Faults.{fault_words};

    /// The kind of fault in words, without the card that is missing.
    pub fn words(&self) -> &'static str
        ensures { result.now ≡ fault_words self.now }
    {
        match self {
            BoardFaultKind::RepeatedLine => "repeated line",
            BoardFaultKind::TooManyColumns => "too many columns",
            BoardFaultKind::TooManyCells => "too many cells",
            BoardFaultKind::BadCard => "bad card",
            BoardFaultKind::BadFoundation => "bad foundation",
            BoardFaultKind::RepeatedCard => "repeated card",
            BoardFaultKind::MissingCard(_) => "missing card",
        }
    }
}

/// The first fault of a text, and the offset in bytes of the name, line or word at fault; of a
/// missing card it is the length of the text.
#[derive(Clone, Copy, PartialEq, Eq, Debug)]
pub struct BoardFault {
    /// An offset in bytes from 0.
    pub place: usize,
    /// What is at fault there.
    pub kind: BoardFaultKind,
}

/// The first fault of a text of moves. A place is the offset in bytes, from 0, of the word at
/// fault.
#[derive(Clone, Copy, PartialEq, Eq, Debug)]
pub enum MovesFault {
    /// A word that is no move of the game, before the 4,097th.
    BadToken(usize),
    /// The 4,097th word, whatever it is.
    TooMany(usize),
    /// There is no memory for one more move.
    Memory,
}
