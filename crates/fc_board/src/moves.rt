//! Moves of one card.
ghost use Rattle.std.specs.Prelude.{◌↔◌, ◌≡◌, IsTrue};
ghost use Rattle.fc_board.specs.Moves.{Fits, move_between, PlaceFits, SourceFits};
ghost use Rattle.fc_board.specs.declared.moves.Place.TheVariants.{Home};
ghost use Rattle.fc_board.specs.declared.moves.Source.TheVariants.{Column as FromColumn};

use crate::Rule;

/// What a card is taken from: a column or a cell, by its place from 0.
#[derive(Clone, Copy, PartialEq, Eq, Debug)]
pub enum Source {
    /// A column, from 0 to 7.
    Column(u8),
    /// A cell, from 0 on.
    Cell(u8),
}

/// What a card is put on: a column or a cell, by its place from 0, or the foundation of its suit.
#[derive(Clone, Copy, PartialEq, Eq, Debug)]
pub enum Place {
    /// A column, from 0 to 7.
    Column(u8),
    /// A cell, from 0 on.
    Cell(u8),
    /// The foundation of the card's suit.
    Home,
}

/// A move of one card. The default is the one from column 1 home.
#[derive(Clone, Copy, PartialEq, Eq, Debug)]
pub struct Move {
    /// What the card is taken from.
    pub from: Source,
    /// What it is put on.
    pub to: Place,
}

impl Default for Move {
    fn default() -> Move
        ensures { result ≡ move_between (FromColumn 0) Home }
    {
        Move {
            from: Source::Column(0),
            to: Place::Home,
        }
    }
}

impl Source {
    fn fits<R: Rule>(self) -> bool
        ensures { IsTrue result ↔ SourceFits R.game self }
    {
        match self {
            Source::Column(column) => column < 8,
            Source::Cell(cell) => usize::from(cell) < R::CELLS,
        }
    }
}

impl Place {
    fn fits<R: Rule>(self) -> bool
        ensures { IsTrue result ↔ PlaceFits R.game self }
    {
        match self {
            Place::Column(column) => column < 8,
            Place::Cell(cell) => usize::from(cell) < R::CELLS,
            Place::Home => true,
        }
    }
}

impl Move {
    /// Whether the game `R` has the columns and cells of the move.
    pub fn fits<R: Rule>(&self) -> bool
        ensures { IsTrue result ↔ Fits R.game self.now }
    {
        self.from.fits::<R>() && self.to.fits::<R>()
    }
}
