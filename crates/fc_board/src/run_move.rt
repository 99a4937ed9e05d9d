//! Moves of several cards.
ghost use Rattle.std.specs.Prelude.{◌↔◌, ◌≡◌, IsTrue};
ghost use Rattle.fc_board.specs.Moves.{is_column_to_column, IsCount, RunFits};

use crate::{Move, Place, Rule, Source};

/// A move of one card that touches a cell or home, or of the last cards of a column to another.
#[derive(Clone, Copy, PartialEq, Eq, Debug)]
pub enum RunMove {
    /// One card, from a cell, to a cell or home.
    One(Move),
    /// The last cards of a column, in one go.
    Run {
        /// The column that they leave, from 0 to 7.
        from: u8,
        /// The column that they go to, from 0 to 7.
        to: u8,
        /// How many cards they are, where the token says so: 1 to 13.
        count: Option<u8>,
    },
}

impl RunMove {
    /// Whether the game `R` has the columns and cells of the move, its number of cards is one of a
    /// run, and one card goes from column to column as a run alone.
    pub fn fits<R: Rule>(&self) -> bool
        ensures { IsTrue result ↔ RunFits R.game self.now }
    {
        match *self {
            RunMove::One(mv) => mv.fits::<R>() && !is_column_to_column(mv),
            RunMove::Run { from, to, count } => from < 8 && to < 8 && is_count(count),
        }
    }
}

/// Whether the move is from column to column.
fn is_column_to_column(mv: Move) -> bool
    ensures { result ≡ is_column_to_column mv }
{
    match (mv.from, mv.to) {
        (Source::Column(_), Place::Column(_)) => true,
        _ => false,
    }
}

/// Whether the number of cards, where there is one, is 1 to 13.
fn is_count(count: Option<u8>) -> bool
    ensures { IsTrue result ↔ IsCount count }
{
    match count {
        Some(count) => 1 <= count && count <= 13,
        None => true,
    }
}
