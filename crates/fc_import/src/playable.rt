//! Which boards play can make of a deal.
ghost use Rattle.std.specs.Prelude.{◌↔◌, ◌≡◌, ◌⊎◌, All, IsTrue};
ghost use Rattle.fc_import.specs.Import.{CanBe, IsBuilt};
ghost use Rattle.fc_import.specs.declared.options.LinesAre.TheVariants.{Columns as AsColumns};

use crate::options::LinesAre;
use fc_board::{Board, Rule};
use fc_card::Card;
use fc_text::write_board;

/// How many cards a deal puts into a column at most.
pub(crate) const MOST_DEALT: usize = 7;

/// Whether the lines are said to be columns, or may be those of the board.
pub(crate) fn is_allowed<R: Rule>(lines_are: LinesAre, piece: &[u8], board: &Board<R>) -> bool
    ensures { IsTrue result ↔ (lines_are ≡ AsColumns) ⊎ CanBe R.game piece.now board.now }
{
    lines_are == LinesAre::Columns || can_be(piece, board)
}

/// Whether play can make the columns of the board, or the lines are the board as it is printed.
pub(crate) fn can_be<R: Rule>(piece: &[u8], board: &Board<R>) -> bool
    ensures { IsTrue result ↔ CanBe R.game piece.now board.now }
{
    is_playable(board) || piece == write_board(board).as_slice()
}

/// Whether play can make the columns of the board.
pub(crate) fn is_playable<R: Rule>(board: &Board<R>) -> bool
    ensures { IsTrue result ↔ All (IsBuilt R.game) board.now.columns }
{
    // The board has eight columns.
    let _ = board.heights();
    for index in 0..8 {
        if !is_built::<R>(board.column(index)) {
            return false;
        }
    }
    true
}

// Whether each card that comes after as many as a deal has in the column goes on the one before.
fn is_built<R: Rule>(column: &[Card]) -> bool
    ensures { IsTrue result ↔ IsBuilt R.game column.now }
{
    for place in MOST_DEALT..column.len() {
        if !R::builds(column[place], column[place - 1]) {
            return false;
        }
    }
    true
}
