//! How many cards can be moved at once.
ghost use Rattle.std.specs.Prelude.{◌<◌, ◌≡◌, ◌≤◌};
ghost use Rattle.fc_board.specs.Boards.{IsWellFormed};
ghost use Rattle.fc_board.specs.Steps.{capacity, free_cells, spare_columns};

use super::Board;
use crate::Rule;
use arrayvec::ArrayVec;

impl<R: Rule> Board<R> {
    /// How many cards can be moved to the column with this index from 0 at once: over the empty
    /// cells, and over the other empty columns where every card may fill one.
    pub fn capacity(&self, target: u8) -> u16
        requires { target < 8 }
        ensures value { result ≡ capacity R.game self.now target }
        ensures at_most_640 { result ≤ 640 }
        ensures well_formed { IsWellFormed R.game self.now }
    {
        let _ = &self.heights;
        let cards = self.free_cells().len() as u16 + 1;
        if R::KINGS_ONLY {
            cards
        } else {
            cards << self.spare_columns(target).len()
        }
    }

    /// The empty cells, by their places.
    pub(super) fn free_cells(&self) -> ArrayVec<u8, 8>
        ensures { result.items ≡ free_cells R.game self.now }
    {
        let mut cells = ArrayVec::new();
        for cell in 0..R::CELLS {
            if self.cell(cell).is_none() {
                cells.push(cell as u8);
            }
        }
        cells
    }

    /// The empty columns beside the target, by their places.
    pub(super) fn spare_columns(&self, target: u8) -> ArrayVec<u8, 8>
        ensures { result.items ≡ spare_columns self.now target }
    {
        let mut columns = ArrayVec::new();
        for column in 0..8_u8 {
            if self.column(usize::from(column)).is_empty() && column != target {
                columns.push(column);
            }
        }
        columns
    }
}
