//! Boards, on which each card of the deck is in one place.
ghost use Rattle.std.specs.Prelude.{◌<◌, ◌==◌, ◌↔◌, ◌≡◌, ◌≤◌, [], All, count_by, drop, IfErr, IfOk};
ghost use Rattle.std.specs.Prelude.{is_none, IsNone, IsOk, IsTrue, length, map, replicate};
ghost use Rattle.std.specs.Prelude.{slice_index, take};
ghost use Rattle.fc_card.specs.{AreCountsOf, suit_number};
ghost use Rattle.fc_board.specs.Boards.{board_of_parts, empty_cells_of, empty_columns_of};
ghost use Rattle.fc_board.specs.Boards.{HasEachCardOnce, IsDeckFault, IsWellFormed};
ghost use Rattle.fc_board.specs.inside.{AreBounds, AscendTo, board_of_laid, columns_between};
ghost use Rattle.fc_board.specs.{inside.{columns_from}, Play.{IsWon}};
ghost use Rattle.fc_board.specs.Steps.{cell_at, column_at, height_of};

use crate::{Columns, DeckFault, Height, Rule, cards_of_columns, deck_fault};
use arrayvec::ArrayVec;
use fc_card::{Card, CardSet, Suit};
use std::marker::{Model, PhantomData};

mod capacity;
mod expand;
mod play;
mod run_step;
mod step;

pub use play::Playable;

/// A board of the game `R`, on which each card of the deck is in exactly one place. Contracts
/// see the heights of the foundations of C D H S, the cells of the game and the columns.
#[derive(Drop)]
pub struct Board<R: Rule> {
    heights: [Height; 4],
    cells: [Option<Card>; 8],
    columns: Columns,
    rule: PhantomData<R>,
}

impl<R: Rule> Model for Board<R> {
    ghost use Rattle.std.specs.Prelude.{All, drop, IsNone};
    ghost use Rattle.fc_board.specs.Boards.{Board as Layout, IsWellFormed};
    ghost use Rattle.fc_board.specs.inside.{board_of_laid};

    ghost Value = { Layout };

    ghost view = { λ board. board_of_laid R.CELLS board.heights board.cells board.columns };

    ghost invariant = { λ board. IsWellFormed R.game
        (board_of_laid R.CELLS board.heights board.cells board.columns)
        × All IsNone (drop R.CELLS board.cells) };
}

impl<R: Rule> Board<R> {
    /// The board with exactly these parts, or what is wrong with the deck. The heights are those of
    /// C D H S, the last card of a column is its last one, and the cells past the game's are empty.
    pub fn from_parts(
        heights: [Height; 4],
        cells: [Option<Card>; 8],
        columns: [ArrayVec<Card, 52>; 8],
    ) -> Result<Board<R>, DeckFault>
        requires { All IsNone (drop R.CELLS cells) }
        ensures deck { IsOk result
            ↔ HasEachCardOnce (board_of_parts R.CELLS heights cells columns) }
        ensures parts { IfOk result
            (λ board. board ≡ board_of_parts R.CELLS heights cells columns) }
        ensures well_formed { IfOk result (IsWellFormed R.game) }
        ensures fault { IfErr result (IsDeckFault (board_of_parts R.CELLS heights cells columns)) }
    {
        let in_columns = cards_of_columns(&columns);
        match deck_fault(&heights, &cells, in_columns) {
            Some(fault) => Err(fault),
            None => Ok(Board {
                heights,
                cells,
                columns: Columns::of(&columns),
                rule: PhantomData,
            }),
        }
    }

    /// The board with these heights of C D H S and these cells, whose columns lie end to end among
    /// the cards, each up to its end, or what is wrong with the deck. Cards after the last end are
    /// none of the board's, and the cells past the game's are empty.
    #[inline(always)]
    pub fn from_laid(
        heights: [Height; 4],
        cells: [Option<Card>; 8],
        cards: [Card; 52],
        ends: [u8; 8],
        in_columns: CardSet,
    ) -> Result<Board<R>, DeckFault>
        requires cells { All IsNone (drop R.CELLS cells) }
        requires ends { AscendTo 0 ends 52 }
        requires in_columns { AreCountsOf in_columns (take (slice_index ends 7) cards) }
        ensures deck { IsOk result
            ↔ HasEachCardOnce (board_of_laid R.CELLS heights cells (columns_from 0 cards ends)) }
        ensures parts { IfOk result
            (λ board. board ≡ board_of_laid R.CELLS heights cells (columns_from 0 cards ends)) }
        ensures well_formed { IfOk result (IsWellFormed R.game) }
        ensures fault { IfErr result
            (IsDeckFault (board_of_laid R.CELLS heights cells (columns_from 0 cards ends))) }
    {
        match deck_fault(&heights, &cells, in_columns) {
            Some(fault) => Err(fault),
            None => Ok(Board::of_laid(heights, cells, cards, ends)),
        }
    }

    /// The board with these heights of C D H S and these cells, whose columns lie end to end among
    /// the cards, each up to its end; all these are those of a well-formed one.
    #[inline(always)]
    pub fn of_laid(
        heights: [Height; 4],
        cells: [Option<Card>; 8],
        cards: [Card; 52],
        ends: [u8; 8],
    ) -> Board<R>
        requires cells { All IsNone (drop R.CELLS cells) }
        requires ends { AscendTo 0 ends 52 }
        requires well_formed { IsWellFormed R.game
            (board_of_laid R.CELLS heights cells (columns_from 0 cards ends)) }
        ensures parts { result ≡ board_of_laid R.CELLS heights cells (columns_from 0 cards ends) }
        ensures well_formed { IsWellFormed R.game result }
    {
        Board {
            heights,
            cells,
            columns: Columns::from_ends(cards, ends),
            rule: PhantomData,
        }
    }

    /// The same board once more.
    pub fn copy(&self) -> Board<R>
        ensures same { result ≡ self.now }
        ensures well_formed { IsWellFormed R.game result }
    {
        Board {
            heights: *self.heights(),
            cells: copied_cells(&self.cells),
            columns: self.columns.copy(),
            rule: PhantomData,
        }
    }

    /// The cards of the column with this index from 0, the last card last.
    pub fn column(&self, i: usize) -> &[Card]
        requires { i < 8 }
        ensures value { result.now ≡ column_at self.now i }
        ensures at_most_a_deck { length result.now ≤ 52 }
        ensures well_formed { IsWellFormed R.game self.now }
    {
        self.columns.column(i)
    }

    /// The cards of the columns end to end, and where each column begins among them, and where the
    /// last one ends.
    pub fn laid(&self) -> (&[Card; 52], &[u8; 9])
        ensures columns { columns_between result.0.now result.1.now ≡ self.now.columns }
        ensures bounds { AreBounds result.1.now 52 }
        ensures well_formed { IsWellFormed R.game self.now }
    {
        self.columns.laid()
    }

    /// The card in the cell with this index from 0, or `None` where the cell is empty.
    pub fn cell(&self, i: usize) -> Option<Card>
        requires { i < R.CELLS }
        ensures value { result ≡ cell_at self.now i }
        ensures well_formed { IsWellFormed R.game self.now }
    {
        self.cells[i]
    }

    /// What the cells of the game hold, in their order.
    pub fn cells(&self) -> &[Option<Card>]
        ensures value { result.now ≡ self.now.cells }
        ensures few { length result.now ≤ 8 }
        ensures well_formed { IsWellFormed R.game self.now }
    {
        &self.cells[..R::CELLS]
    }

    /// The heights of the foundations of C D H S.
    pub fn heights(&self) -> &[Height; 4]
        ensures value { result.now ≡ self.now.heights }
        ensures well_formed { IsWellFormed R.game self.now }
    {
        &self.heights
    }

    /// How many cards of the suit are on its foundation.
    pub fn foundation(&self, suit: Suit) -> Height
        ensures value { result ≡ height_of self.now (suit_number suit) }
        ensures well_formed { IsWellFormed R.game self.now }
    {
        self.heights[usize::from(suit.number())]
    }

    /// Whether each foundation holds its whole suit.
    pub fn is_won(&self) -> bool
        ensures won { IsTrue result ↔ IsWon self.now }
        ensures well_formed { IsWellFormed R.game self.now }
    {
        self.heights.iter().all(|height| height.get() == 13)
    }

    /// How many cells hold nothing.
    pub fn empty_cells(&self) -> usize
        ensures count { result ≡ empty_cells_of self.now }
        ensures well_formed { IsWellFormed R.game self.now }
    {
        count_empty_cells(&self.cells[..R::CELLS])
    }

    /// How many columns have no card.
    pub fn empty_columns(&self) -> usize
        ensures count { result ≡ empty_columns_of self.now }
        ensures well_formed { IsWellFormed R.game self.now }
    {
        self.columns.count_empty()
    }
}

/// Eight columns without cards, on which cards are then put.
pub fn no_cards() -> [ArrayVec<Card, 52>; 8]
    ensures { result ≡ replicate 8 (record { items = [] }) }
{
    [(); 8].map(|()| ArrayVec::new())
}

fn count_empty_cells(cells: &[Option<Card>]) -> usize
    ensures { result ≡ count_by is_none cells.now }
{
    let mut count = 0;
    for cell in cells {
        if cell.is_none() {
            count += 1;
        }
    }
    count
}

fn copied_cells(cells: &[Option<Card>; 8]) -> [Option<Card>; 8]
    ensures { result ≡ cells.now }
{
    let [a, b, c, d, e, f, g, h] = *cells;
    [a, b, c, d, e, f, g, h]
}
