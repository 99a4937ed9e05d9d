//! Boards as they are printed, whose cards may be renamed.
ghost use Rattle.std.specs.Prelude.{◌++◌, ◌<◌, ◌≡◌, ◌≤◌, length, map, OnOk, slice_index, take};
ghost use Rattle.fc_board.specs.{Boards.{IsWellFormed}, inside.{board_of_laid}};
ghost use Rattle.fc_board.specs.{Passages.{renamed_column}, Steps.{column_at}};
ghost use Rattle.fc_text.specs.{Printed.{text_of}, writer.{IsPrintable}};

use crate::card_images::CardImages;
use crate::writer::{BoardText, put_board};
use fc_board::{Board, Height, Rule};
use fc_card::{Card, Renaming};
use std::alloc::AllocError;
use std::marker::{Model, PhantomData};

/// A board of the game `R` as it is printed, which contracts see as the board: its heights, its
/// cells, and columns of another board whose cards are renamed.
#[derive(Drop)]
pub struct BoardView<'a, R: Rule> {
    heights: [Height; 4],
    cells: [Option<Card>; 8],
    columns: [&'a [Card]; 8],
    images: CardImages,
    rule: PhantomData<R>,
}

impl<'a, R: Rule> Model for BoardView<'a, R> {
    ghost use Rattle.{fc_text.specs.writer.{IsPrintable}, std.specs.Prelude.{map}};
    ghost use Rattle.fc_board.specs.{Boards.{Board as Layout}, inside.{board_of_laid}};
    ghost use Rattle.fc_board.specs.Passages.{renamed_column};

    ghost Value = { Layout };

    ghost view = { λ view. board_of_laid R.CELLS view.heights view.cells
        (map (λ column. renamed_column view.images column.now) view.columns) };

    ghost invariant = { λ view. IsPrintable (board_of_laid R.CELLS view.heights view.cells
        (map (λ column. renamed_column view.images column.now) view.columns)) };
}

impl<'a, R: Rule> BoardView<'a, R> {
    /// The board as it is.
    #[inline(always)]
    pub fn of(board: &'a Board<R>) -> BoardView<'a, R>
        ensures board { result ≡ board.now }
        ensures well_formed { IsWellFormed R.game board.now }
    {
        let heights = *board.heights();
        BoardView::of_parts(heights, cells_of(board), columns_of(board))
    }

    /// The board with these heights of C D H S, these cells and these columns.
    #[inline(always)]
    pub fn of_parts(
        heights: [Height; 4],
        cells: [Option<Card>; 8],
        columns: [&'a [Card]; 8],
    ) -> BoardView<'a, R>
        requires printable { IsPrintable (board_of_laid R.CELLS heights cells
            (map (λ column. column.now) columns)) }
        ensures board { result ≡ board_of_laid R.CELLS heights cells
            (map (λ column. column.now) columns.entry) }
    {
        BoardView {
            heights,
            cells,
            columns,
            images: CardImages::identity(),
            rule: PhantomData,
        }
    }

    /// The board with these heights of C D H S and these cells, and with these columns renamed.
    #[inline(always)]
    pub fn renamed(
        heights: [Height; 4],
        cells: [Option<Card>; 8],
        columns: [&'a [Card]; 8],
        renaming: Renaming,
    ) -> BoardView<'a, R>
        requires printable { IsPrintable (board_of_laid R.CELLS heights cells
            (map (λ column. renamed_column renaming column.now) columns)) }
        ensures board { result ≡ board_of_laid R.CELLS heights cells
            (map (λ column. renamed_column renaming column.now) columns.entry) }
    {
        BoardView {
            heights,
            cells,
            columns,
            images: CardImages::of(renaming),
            rule: PhantomData,
        }
    }

    /// The heights of the foundations of C D H S.
    pub fn heights(&self) -> &[Height; 4]
        ensures value { result.now ≡ self.now.heights }
        ensures printable { IsPrintable self.now }
    {
        &self.heights
    }

    /// What the cells of the game hold, in their order.
    pub fn cells(&self) -> &[Option<Card>]
        ensures value { result.now ≡ self.now.cells }
        ensures few { length result.now ≤ 8 }
        ensures printable { IsPrintable self.now }
    {
        &self.cells[..R::CELLS]
    }

    /// The column with this index from 0.
    pub fn column(&self, i: usize) -> ColumnView<'_>
        requires { i < 8 }
        ensures value { result ≡ column_at self.now i }
        ensures printable { IsPrintable self.now }
    {
        let columns = &self.columns[..];
        ColumnView {
            cards: columns[i],
            images: &self.images,
        }
    }

    /// The printed text.
    pub fn text(&self) -> BoardText
        ensures { result.items ≡ text_of self.now }
    {
        let mut text = BoardText::from([0; 256]);
        let end = put_board(text.as_mut_slice(), self);
        text.truncate(end);
        text
    }

    /// Puts the printed text after this one.
    pub fn push_to(&self, text: &mut Vec<u8>) -> Result<(), AllocError>
        ensures printed { OnOk result (text.new.items ≡ text.old.items ++ text_of self.now) }
    {
        let start = text.len();
        text.resize(start + 256, 0)?;
        let end = put_board(&mut text.as_mut_slice()[start..], self);
        text.truncate(start + end);
        Ok(())
    }
}

/// A column as it is printed, which contracts see as the list of its renamed cards.
#[derive(Drop)]
pub struct ColumnView<'a> {
    cards: &'a [Card],
    images: &'a CardImages,
}

impl<'a> Model for ColumnView<'a> {
    ghost use Rattle.{fc_board.specs.Passages.{renamed_column}, std.specs.Prelude.{List, ℕ}};

    ghost Value = { List ℕ };

    ghost view = { λ column. renamed_column column.images.now column.cards.now };
}

impl ColumnView<'_> {
    /// How many cards the column has.
    pub fn len(&self) -> usize
        ensures { result ≡ length self.now }
    {
        self.cards.len()
    }

    /// The renamed card at this place.
    pub fn card(&self, place: usize) -> Card
        requires { place < length self.now }
        ensures { result ≡ slice_index self.now place }
    {
        self.images.image(self.cards[place])
    }
}

fn cells_of<R: Rule>(board: &Board<R>) -> [Option<Card>; 8]
    ensures { take R.CELLS result ≡ board.now.cells }
{
    let mut cells = [None; 8];
    cells[..R::CELLS].copy_from_slice(board.cells());
    cells
}

fn columns_of<R: Rule>(board: &Board<R>) -> [&[Card]; 8]
    ensures columns { map (λ column. column.now) result ≡ board.now.columns }
    ensures well_formed { IsWellFormed R.game board.now }
{
    [
        board.column(0),
        board.column(1),
        board.column(2),
        board.column(3),
        board.column(4),
        board.column(5),
        board.column(6),
        board.column(7),
    ]
}
