//! The bytes of boards that passages lead to, without a board of their own.
ghost use Rattle.std.specs.{List.{flat_map}, Prelude.{◌<◌, ◌≡◌, ◌≤◌, All, length, map}};
ghost use Rattle.fc_card.specs.{IsCode, pick, places};
ghost use Rattle.fc_board.specs.{Boards.{IsWellFormed}, Passages.{carried}, Steps.{column_at}};
ghost use Rattle.fc_bytes.specs.{cell_byte, HoldsBoard, inside.{card_byte}, padded};

use crate::BoardBytes;
use crate::laid::{bytes_before, bytes_of_laid, put_in_order};
use fc_board::{Board, Height, Rule};
use fc_canon::Passage;
use fc_card::{Card, rename_lanes};
use fc_text::BoardView;

impl BoardBytes {
    /// The bytes of the board that the passage leads to.
    pub fn of_carried<R: Rule>(passage: &Passage<R>, board: &Board<R>) -> BoardBytes
        ensures { HoldsBoard R.game result (carried passage.now board.now) }
    {
        let view = passage.view(board);
        let (lengths, cards) = carried_columns(passage, board);
        BoardBytes {
            heights: numbers_of(view.heights()),
            cells: bytes_of(view.cells()),
            lengths,
            cards,
        }
    }
}

fn numbers_of(heights: &[Height; 4]) -> [u8; 4]
    ensures { result ≡ heights.now }
{
    let [clubs, diamonds, hearts, spades] = *heights;
    [clubs.get(), diamonds.get(), hearts.get(), spades.get()]
}

/// The bytes of the cells, and 0 after them.
fn bytes_of(cells: &[Option<Card>]) -> [u8; 8]
    requires { length cells.now ≤ 8 }
    ensures { result ≡ padded 8 (map cell_byte cells.now) }
{
    let mut bytes = [0; 8];
    for place in 0..cells.len() {
        bytes[place] = byte_of(cells[place]);
    }
    bytes
}

pub(crate) fn byte_of(cell: Option<Card>) -> u8
    ensures byte { result ≡ cell_byte cell }
    ensures within { result ≤ 52 }
{
    match cell {
        Some(card) => card.number() + 1,
        None => 0,
    }
}

/// How many cards the columns have in their new order, and the cards. All are renamed at once.
fn carried_columns<R: Rule>(passage: &Passage<R>, board: &Board<R>) -> ([u8; 8], [u8; 52])
    ensures lengths { result.0 ≡ map length (carried passage.now board.now).columns }
    ensures cards { result.1
        ≡ padded 52 (flat_map (map card_byte) (carried passage.now board.now).columns) }
{
    let (cards, bounds) = board.laid();
    let mut from = bytes_of_laid(cards);
    rename_lanes(&passage.renaming(), &mut from);
    let mut to = [0; 80];
    let mut lengths = [0; 8];
    let end = put_in_order(&mut to, &mut lengths, &from, bounds, passage.columns());
    (lengths, bytes_before(&to, end as u8))
}
