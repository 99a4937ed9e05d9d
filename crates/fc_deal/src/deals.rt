//! The deals by number.
ghost use Rattle.std.specs.Prelude.{◌↔◌, ◌≡◌, IfOk, IsOk, map, ℕ};
ghost use Rattle.{fc_board.specs.Boards.{IsWellFormed}, fc_card.specs.{count_of, IsCard, places}};
ghost use Rattle.fc_deal.specs.{deal, dealt_board, dealt_column, IsDealNumber};

use crate::shuffle::shuffle_deck;
use arrayvec::ArrayVec;
use fc_board::{BakersGame, Board, FreeCell, Height, Rule, no_cards};
use fc_card::Card;

/// A game that is dealt by number: each card goes to a column. Eight Off is none, since it deals
/// four cards to its cells.
pub trait Numbered: Rule {
    ghost four_cells: { Self.game.cells ≡ 4 };
}

impl Numbered for FreeCell {
    ghost use Rattle.std.specs.Prelude.{refl};

    ghost four_cells = { refl };
}

impl Numbered for BakersGame {
    ghost use Rattle.std.specs.Prelude.{refl};

    ghost four_cells = { refl };
}

/// Why a number is not dealt.
#[derive(Clone, Copy, PartialEq, Eq, Debug)]
pub enum DealFault {
    /// The number is none of 1 to 2,147,483,647.
    OutOfRange,
}

/// The greatest number that is dealt.
const GREATEST_DEAL: u32 = 2_147_483_647;

/// The 52 cards of Microsoft's deal with this number, in the order in which they are dealt, or
/// `OutOfRange` unless the number is 1 to 2,147,483,647.
pub fn deal(number: u32) -> Result<[Card; 52], DealFault>
    ensures in_range { IsOk result ↔ IsDealNumber number }
    ensures cards { IfOk result (λ cards. cards ≡ deal number) }
    ensures each_once { IfOk result (λ cards. (card : ℕ) → IsCard card → count_of card cards ≡ 1) }
{
    if !(1..=GREATEST_DEAL).contains(&number) {
        return Err(DealFault::OutOfRange);
    }
    Ok(shuffle_deck(number))
}

/// The board of Microsoft's deal with this number, on which no cell and no foundation holds a card,
/// or `OutOfRange` unless the number is 1 to 2,147,483,647.
pub fn deal_board<R: Numbered>(number: u32) -> Result<Board<R>, DealFault>
    ensures in_range { IsOk result ↔ IsDealNumber number }
    ensures dealt { IfOk result (λ board. board ≡ dealt_board R.game.cells (deal number)) }
    ensures well_formed { IfOk result (IsWellFormed R.game) }
{
    let columns = columns_of(&deal(number)?);
    let Some(nothing) = Height::new(0) else {
        unreachable!()
    };
    match Board::from_parts([nothing; 4], [None; 8], columns) {
        Ok(board) => Ok(board),
        Err(_) => unreachable!(),
    }
}

/// The columns on which these cards are dealt, row by row.
fn columns_of(cards: &[Card; 52]) -> [ArrayVec<Card, 52>; 8]
    ensures { map (λ column. column.items) result ≡ map (dealt_column cards.now) (places 8) }
{
    let mut columns = no_cards();
    for (place, card) in cards.iter().enumerate() {
        columns[place % 8].push(*card);
    }
    columns
}
