//! How often each card of the deck is on a board, and what is wrong with the deck.
ghost use Rattle.std.specs.{List.{flat_map}, Option.{option_to_list}};
ghost use Rattle.std.specs.Prelude.{◌++◌, All, List, MatchOption, slice_index, ℕ};
ghost use Rattle.fc_card.specs.{AreCountsOf, Counts, CountsEachOnce, IsCard};
ghost use Rattle.fc_board.specs.Boards.{IsFaultOf, IsHeight};
ghost use Rattle.fc_board.specs.inside.{CountsHome, EachOnce, times_on_board};

use crate::{DeckFault, Height};
use arrayvec::ArrayVec;
use fc_card::{Card, CardSet, Suit};

/// What is wrong with the deck where these are the heights of the foundations of C D H S, the
/// cells, and the cards in the columns.
#[inline(always)]
pub fn deck_fault(
    heights: &[Height; 4],
    cells: &[Option<Card>; 8],
    in_columns: CardSet,
) -> Option<DeckFault>
    ensures fault { (cards : List ℕ) → AreCountsOf in_columns cards → MatchOption result
        (EachOnce heights.now (flat_map option_to_list cells.now ++ cards))
        (IsFaultOf (times_on_board heights.now (flat_map option_to_list cells.now ++ cards))) }
    ensures heights { All IsHeight heights.now }
    ensures cells { All IsCard (flat_map option_to_list cells.now) }
{
    let mut all = in_columns;
    count_home(&mut all, heights);
    count_cells(&mut all, cells);
    fault_of(&all)
}

/// How often each card is in the columns.
pub fn cards_of_columns(columns: &[ArrayVec<Card, 52>; 8]) -> CardSet
    ensures { AreCountsOf result (flat_map (λ column. column.items) columns.now) }
{
    let mut cards = CardSet::new();
    for column in columns {
        cards.insert_all(column.as_slice());
    }
    cards
}

/// Counts the cards on foundations of C D H S with these heights.
#[inline(always)]
fn count_home(cards: &mut CardSet, heights: &[Height; 4])
    ensures counted { CountsHome cards.old cards.new heights.now }
    ensures heights { All IsHeight heights.now }
{
    let [clubs, diamonds, hearts, spades] = heights;
    cards.insert_up_to(Suit::C, clubs.get());
    cards.insert_up_to(Suit::D, diamonds.get());
    cards.insert_up_to(Suit::H, hearts.get());
    cards.insert_up_to(Suit::S, spades.get());
}

/// Counts the cards in the cells.
#[inline(always)]
fn count_cells(cards: &mut CardSet, cells: &[Option<Card>; 8])
    ensures counted { Counts cards.old cards.new (flat_map option_to_list cells.now) }
    ensures in_deck { All IsCard (flat_map option_to_list cells.now) }
{
    for cell in cells {
        if let Some(card) = cell {
            cards.insert(*card);
        }
    }
}

/// What is wrong with a deck in which each card is there as often as it was counted, or `None`
/// where each was counted once.
#[inline(always)]
fn fault_of(cards: &CardSet) -> Option<DeckFault>
    ensures { MatchOption result (CountsEachOnce cards.now) (IsFaultOf (slice_index cards.now)) }
{
    if cards.is_whole() {
        return None;
    }
    if let Some(repeated) = cards.lowest_repeated() {
        return Some(DeckFault::RepeatedCard(repeated));
    }
    let missing = cards.lowest_missing()?;
    Some(DeckFault::MissingCard(missing))
}
