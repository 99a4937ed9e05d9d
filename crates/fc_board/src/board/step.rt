//! Moves of one card on a board.
ghost use Rattle.std.specs.Prelude.{◌↔◌, ◌≡◌, IfErr, IfOk, is_none, IsOk, List, Some, ℕ};
ghost use Rattle.fc_board.specs.{Boards.{IsWellFormed}, Games.{eight_off}};
ghost use Rattle.fc_board.specs.inside.{board_with, HasCard, HasRoomAt};
ghost use Rattle.fc_board.specs.{Moves.{Fits, PlaceFits, SourceFits}, Steps.{card_at}};
ghost use Rattle.fc_board.specs.Steps.{column_refusal, fault_unless, is_same_pile, place_refusal};
ghost use Rattle.fc_board.specs.Steps.{put_on, refusal, Step, taken_from};

use super::Board;
use crate::{Columns, Height, Move, Place, Rule, Source, StepFault};
use fc_card::Card;

impl<R: Rule> Board<R> {
    /// Moves one card, or returns the first reason of `StepFault` for which the game refuses the
    /// move; the board is then as it was. It is a part of each loop that calls it, which then need
    /// not put a move together and take it apart again.
    #[inline(always)]
    pub fn step(&mut self, mv: Move) -> Result<(), StepFault>
        requires fits { Fits R.game mv }
        ensures step { IfOk result (λ _. Step R.game self.old mv self.new) }
        ensures allowed { IsOk result ↔ (refusal R.game self.old mv ≡ None) }
        ensures refused { IfErr result (λ fault. refusal R.game self.old mv ≡ Some fault) }
        ensures unchanged { IfErr result (λ _. self.new ≡ self.old) }
        ensures well_formed { IsWellFormed R.game self.new }
    {
        if let Some(fault) = self.refusal(mv) {
            return Err(fault);
        }
        self.step_allowed(mv);
        Ok(())
    }

    /// Moves one card as `step` does, where the game is known to allow the move: no test is made
    /// again.
    #[inline(always)]
    pub fn step_allowed(&mut self, mv: Move)
        requires fits { Fits R.game mv }
        requires allowed { refusal R.game self.old mv ≡ None }
        ensures step { Step R.game self.old mv self.new }
        ensures well_formed { IsWellFormed R.game self.new }
    {
        let Some(card) = self.card_at(mv.from) else {
            unreachable!();
        };
        take_off(&mut self.cells, &mut self.columns, mv.from);
        put_on(
            &mut self.heights,
            &mut self.cells,
            &mut self.columns,
            card,
            mv.to,
        );
    }

    /// Whether the game allows the move.
    pub fn allows(&self, mv: Move) -> bool
        requires fits { Fits R.game mv }
        ensures allowed { result ≡ is_none (refusal R.game self.now mv) }
    {
        self.refusal(mv).is_none()
    }

    /// Why the game refuses the move.
    #[inline(always)]
    pub(super) fn refusal(&self, mv: Move) -> Option<StepFault>
        requires { Fits R.game mv }
        ensures value { result ≡ refusal R.game self.now mv }
        ensures well_formed { IsWellFormed R.game self.now }
    {
        let found = self.card_at(mv.from);
        if is_same_pile(mv.from, mv.to) {
            return Some(StepFault::SamePile);
        }
        match found {
            Some(card) => self.place_refusal(card, mv.to),
            None => Some(StepFault::EmptySource),
        }
    }

    /// The card that can be taken from here: the last one of the column, or the one in the cell.
    #[inline(always)]
    pub fn card_at(&self, source: Source) -> Option<Card>
        requires { SourceFits R.game source }
        ensures value { result ≡ card_at self.now source }
        ensures well_formed { IsWellFormed R.game self.now }
    {
        match source {
            Source::Column(column) => self.columns.column(usize::from(column)).last().copied(),
            Source::Cell(cell) => self.cells[usize::from(cell)],
        }
    }

    /// Why the card cannot go here. Who tries many moves of one card looks for the card once, and
    /// then asks the places alone.
    pub fn place_refusal(&self, card: Card, place: Place) -> Option<StepFault>
        requires { PlaceFits R.game place }
        ensures { result ≡ place_refusal R.game self.now card place }
    {
        match place {
            Place::Column(column) => {
                let last = self.columns.column(usize::from(column)).last().copied();
                column_refusal::<R>(card, last)
            }
            Place::Cell(cell) => {
                let held = self.cells[usize::from(cell)];
                fault_unless(held.is_none(), StepFault::TargetTaken)
            }
            Place::Home => {
                let height = self.heights[usize::from(card.suit().number())].get();
                fault_unless(height + 1 == card.rank().number(), StepFault::NotNext)
            }
        }
    }
}

/// Whether the source and the target are one pile.
fn is_same_pile(source: Source, place: Place) -> bool
    ensures { result ≡ is_same_pile source place }
{
    match (source, place) {
        (Source::Column(column), Place::Column(other)) => column == other,
        (Source::Cell(cell), Place::Cell(other)) => cell == other,
        _ => false,
    }
}

/// Why a column with this last card, or without one, does not take the card.
fn column_refusal<R: Rule>(card: Card, last: Option<Card>) -> Option<StepFault>
    ensures { result ≡ column_refusal R.game card last }
{
    match last {
        None => fault_unless(R::fills_empty(card), StepFault::KingsOnly),
        Some(last) => fault_unless(R::builds(card, last), StepFault::NotBuilding),
    }
}

/// This fault, unless the test holds.
fn fault_unless(test: bool, fault: StepFault) -> Option<StepFault>
    ensures { result ≡ fault_unless test fault }
{
    if test { None } else { Some(fault) }
}

/// Takes the card off that can be taken from here. Of the eight cells a game has the first ones;
/// Eight Off has them all.
fn take_off(cells: &mut [Option<Card>; 8], columns: &mut Columns, source: Source)
    requires fits { SourceFits eight_off source }
    requires card { HasCard columns.old source }
    ensures { (heights : List ℕ)
        → board_with heights cells.new columns.new
        ≡ taken_from (board_with heights cells.old columns.old) source }
{
    match source {
        Source::Column(column) => columns.take_off(usize::from(column), 1),
        Source::Cell(cell) => cells[usize::from(cell)] = None,
    }
}

/// Puts the card on this place. Its foundation is then as high as its rank says.
fn put_on(
    heights: &mut [Height; 4],
    cells: &mut [Option<Card>; 8],
    columns: &mut Columns,
    card: Card,
    place: Place,
)
    requires fits { PlaceFits eight_off place }
    requires room { HasRoomAt (board_with heights.old cells.old columns.old) card place }
    ensures { board_with heights.new cells.new columns.new
        ≡ put_on (board_with heights.old cells.old columns.old) card place }
{
    match place {
        Place::Column(column) => columns.put_on(usize::from(column), &[card]),
        Place::Cell(cell) => cells[usize::from(cell)] = Some(card),
        Place::Home => {
            heights[usize::from(card.suit().number())] = Height::up_to(card.rank());
        }
    }
}
