//! Moves of several cards on a board.
ghost use Rattle.std.specs.Prelude.{◌<◌, ◌↔◌, ◌≡◌, ◌≢◌, ◌≤◌, [], IfErr, IfOk, is_none, IsOk};
ghost use Rattle.std.specs.Prelude.{length, List, None, Option, Some, ℕ};
ghost use Rattle.fc_board.specs.{Boards.{IsWellFormed}, inside.{board_with, size_of}};
ghost use Rattle.fc_board.specs.{Moves.{IsCount, RunFits}, Steps.{column_at, first_of_last}};
ghost use Rattle.fc_board.specs.Steps.{last_cards, longest_run, matches_stated, moved_count};
ghost use Rattle.fc_board.specs.Steps.{onto_card, onto_nothing, run_count, run_moved, run_refusal};
ghost use Rattle.fc_board.specs.Steps.{RunStep};
ghost use Rattle.fc_board.specs.declared.run_move.RunMove.TheVariants.{Run};

use super::Board;
use crate::{Columns, Rule, RunMove, StepFault};
use arrayvec::ArrayVec;
use fc_card::Card;

impl<R: Rule> Board<R> {
    /// Moves one card, or the last cards of a column in one go, or returns the first reason for
    /// which the game refuses the move; the board is then as it was.
    pub fn step_run(&mut self, mv: RunMove) -> Result<(), StepFault>
        requires fits { RunFits R.game mv }
        ensures step { IfOk result (λ _. RunStep R.game self.old mv self.new) }
        ensures allowed { IsOk result ↔ (run_refusal R.game self.old mv ≡ None) }
        ensures refused { IfErr result (λ fault. run_refusal R.game self.old mv ≡ Some fault) }
        ensures unchanged { IfErr result (λ _. self.new ≡ self.old) }
        ensures well_formed { IsWellFormed R.game self.new }
    {
        let _ = &self.heights;
        match mv {
            RunMove::One(mv) => self.step(mv),
            RunMove::Run { from, to, count } => {
                let count = self.run_count(from, to, count)?;
                take_over(&mut self.columns, from, to, count);
                Ok(())
            }
        }
    }

    /// Whether the game allows the move.
    pub fn allows_run(&self, mv: RunMove) -> bool
        requires fits { RunFits R.game mv }
        ensures allowed { result ≡ is_none (run_refusal R.game self.now mv) }
    {
        match mv {
            RunMove::One(mv) => self.allows(mv),
            RunMove::Run { from, to, count } => self.run_count(from, to, count).is_ok(),
        }
    }

    /// How many cards at the end of the column with this index from 0 are a run, at most.
    pub fn longest_run(&self, column: usize) -> usize
        requires { column < 8 }
        ensures { result ≡ longest_run R.game (column_at self.now column) }
    {
        longest_run::<R>(self.column(column))
    }

    /// How many cards the move takes over, or why the game refuses it.
    pub(super) fn run_count(&self, from: u8, to: u8, said: Option<u8>) -> Result<usize, StepFault>
        requires { RunFits R.game (Run from to said) }
        ensures count { IfOk result (λ count. count ≡ moved_count R.game self.now from to said) }
        ensures allowed { IfOk result
            (λ _. run_refusal R.game self.now (Run from to said) ≡ None) }
        ensures refused { IfErr result
            (λ fault. run_refusal R.game self.now (Run from to said) ≡ Some fault) }
    {
        if from == to {
            return Err(StepFault::SamePile);
        }
        let source = self.column(usize::from(from)).last().copied();
        let card = source.ok_or(StepFault::EmptySource)?;
        match self.column(usize::from(to)).last().copied() {
            Some(last) => self.count_onto_card(from, to, said, card, last),
            None => self.count_onto_nothing(from, to, said),
        }
    }

    /// How many cards go onto a column with this last card, or why they do not.
    fn count_onto_card(
        &self,
        from: u8,
        to: u8,
        said: Option<u8>,
        card: Card,
        last: Card,
    ) -> Result<usize, StepFault>
        requires columns { (from < 8) × (to < 8) }
        ensures count { IfOk result
            (λ count. count ≡ run_count R.game self.now from to said card (Some last)) }
        ensures allowed { IfOk result
            (λ _. onto_card R.game self.now from to said card last ≡ None) }
        ensures refused { IfErr result
            (λ fault. onto_card R.game self.now from to said card last ≡ Some fault) }
    {
        let column = self.column(usize::from(from));
        let low = card.rank().number();
        let high = last.rank().number();
        if low >= high {
            return Err(StepFault::NotBuilding);
        }
        let count = usize::from(high - low);
        if !matches_stated(said, count) {
            return Err(StepFault::WrongCount);
        }
        if count > longest_run::<R>(column) {
            return Err(StepFault::NoRun);
        }
        if !R::builds(first_of_last(column, count), last) {
            return Err(StepFault::NotBuilding);
        }
        if count > usize::from(self.capacity(to)) {
            return Err(StepFault::OverCapacity);
        }
        Ok(count)
    }

    /// How many cards go to an empty column, or why they do not.
    fn count_onto_nothing(&self, from: u8, to: u8, said: Option<u8>) -> Result<usize, StepFault>
        requires columns { (from < 8) × (to < 8) }
        requires said { IsCount said }
        requires some { 1 ≤ length (column_at self.now from) }
        ensures count { IfOk result
            (λ count. (card : ℕ) → count ≡ run_count R.game self.now from to said card None) }
        ensures allowed { IfOk result (λ _. onto_nothing R.game self.now from to said ≡ None) }
        ensures refused { IfErr result
            (λ fault. onto_nothing R.game self.now from to said ≡ Some fault) }
    {
        let column = self.column(usize::from(from));
        let longest = longest_run::<R>(column);
        let most = usize::from(self.capacity(to));
        let count = match said {
            Some(count) => {
                let count = usize::from(count);
                if count > longest {
                    return Err(StepFault::NoRun);
                }
                if count > most {
                    return Err(StepFault::OverCapacity);
                }
                count
            }
            None => longest.min(most),
        };
        if R::fills_empty(first_of_last(column, count)) {
            Ok(count)
        } else {
            Err(StepFault::KingsOnly)
        }
    }
}

/// Takes so many last cards of the one column over to the end of the other, in their order.
fn take_over(columns: &mut Columns, from: u8, to: u8, count: usize)
    requires columns { (from < 8) × (to < 8) × (from ≢ to) }
    requires eight { length columns.old ≡ 8 }
    requires there { count ≤ length (column_at (board_with [] [] columns.old) from) }
    requires room { size_of columns.old ≤ 52 }
    ensures { (heights : List ℕ) (cells : List (Option ℕ))
        → board_with heights cells columns.new
        ≡ run_moved (board_with heights cells columns.old) from to count }
{
    let run = last_cards(columns.column(usize::from(from)), count);
    columns.take_off(usize::from(from), count);
    columns.put_on(usize::from(to), run.as_slice());
}

/// So many last cards of the column.
fn last_cards(column: &[Card], count: usize) -> ArrayVec<Card, 52>
    requires { (count ≤ length column.now) × (length column.now ≤ 52) }
    ensures { result.items ≡ last_cards count column.now }
{
    match ArrayVec::try_from(&column[column.len() - count..]) {
        Ok(cards) => cards,
        Err(_) => unreachable!(),
    }
}

/// How many cards at the end of the column are a run, at most: counted from the last card on.
fn longest_run<R: Rule>(column: &[Card]) -> usize
    ensures { result ≡ longest_run R.game column.now }
{
    for index in (1..column.len()).rev() {
        if !R::builds(column[index], column[index - 1]) {
            return column.len() - index;
        }
    }
    column.len()
}

/// Whether the move says this number or none.
fn matches_stated(said: Option<u8>, count: usize) -> bool
    ensures { result ≡ matches_stated said count }
{
    match said {
        Some(said) => usize::from(said) == count,
        None => true,
    }
}

/// The first one of so many last cards.
fn first_of_last(column: &[Card], count: usize) -> Card
    requires { (1 ≤ count) × (count ≤ length column.now) }
    ensures { result ≡ first_of_last count column.now }
{
    column[column.len() - count]
}
