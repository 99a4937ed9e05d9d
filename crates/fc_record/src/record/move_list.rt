//! Lists of moves, as the lines of records hold them.
ghost use Rattle.std.specs.Prelude.{◌++◌, ◌↔◌, ◌≡◌, All, IfErr, IfOk, IsOk, OnOk, Some};
ghost use Rattle.fc_board.specs.{Boards.{IsWellFormed}, Games.{eight_off}, Moves.{Fits}};
ghost use Rattle.fc_board.specs.Moves.{list_image, ListFits, move_count, OneCard, RunFits, Runs};
ghost use Rattle.fc_board.specs.Play.{expansion_of, Legal, list_verdict, Plays, RefusedAt};
ghost use Rattle.fc_board.specs.Steps.{run_refusal, RunStep};
ghost use Rattle.fc_text.specs.Notation.{print};
ghost use Rattle.fc_record.specs.{inside.{Expanded, verdict_of}, Printing.{marks_of}};
ghost use Rattle.fc_record.specs.Tables.{is_win};

use fc_board::{Board, Move, PlayFault, Rule, RunMove, StepFault};
use fc_canon::Passage;
use fc_text::{push_moves, push_runs};
use std::alloc::{AllocError, Global};
use std::marker::Model;

/// A list of moves of one card, or of moves of several. Contracts see the list.
#[derive(Drop)]
pub struct MoveList {
    form: Form,
}

/// The moves, by what a line holds.
#[derive(Drop)]
pub enum Form {
    /// Moves of one card, after one mark.
    OneCard(Vec<Move>),
    /// Moves of several cards, after two marks.
    Runs(Vec<RunMove>),
}

impl Model for MoveList {
    ghost use Rattle.fc_board.specs.Moves.{MoveList as SaidList};
    ghost use Rattle.fc_record.specs.inside.Fitting.{list_seen};

    ghost Value = { SaidList };

    ghost view = { λ list. list_seen list.form };
}

impl MoveList {
    /// The list of these moves of one card.
    pub fn one_card(moves: Vec<Move>) -> MoveList
        ensures { result ≡ OneCard moves.items }
    {
        MoveList {
            form: Form::OneCard(moves),
        }
    }

    /// The list of these moves of several cards.
    pub fn runs(moves: Vec<RunMove>) -> MoveList
        ensures { result ≡ Runs moves.items }
    {
        MoveList {
            form: Form::Runs(moves),
        }
    }

    /// How many moves it has.
    pub fn len(&self) -> usize
        ensures { result ≡ move_count self.now }
    {
        match &self.form {
            Form::OneCard(moves) => moves.len(),
            Form::Runs(moves) => moves.len(),
        }
    }

    /// Whether the list wins from the board, or which of its moves is refused.
    pub fn play<R: Rule>(&self, board: &Board<R>) -> Result<bool, PlayFault>
        requires { ListFits R.game self.now }
        ensures verdict { verdict_of result ≡ list_verdict R.game board.now self.now }
        ensures legal { IsOk result ↔ Legal R.game board.now self.now }
        ensures well_formed { IsWellFormed R.game board.now }
    {
        let mut after = board.copy();
        match self.play_on(&mut after) {
            Ok(()) => Ok(after.is_won()),
            Err(fault) => Err(fault),
        }
    }

    // Plays the list on this very board, up to the move that the game refuses, if there is one.
    fn play_on<R: Rule>(&self, board: &mut Board<R>) -> Result<(), PlayFault>
        requires { ListFits R.game self.now }
        ensures played { IfOk result (λ _. Plays R.game board.old self.now board.new) }
        ensures legal { IsOk result ↔ Legal R.game board.old self.now }
        ensures refused { IfErr result
            (λ fault. RefusedAt R.game board.old self.now fault.index fault.fault) }
    {
        match &self.form {
            Form::OneCard(moves) => board.play(moves.as_slice()),
            Form::Runs(moves) => board.play_runs(moves.as_slice()),
        }
    }

    /// Whether the list is legal from the board and wins.
    pub fn wins<R: Rule>(&self, board: &Board<R>) -> bool
        requires fits { ListFits R.game self.now }
        ensures { result ≡ is_win (list_verdict R.game board.now self.now) }
    {
        match self.play(board) {
            Ok(is_won) => is_won,
            Err(_) => false,
        }
    }

    /// The list of moves of one card that this one is short for on the board, or which of its moves
    /// the board refuses.
    pub fn expand<R: Rule>(
        &self,
        alloc: Global,
        board: &Board<R>,
    ) -> Result<Result<MoveList, PlayFault>, AllocError>
        requires { ListFits R.game self.now }
        ensures expanded { IfOk result (Expanded R.game board.now self.now) }
        ensures fits { IfOk result (λ made. IfOk made (ListFits R.game)) }
    {
        match &self.form {
            Form::OneCard(moves) => self.expand_moves(alloc, board, moves.as_slice()),
            Form::Runs(moves) => expand_runs(alloc, board, moves.as_slice()),
        }
    }

    // The list once more, where the game allows it: each move of one card is its own expansion.
    fn expand_moves<R: Rule>(
        &self,
        alloc: Global,
        board: &Board<R>,
        moves: &[Move],
    ) -> Result<Result<MoveList, PlayFault>, AllocError>
        requires fits { ListFits R.game self.now }
        requires one_card { self.now ≡ OneCard moves.now }
        ensures expanded { IfOk result (Expanded R.game board.now self.now) }
        ensures fits { IfOk result (λ made. IfOk made (ListFits R.game)) }
    {
        if let Err(fault) = self.play(board) {
            return Ok(Err(fault));
        }
        let copied = copy_of(alloc, moves)?;
        Ok(Ok(MoveList::one_card(copied)))
    }

    /// The list after the passage.
    pub fn into_image<R: Rule>(self, passage: &Passage<R>) -> MoveList
        requires { ListFits R.game self }
        ensures image { result ≡ list_image passage.now self }
        ensures fits { ListFits R.game result }
    {
        match self.form {
            Form::OneCard(mut moves) => {
                passage.carry_moves(moves.as_mut_slice());
                MoveList::one_card(moves)
            }
            Form::Runs(mut moves) => {
                passage.carry_runs(moves.as_mut_slice());
                MoveList::runs(moves)
            }
        }
    }

    /// The same list once more.
    pub fn copy(&self, alloc: Global) -> Result<MoveList, AllocError>
        ensures { IfOk result (λ copy. copy ≡ self.now) }
    {
        match &self.form {
            Form::OneCard(moves) => Ok(MoveList::one_card(copy_of(alloc, moves.as_slice())?)),
            Form::Runs(moves) => Ok(MoveList::runs(copy_of(alloc, moves.as_slice())?)),
        }
    }

    /// The mark of the list's line: one `>` before moves of one card, two before those of several.
    pub fn marks(&self) -> &'static [u8]
        ensures { result.now ≡ marks_of self.now }
    {
        match &self.form {
            Form::OneCard(_) => b">",
            Form::Runs(_) => b">>",
        }
    }

    /// Prints the moves.
    pub fn push_tokens(&self, out: &mut Vec<u8>) -> Result<(), AllocError>
        requires { ListFits eight_off self.now }
        ensures { OnOk result (out.new.items ≡ out.old.items ++ print self.now) }
    {
        match &self.form {
            Form::OneCard(moves) => push_moves(out, moves.as_slice()),
            Form::Runs(moves) => push_runs(out, moves.as_slice()),
        }
    }
}

fn copy_of<M: Copy>(alloc: Global, moves: &[M]) -> Result<Vec<M>, AllocError>
    ensures { IfOk result (λ copied. copied.items ≡ moves.now) }
{
    let mut copied = Vec::new(alloc);
    copied.extend_from_slice(moves)?;
    Ok(copied)
}

// The list of the moves of one card that these are short for, each on the board that those before
// it leave.
fn expand_runs<R: Rule>(
    alloc: Global,
    board: &Board<R>,
    runs: &[RunMove],
) -> Result<Result<MoveList, PlayFault>, AllocError>
    requires { All (RunFits R.game) runs.now }
    ensures expanded { IfOk result (Expanded R.game board.now (Runs runs.now)) }
    ensures fits { IfOk result (λ made. IfOk made (ListFits R.game)) }
{
    let mut moves = Vec::new(alloc);
    let mut after = board.copy();
    for (index, run) in runs.iter().enumerate() {
        let made = push_step(&mut moves, &mut after, *run)?;
        match made {
            Ok(()) => {}
            Err(fault) => return Ok(Err(PlayFault { index, fault })),
        }
    }
    Ok(Ok(MoveList::one_card(moves)))
}

// Makes a move and appends the moves of one card that it is short for, or returns the reason for
// which the game refuses it. A move of one card is its own expansion, and most moves of a list are
// such.
fn push_step<R: Rule>(
    moves: &mut Vec<Move>,
    board: &mut Board<R>,
    run: RunMove,
) -> Result<Result<(), StepFault>, AllocError>
    requires { RunFits R.game run }
    ensures moves { IfOk result (λ made. OnOk made
        (moves.new.items ≡ moves.old.items ++ expansion_of R.game board.old run)) }
    ensures step { IfOk result (λ made. OnOk made (RunStep R.game board.old run board.new)) }
    ensures refused { IfOk result
        (λ made. IfErr made (λ fault. run_refusal R.game board.old run ≡ Some fault)) }
    ensures well_formed { IsWellFormed R.game board.new }
{
    if let RunMove::One(mv) = run {
        if let Err(fault) = board.step(mv) {
            return Ok(Err(fault));
        }
        moves.push(mv)?;
        return Ok(Ok(()));
    }
    match board.expand(run) {
        Ok(expansion) => moves.extend_from_slice(expansion.as_slice())?,
        Err(fault) => return Ok(Err(fault)),
    }
    Ok(board.step_run(run))
}
