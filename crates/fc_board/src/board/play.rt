//! Lists of moves on a board, of one card and of several.
ghost use Rattle.std.specs.Prelude.{◌↔◌, ◌≡◌, All, IfErr, IfOk, IsOk, List, Option, Some, take};
ghost use Rattle.fc_board.specs.{Boards.{Board as Layout, IsWellFormed}, Games.{Game}};
ghost use Rattle.fc_board.specs.Moves.{Fits, OneCard, RunFits, Runs};
ghost use Rattle.fc_board.specs.Play.{Legal, Played, Plays, RefusedAt, Stops};
ghost use Rattle.fc_board.specs.Steps.{refusal, run_refusal, RunStep, Step};
ghost use Rattle.fc_board.specs.declared.fault.StepFault.{StepFault as Reason};

use super::Board;
use crate::{Move, PlayFault, Rule, RunMove, StepFault};

/// What a board can play: a move of one card, or one of several.
pub trait Playable: Copy {
    ghost fits_game: { Game → Self → Type 0 };

    ghost leads: { Game → Layout → Self → Layout → Type 0 };

    ghost reason: { Game → Layout → Self → Option Reason };

    /// Makes the move, or returns the first reason for which the game refuses it; the board is then
    /// as it was.
    fn step_on<R: Rule>(self, board: &mut Board<R>) -> Result<(), StepFault>
        requires fits { fits_game R.game self }
        ensures step { IfOk result (λ _. leads R.game board.old self board.new) }
        ensures refused { IfErr result (λ fault. reason R.game board.old self ≡ Some fault) }
        ensures unchanged { IfErr result (λ _. board.new ≡ board.old) }
        ensures well_formed { IsWellFormed R.game board.new };
}

impl Playable for Move {
    ghost fits_game = { Fits };

    ghost leads = { Step };

    ghost reason = { refusal };

    #[inline(always)]
    fn step_on<R: Rule>(self, board: &mut Board<R>) -> Result<(), StepFault> {
        board.step(self)
    }
}

impl Playable for RunMove {
    ghost fits_game = { RunFits };

    ghost leads = { RunStep };

    ghost reason = { run_refusal };

    fn step_on<R: Rule>(self, board: &mut Board<R>) -> Result<(), StepFault> {
        board.step_run(self)
    }
}

impl<R: Rule> Board<R> {
    /// Plays the moves one after another, or returns the first that the game refuses, and why; the
    /// board is then the one after the moves before it.
    pub fn play(&mut self, moves: &[Move]) -> Result<(), PlayFault>
        requires fits { All (Fits R.game) moves.now }
        ensures played { IfOk result (λ _. Plays R.game self.old (OneCard moves.now) self.new) }
        ensures legal { IsOk result ↔ Legal R.game self.old (OneCard moves.now) }
        ensures refused { IfErr result
            (λ fault. RefusedAt R.game self.old (OneCard moves.now) fault.index fault.fault) }
        ensures played_before { IfErr result
            (λ fault. Plays R.game self.old (OneCard (take fault.index moves.now)) self.new) }
        ensures well_formed { IsWellFormed R.game self.new }
    {
        self.play_list(moves)
    }

    /// The same of moves of several cards.
    pub fn play_runs(&mut self, runs: &[RunMove]) -> Result<(), PlayFault>
        requires fits { All (RunFits R.game) runs.now }
        ensures played { IfOk result (λ _. Plays R.game self.old (Runs runs.now) self.new) }
        ensures legal { IsOk result ↔ Legal R.game self.old (Runs runs.now) }
        ensures refused { IfErr result
            (λ fault. RefusedAt R.game self.old (Runs runs.now) fault.index fault.fault) }
        ensures played_before { IfErr result
            (λ fault. Plays R.game self.old (Runs (take fault.index runs.now)) self.new) }
        ensures well_formed { IsWellFormed R.game self.new }
    {
        self.play_list(runs)
    }

    /// The same of moves of either kind.
    pub fn play_list<M: Playable>(&mut self, moves: &[M]) -> Result<(), PlayFault>
        requires fits { All (M.fits_game R.game) moves.now }
        ensures played { IfOk result (λ _. Played (M.leads R.game) self.old moves.now self.new) }
        ensures refused { IfErr result
            (λ fault. Stops (M.leads R.game) (M.fits_game R.game) (M.reason R.game)
            self.old moves.now fault.index fault.fault) }
        ensures played_before { IfErr result
            (λ fault. Played (M.leads R.game) self.old (take fault.index moves.now) self.new) }
        ensures well_formed { IsWellFormed R.game self.new }
    {
        // The board is well formed before the first move too.
        let _ = &self.heights;
        for (index, mv) in moves.iter().enumerate() {
            if let Err(fault) = mv.step_on(self) {
                return Err(PlayFault { index, fault });
            }
        }
        Ok(())
    }
}
