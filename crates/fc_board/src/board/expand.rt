//! The moves of one card that a move of several is short for.
ghost use Rattle.std.specs.Prelude.{◌↔◌, ◌≡◌, IfErr, IfOk, IsOk, None, Some};
ghost use Rattle.fc_board.specs.{Boards.{IsWellFormed}, Moves.{RunFits}};
ghost use Rattle.fc_board.specs.{Play.{Expands, expansion_of}, Steps.{run_refusal}};
ghost use Rattle.fc_board.specs.declared.run_move.RunMove.TheVariants.{One, Run};

use super::Board;
use crate::{Move, Rule, RunMove, StepFault, put_expansion};
use arrayvec::ArrayVec;

impl<R: Rule> Board<R> {
    /// The moves of one card, one after another, that do what the move does, or the reason for
    /// which the game refuses it.
    pub fn expand(&self, mv: RunMove) -> Result<ArrayVec<Move, 49>, StepFault>
        requires fits { RunFits R.game mv }
        ensures moves { IfOk result (λ moves. moves.items ≡ expansion_of R.game self.now mv) }
        ensures expands { IfOk result (λ moves. Expands R.game self.now mv moves.items) }
        ensures allowed { IsOk result ↔ (run_refusal R.game self.now mv ≡ None) }
        ensures refused { IfErr result (λ fault. run_refusal R.game self.now mv ≡ Some fault) }
        ensures well_formed { IsWellFormed R.game self.now }
    {
        let _ = &self.heights;
        match mv {
            RunMove::One(mv) => self.expand_one(mv),
            RunMove::Run { from, to, count } => self.expand_run(from, to, count),
        }
    }

    /// A move of one card is its own expansion.
    fn expand_one(&self, mv: Move) -> Result<ArrayVec<Move, 49>, StepFault>
        requires { RunFits R.game (One mv) }
        ensures moves { IfOk result (λ moves. moves.items ≡ expansion_of R.game self.now (One mv)) }
        ensures allowed { IfOk result (λ _. run_refusal R.game self.now (One mv) ≡ None) }
        ensures refused { IfErr result
            (λ fault. run_refusal R.game self.now (One mv) ≡ Some fault) }
    {
        if let Some(fault) = self.refusal(mv) {
            return Err(fault);
        }
        let mut moves = ArrayVec::new();
        moves.push(mv);
        Ok(moves)
    }

    fn expand_run(
        &self,
        from: u8,
        to: u8,
        said: Option<u8>,
    ) -> Result<ArrayVec<Move, 49>, StepFault>
        requires { RunFits R.game (Run from to said) }
        ensures moves { IfOk result
            (λ moves. moves.items ≡ expansion_of R.game self.now (Run from to said)) }
        ensures allowed { IfOk result
            (λ _. run_refusal R.game self.now (Run from to said) ≡ None) }
        ensures refused { IfErr result
            (λ fault. run_refusal R.game self.now (Run from to said) ≡ Some fault) }
    {
        let _ = &self.heights;
        let count = self.run_count(from, to, said)?;
        let cells = self.free_cells();
        let columns = self.spare_columns(to);
        let mut moves = ArrayVec::new();
        put_expansion(
            &mut moves,
            cells.as_slice(),
            count,
            from,
            to,
            columns.as_slice(),
        );
        Ok(moves)
    }
}
