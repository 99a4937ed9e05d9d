//! Moves in two bytes.
ghost use Rattle.{fc_board.specs.Moves.{Fits}, std.specs.Prelude.{IfSome, IsNone}};
ghost use Rattle.{fc_board.specs.declared.moves.Move.{Move as OneCard}, fc_bytes.specs.{HoldsMove}};

use fc_board::{Move, Rule};
use fc_text::{source_character, source_named, target_character, target_named};

/// A move of one card in two bytes: its two characters in standard notation, in lower case.
#[repr(C)]
#[derive(Clone, Copy, PartialEq, Eq, Default)]
pub struct MoveBytes {
    /// What the card is taken from: `1` to `8`, or one of `a b c d e f g k`.
    pub from: u8,
    /// What it is put on: one of these, or `h`.
    pub to: u8,
}

impl MoveBytes {
    /// The bytes of the move.
    pub fn of<R: Rule>(mv: Move) -> MoveBytes
        requires { Fits R.game mv }
        ensures { HoldsMove R.game result mv }
    {
        MoveBytes {
            from: source_character(mv.from),
            to: target_character(mv.to),
        }
    }

    /// The move of `R` that the bytes hold, or `None` where they hold none.
    pub fn one_card<R: Rule>(self) -> Option<Move>
        ensures one_card { IfSome result (HoldsMove R.game self) }
        ensures no_move { IsNone result → (mv : OneCard) → ¬ HoldsMove R.game self mv }
    {
        let from = source_named::<R>(self.from)?;
        let to = target_named::<R>(self.to)?;
        Some(Move { from, to })
    }
}
