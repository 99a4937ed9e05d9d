//! Moves of several cards in three bytes.
ghost use Rattle.std.specs.Prelude.{◌≡◌, IfSome, IsNone};
ghost use Rattle.fc_board.specs.{declared.run_move.RunMove.{RunMove as Run}, Moves.{RunFits}};
ghost use Rattle.fc_bytes.specs.{HoldsRun, inside.{count_decoded, run_decoded}};

use fc_board::{Move, Place, Rule, RunMove, Source};
use fc_text::{source_character, source_named, target_character, target_named};

/// A move of several cards in three bytes: its two characters in standard notation, in lower case,
/// and how many cards it says, 1 to 13, or 0 where it says no number.
#[repr(C)]
#[derive(Clone, Copy, PartialEq, Eq, Default)]
pub struct RunBytes {
    /// What the cards are taken from: `1` to `8`, or one of `a b c d e f g k`.
    pub from: u8,
    /// What they are put on: one of these, or `h`.
    pub to: u8,
    /// How many cards go from column to column, if the move says it.
    pub count: u8,
}

impl RunBytes {
    /// The bytes of the move.
    pub fn of<R: Rule>(run: RunMove) -> RunBytes
        requires { RunFits R.game run }
        ensures { HoldsRun R.game result run }
    {
        match run {
            RunMove::One(mv) => RunBytes {
                from: source_character(mv.from),
                to: target_character(mv.to),
                count: 0,
            },
            RunMove::Run { from, to, count } => RunBytes {
                from: source_character(Source::Column(from)),
                to: target_character(Place::Column(to)),
                count: count.unwrap_or(0),
            },
        }
    }

    /// The move of `R` that the bytes hold, or `None` where they hold none.
    pub fn run<R: Rule>(self) -> Option<RunMove>
        ensures run { IfSome result (HoldsRun R.game self) }
        ensures no_run { IsNone result → (run : Run) → ¬ HoldsRun R.game self run }
    {
        let from = source_named::<R>(self.from)?;
        let to = target_named::<R>(self.to)?;
        run_decoded(from, to, self.count)
    }
}

/// The move between these piles with so many cards, where there is one.
fn run_decoded(from: Source, to: Place, count: u8) -> Option<RunMove>
    ensures { result ≡ run_decoded from to count }
{
    match (from, to) {
        (Source::Column(from), Place::Column(to)) if count <= 13 => Some(RunMove::Run {
            from,
            to,
            count: count_decoded(count),
        }),
        (Source::Column(_), Place::Column(_)) => None,
        (from, to) if count == 0 => Some(RunMove::One(Move { from, to })),
        _ => None,
    }
}

/// The number that the byte says, if it is one.
fn count_decoded(byte: u8) -> Option<u8>
    ensures { result ≡ count_decoded byte }
{
    if byte == 0 { None } else { Some(byte) }
}
