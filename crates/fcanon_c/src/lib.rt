//! The calls for C, and for what links as C does.
//!
//! Each call answers 0 where it did what it says, and else a number that says why not; then what it
//! writes is as it was, except for a place that it names. `fcanon.h` says the same for callers.
#![tactic(auto)]

// Calls the function for the game of this number, or answers that there is no such game.
macro_rules! in_game {
    ($game:expr, $call:ident($($argument:expr),*)) => {
        match $game {
            0 => $call::<fc_board::FreeCell>($($argument),*),
            1 => $call::<fc_board::BakersGame>($($argument),*),
            2 => $call::<fc_board::EightOff>($($argument),*),
            _ => fc_bytes::calls::answers::NO_GAME,
        }
    };
}

mod canonical;
mod children;
mod closed;
mod keys;
mod moves;
mod runs;
mod sums;
mod symmetry;
mod texts;
mod words;
