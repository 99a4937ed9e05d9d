//! What the calls of the library for C do over bytes, each for one game.
//!
//! Each answers 0 where it did what it says, and else a number that says why not; then what it
//! writes is as it was, except for a place that it names.
pub mod answers;
pub mod canonical;
pub mod child_hashes;
pub mod children;
pub mod keys;
pub mod moves;
pub mod run_moves;
pub mod runs;
pub mod sums;
pub mod symmetry;
pub mod texts;
