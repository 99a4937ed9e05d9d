//! The commands over collections, for C and for what links as C does: from memory to memory.
//!
//! A call takes its memory by `malloc` and gives it back by `free` before it returns. It answers 0
//! where it did what it says, and else a number that says why not. `fcanon_runs.h` says the same
//! for callers.
#![tactic(auto)]

mod import;
mod numbers;
mod output;
mod run;
