//! Boards from which no list of moves wins, and a check of keys that show it.
#![tactic(auto)]

pub mod calls;
mod check;
mod search;

pub use check::{Doubt, Flaw, FlawAt, check_keys, show_unsolvable};
