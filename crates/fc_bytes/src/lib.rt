//! Boards, passages and moves as plain bytes of fixed number, each in one way only; and what calls
//! do over them.
#![tactic(auto)]

mod board;
pub mod calls;
mod carried;
mod child_hash;
mod class_hash;
mod hash;
mod laid;
mod moves;
mod passage;
mod runs;

pub use board::BoardBytes;
pub use child_hash::ChildHash;
pub use class_hash::ClassSums;
pub use moves::MoveBytes;
pub use passage::{PassageBytes, suit_bytes};
pub use runs::RunBytes;
