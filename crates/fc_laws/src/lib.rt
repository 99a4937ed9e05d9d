//! Laws of the definitions that contracts cite, one module for each subject: a law is a public
//! function that does nothing, with what it says for its contract. The headline is in `headline`.
#![tactic(auto)]

pub mod boards;
pub mod bytes;
pub mod canonical;
pub mod cards;
pub mod class_hashes;
pub mod closed;
pub mod collections;
pub mod deals;
pub mod headline;
pub mod texts;
