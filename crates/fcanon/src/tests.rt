//! Tests of all crates through their public calls. A crate with tests is proved twice, so they are
//! together here.

mod boards;
mod canonical_boards;
mod cards;
mod classes;
mod command_line;
mod deals;
mod plays;
mod program;
mod rules;
mod streams;
mod texts;
