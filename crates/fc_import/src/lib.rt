//! Boards and lists of moves as people and other programs write them, made a collection.
#![tactic(auto)]

mod cards;
mod decoding;
mod hearing;
mod import;
mod labels;
pub mod laws;
mod layout;
mod line;
mod lists;
mod made;
mod marks;
mod moves;
mod naming;
mod options;
mod piece;
mod playable;
mod printed;
mod quiet;
mod reasons;
mod run;
mod scan;
mod signs;
mod solver;
mod spelled;
mod strips;
mod tally;
mod titles;
mod walk;
mod words;

pub use options::{ImportOptions, LinesAre, Noted};
pub use run::run_import;
