//! What the program `fcanon` does, over readers and writers that it is lent.
#![tactic(auto)]

mod command_line;
pub mod laws;
mod program;
mod request;

pub use command_line::read_words;
pub use program::{Asked, Streams, end_without_words, run_program};
pub use request::{Options, Request, Task, WordsFault};
