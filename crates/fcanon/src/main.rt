//! `fcanon` does what its words ask for: it lends the process's words and streams to `fc_tool`.
#![tactic(auto)]

mod watched;

use fc_collect::{Counted, Limits, Seed};
use fc_tool::{Asked, Request, Streams, Task, end_without_words};
use std::io::{self, IsTerminal};
use std::process::ExitCode;
use std::random::RandomSource;
use watched::{Progress, Watched};

fn main(rt: HostRuntime) -> ExitCode {
    let status = match words(&rt) {
        Ok(words) => run(&rt, words.as_slice()),
        Err(error) => end_without_words(&error, &mut Counted::new(rt.stderr())),
    };
    ExitCode::from(status)
}

// Runs the program over the process's own streams, and says what only a terminal is to show.
fn run(rt: &HostRuntime, words: &[String]) -> u8 {
    let asked = Asked::by(rt.alloc(), words);
    let request = asked.request();
    if rt.stdin().is_terminal() && request.as_ref().is_some_and(reads_input) {
        let _ = eprintln!(rt; "{AT_A_TERMINAL}");
    }
    let any_size = request.is_some_and(|request| request.options.limits != Limits::STANDARD);
    let has_terminal = rt.stderr().is_terminal();
    let shows = has_terminal && any_size && !rt.stdout().is_terminal();
    let progress = Progress::new(rt, has_terminal, shows);
    let mut streams = Streams {
        input: Counted::new(Watched::new(rt.stdin(), progress)),
        output: Counted::new(rt.stdout()),
        errors: Counted::new(rt.stderr()),
    };
    let status = asked.run(rt.alloc(), seed(rt), &mut streams);
    let watched = streams.input.into_inner();
    if has_terminal && !any_size && status == 3 && watched.progress().is_past_one_run() {
        let _ = eprintln!(rt; "{ANY_SIZE}");
    }
    status
}

// A seed drawn by chance, or the known one where the system gives no chance.
fn seed(rt: &HostRuntime) -> Seed {
    let mut bytes = [0; 8];
    match rt.fill_bytes(&mut bytes) {
        Ok(()) => Seed(u64::from_le_bytes(bytes)),
        Err(_) => Seed::KNOWN,
    }
}

// What is said where standard input is a terminal, so that nobody wonders what is waited for.
const AT_A_TERMINAL: &str =
    "fcanon: reading standard input up to Ctrl-D; to read a file, add < FILE";

// What is said at a terminal where a collection was too large.
const ANY_SIZE: &str = "fcanon: with --any-size it reads more than 65536 records or 16 MiB";

// Whether a command reads standard input.
fn reads_input(request: &Request) -> bool {
    request.task != Task::Deal
}

fn words(rt: &HostRuntime) -> io::Result<Vec<String>> {
    Ok(std::env::args(rt)?.collect(rt.alloc())?)
}

#[cfg(test)]
mod tests;
