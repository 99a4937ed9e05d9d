//! The program: what its words ask for, one run, and how it ends.
ghost use Rattle.std.specs.{declared.io.ErrorKind.TheVariants.{OutOfMemory}, Io.KnownBytes.{Keeps}};
ghost use Rattle.std.specs.IoError.{error_kind};
ghost use Rattle.std.specs.Prelude.{◌++◌, ◌<◌, ◌≡◌, ◌≢◌, ◌≤◌, ◌⊎◌, [], codes, length, map};
ghost use Rattle.std.specs.String.{string_bytes};
ghost use Rattle.{fc_card.specs.Types.{Text}, fc_import.specs.Import.{ImportFits}};
ghost use Rattle.fc_collect.specs.Limits.{fault_words, standard};
ghost use Rattle.fc_collect.specs.Promises.{WritesAsCounted, WritesText};
ghost use Rattle.fc_collect.specs.Streams.{HasRoom, inner_of, stream};
ghost use Rattle.fc_collect.specs.declared.streams.faults.RunFault.TheVariants.{Memory};
ghost use Rattle.fc_tool.specs.{AsksForImport, AsksToImport, CountsUpTo, deal_job, EndsBy};
ghost use Rattle.fc_tool.specs.{EndsDeal, EndsDealing, EndsJob, EndsParsing, EndsProgram, EndsRun};
ghost use Rattle.fc_tool.specs.{EndsWriting, error_line, fault_line, IsImport, job_of, Reads};
ghost use Rattle.fc_tool.specs.{requested, status_of, TriesToWrite};

use crate::command_line::read_words;
use crate::request::{Options, Request, Task, WordsFault};
use arrayvec::ArrayString;
use fc_board::{BakersGame, FreeCell};
use fc_collect::{
    Counted, Limits, RunConfig, RunFault, RunKind, Seed, Summary, Variant, run_within, write_bytes,
    write_text,
};
use fc_deal::{DealFault, Numbered, deal_board};
use fc_import::{ImportOptions, LinesAre, Noted, run_import};
use fc_text::write_board;
use std::alloc::Global;
use std::io::{self, Read, Write};
use std::marker::Model;

/// The streams of a process.
#[derive(Drop)]
pub struct Streams<Rd, Wr, Er> {
    /// Standard input.
    pub input: Counted<Rd>,
    /// Standard output.
    pub output: Counted<Wr>,
    /// Standard error.
    pub errors: Counted<Er>,
}

/// Does what the words ask for, the first of which is the program's name, and returns the exit
/// status.
///
/// A command that reads records ends with 0 where all of them were accepted, with 1 where one was
/// refused, and with 3 where the run gave up; a line on standard error then says why. `deal` ends
/// with 0, and with 2 where the number is out of range, which standard error says; it reads no
/// input. Help and the version go to the output, with 0. Words that are refused end with 2, and
/// standard error says why; or with 3 where there is no memory for that. The seed changes nothing
/// of this.
pub fn run_program<Rd: Read, Wr: Write, Er: Write>(
    alloc: Global,
    seed: Seed,
    words: &[String],
    streams: &mut Streams<Rd, Wr, Er>,
) -> u8
    requires input_low { HasRoom streams.old.input }
    requires output_low { HasRoom streams.old.output }
    requires errors_low { HasRoom streams.old.errors }
    ensures ends { EndsProgram (map string_bytes words.now)
        (stream Rd.remaining streams.old.input streams.new.input)
        (stream Wr.contents streams.old.output streams.new.output)
        (stream Er.contents streams.old.errors streams.new.errors) result }
    ensures quiet { result < 2 → AsksToImport (map string_bytes words.now)
        ⊎ Keeps (Er.contents (inner_of streams.old.errors))
        (Er.contents (inner_of streams.new.errors)) }
{
    Asked::by(alloc, words).run(alloc, seed, streams)
}

/// What the words of a command line ask for.
#[derive(Drop)]
pub struct Asked {
    answer: Result<Option<Request>, WordsFault>,
}

impl Model for Asked {
    ghost use Rattle.{fc_tool.specs.{IsCountable}, std.specs.Prelude.{Option, Result}};
    ghost use Rattle.fc_tool.specs.declared.request.Request.{Request as Asking};
    ghost use Rattle.fc_tool.specs.declared.request.WordsFault.{WordsFault as Fault};

    ghost Value = { Result (Option Asking) Fault };

    ghost view = { λ asked. asked.answer };

    ghost invariant = { λ asked. IsCountable asked.answer };
}

impl Asked {
    /// Reads the words, the first of which is the program's name.
    pub fn by(alloc: Global, words: &[String]) -> Asked
        ensures { Reads (map string_bytes words.now) result }
    {
        let answer = read_words(alloc, words);
        Asked { answer }
    }

    /// The request of the words, if they ask for a job.
    pub fn request(&self) -> Option<Request>
        ensures { result ≡ requested self.now }
    {
        match &self.answer {
            Ok(request) => *request,
            Err(_) => None,
        }
    }

    /// Does what was asked for, and returns the exit status, as `run_program` does.
    pub fn run<Rd: Read, Wr: Write, Er: Write>(
        &self,
        alloc: Global,
        seed: Seed,
        streams: &mut Streams<Rd, Wr, Er>,
    ) -> u8
        requires input_low { HasRoom streams.old.input }
        requires output_low { HasRoom streams.old.output }
        requires errors_low { HasRoom streams.old.errors }
        ensures ends { (message : Text)
            × EndsBy self.now (stream Rd.remaining streams.old.input streams.new.input)
            (record {
              output = stream Wr.contents streams.old.output streams.new.output;
              status = result;
              message = message;
            })
            × TriesToWrite (stream Er.contents streams.old.errors streams.new.errors) message }
        ensures quiet { result < 2 → AsksForImport self.now
            ⊎ Keeps (Er.contents (inner_of streams.old.errors))
            (Er.contents (inner_of streams.new.errors)) }
    {
        match &self.answer {
            Ok(Some(request)) => {
                let job = Job::of(request);
                run_job(alloc, seed, job, streams)
            }
            Ok(None) => say(&Ending::silent(2), &mut streams.errors),
            Err(WordsFault::Memory) => say(&out_of_memory(), &mut streams.errors),
            Err(WordsFault::Parser(error)) => {
                end_parsing(alloc, error, &mut streams.output, &mut streams.errors)
            }
        }
    }
}

/// What the program does for a request: for each kind of job what it needs, and no more.
#[derive(Clone, Copy)]
enum Job {
    /// A run over a collection, in which records without a header are of this game.
    Run(RunKind, Variant, Limits),
    /// An import, of boards of this game.
    Import(Variant, LinesAre, Noted),
    /// The deal of this number.
    Deal(DealtGame, u32),
}

/// A game that is dealt by number.
#[derive(Clone, Copy)]
enum DealtGame {
    FreeCell,
    BakersGame,
}

impl Job {
    /// The job of the request: none where a deal lacks its number, or is of Eight Off.
    fn of(request: &Request) -> Option<Job>
        ensures { result ≡ job_of request.now }
    {
        let Options {
            format,
            limits,
            lines_are,
            noted,
        } = request.options;
        match request.task {
            Task::Import => Some(Job::Import(request.variant, lines_are, noted)),
            Task::Deal => deal_job(request.variant, request.number?),
            task => Some(Job::Run(task.run(format)?, request.variant, limits)),
        }
    }
}

// The deal of this number for a game, of which Eight Off is not dealt.
fn deal_job(variant: Variant, number: u32) -> Option<Job>
    ensures { result ≡ deal_job variant number }
{
    match variant {
        Variant::FreeCell => Some(Job::Deal(DealtGame::FreeCell, number)),
        Variant::BakersGame => Some(Job::Deal(DealtGame::BakersGame, number)),
        Variant::EightOff => None,
    }
}

// Does the job, if there is one, and returns the exit status.
fn run_job<Rd: Read, Wr: Write, Er: Write>(
    alloc: Global,
    seed: Seed,
    job: Option<Job>,
    streams: &mut Streams<Rd, Wr, Er>,
) -> u8
    requires input_low { HasRoom streams.old.input }
    requires output_low { HasRoom streams.old.output }
    requires errors_low { HasRoom streams.old.errors }
    requires countable { CountsUpTo job }
    ensures ends { (message : Text)
        × EndsJob job (stream Rd.remaining streams.old.input streams.new.input)
        (record {
          output = stream Wr.contents streams.old.output streams.new.output;
          status = result;
          message = message;
        })
        × TriesToWrite (stream Er.contents streams.old.errors streams.new.errors) message }
    ensures quiet { result < 2 → IsImport job
        ⊎ Keeps (Er.contents (inner_of streams.old.errors))
        (Er.contents (inner_of streams.new.errors)) }
{
    let ending = match job {
        Some(Job::Import(variant, lines_are, noted)) => {
            let options = ImportOptions { lines_are, noted };
            return import(alloc, variant, options, streams);
        }
        Some(Job::Run(kind, variant, limits)) => {
            let config = RunConfig {
                alloc,
                variant,
                limits,
                seed,
            };
            finish(&run_within(config, kind, &mut streams.input, &mut streams.output))
        }
        Some(Job::Deal(game, number)) => run_deal(game, number, &mut streams.output),
        None => Ending::silent(2),
    };
    say(&ending, &mut streams.errors)
}

// Imports the input, says what is changed and left out, and returns the exit status.
fn import<Rd: Read, Wr: Write, Er: Write>(
    alloc: Global,
    variant: Variant,
    options: ImportOptions,
    streams: &mut Streams<Rd, Wr, Er>,
) -> u8
    requires input_low { HasRoom streams.old.input }
    requires output_low { HasRoom streams.old.output }
    requires errors_low { HasRoom streams.old.errors }
    ensures { (message : Text) × ((said : Text)
        × EndsRun standard said (ImportFits variant options said)
        (stream Rd.remaining streams.old.input streams.new.input)
        (record {
          output = stream Wr.contents streams.old.output streams.new.output;
          status = result;
          message = message;
        }))
        × TriesToWrite (stream Er.contents streams.old.errors streams.new.errors) message }
{
    let mut said = Vec::new(alloc);
    let outcome = run_import(
        alloc,
        variant,
        options,
        &mut streams.input,
        &mut streams.output,
        &mut said,
    );
    let ending = finish(&outcome);
    let line = ending.line.as_str().as_bytes();
    let _ = say_notes(said.as_slice(), line, &mut streams.errors);
    ending.status
}

// Writes the notes and the line after them, which takes no memory, since there may be none.
fn say_notes<Er: Write>(said: &[u8], line: &[u8], errors: &mut Counted<Er>) -> Result<(), RunFault>
    requires { HasRoom errors.old }
    ensures counted { WritesAsCounted errors.old errors.new result }
    ensures bytes { WritesText (said.now ++ line.now)
        (Er.contents (inner_of errors.old)) (Er.contents (inner_of errors.new)) result }
{
    write_bytes(errors, said)?;
    write_text(errors, line)
}

// Prints the board of a deal.
fn run_deal<Wr: Write>(game: DealtGame, number: u32, output: &mut Counted<Wr>) -> Ending
    requires output_low { HasRoom output.old }
    ensures ends { EndsDeal game number
        (record {
          output = stream Wr.contents output.old output.new;
          status = result.status;
          message = result.line.bytes;
        }) }
    ensures quiet { result.status < 2 → result.line.bytes ≡ [] }
{
    match game {
        DealtGame::FreeCell => give_deal::<FreeCell, Wr>(number, output),
        DealtGame::BakersGame => give_deal::<BakersGame, Wr>(number, output),
    }
}

fn give_deal<R: Numbered, Wr: Write>(number: u32, output: &mut Counted<Wr>) -> Ending
    requires output_low { HasRoom output.old }
    ensures ends { EndsDealing R.game number
        (record {
          output = stream Wr.contents output.old output.new;
          status = result.status;
          message = result.line.bytes;
        }) }
    ensures quiet { result.status < 2 → result.line.bytes ≡ [] }
{
    match deal_board::<R>(number) {
        Ok(board) => give_text(write_board(&board).as_slice(), output),
        Err(DealFault::OutOfRange) => Ending::with_words(2, "deal number out of range"),
    }
}

// Prints the parser's text: what was asked for to the output, and a refusal to standard error.
fn end_parsing<Wr: Write, Er: Write>(
    alloc: Global,
    error: &clap::Error,
    output: &mut Counted<Wr>,
    errors: &mut Counted<Er>,
) -> u8
    requires output_low { HasRoom output.old }
    requires errors_low { HasRoom errors.old }
    ensures ends { (message : Text)
        × EndsParsing error.now
        (record {
          output = stream Wr.contents output.old output.new;
          status = result;
          message = message;
        })
        × TriesToWrite (stream Er.contents errors.old errors.new) message }
    ensures quiet { result < 2 →
        Keeps (Er.contents (inner_of errors.old)) (Er.contents (inner_of errors.new)) }
{
    let Ok(text) = error.to_string(alloc) else {
        return say(&out_of_memory(), errors);
    };
    if error.use_stderr() {
        let _ = write_text(errors, text.as_bytes());
        return 2;
    }
    say(&give_text(text.as_bytes(), output), errors)
}

// Writes a text that was asked for.
fn give_text<Wr: Write>(text: &[u8], output: &mut Counted<Wr>) -> Ending
    requires output_low { HasRoom output.old }
    ensures ends { EndsWriting text.now
        (record {
          output = stream Wr.contents output.old output.new;
          status = result.status;
          message = result.line.bytes;
        }) }
    ensures quiet { result.status < 2 → result.line.bytes ≡ [] }
{
    match write_text(output, text) {
        Ok(()) => Ending::silent(0),
        Err(fault) => Ending::with_words(3, fault.words()),
    }
}

/// Ends the program where its words could not be read, and returns the exit status: 3 for want of
/// memory, and else 2, since a word is not UTF-8.
pub fn end_without_words<Er: Write>(error: &io::Error, errors: &mut Counted<Er>) -> u8
    requires errors_low { HasRoom errors.old }
    ensures memory { error_kind error.now ≡ OutOfMemory → (result ≡ 3)
        × TriesToWrite (stream Er.contents errors.old errors.new)
        (error_line (fault_words Memory)) }
    ensures other { error_kind error.now ≢ OutOfMemory → (result ≡ 2)
        × TriesToWrite (stream Er.contents errors.old errors.new)
        (error_line (codes "a word of the command line is not UTF-8")) }
{
    if error.kind() == io::ErrorKind::OutOfMemory {
        return say(&out_of_memory(), errors);
    }
    let ending = Ending::with_words(2, "a word of the command line is not UTF-8");
    say(&ending, errors)
}

// Writes the line to standard error, and returns the exit status.
fn say<Er: Write>(ending: &Ending, errors: &mut Counted<Er>) -> u8
    requires errors_low { HasRoom errors.old }
    ensures status { result ≡ ending.now.status }
    ensures said { TriesToWrite (stream Er.contents errors.old errors.new)
        ending.now.line.bytes }
    ensures quiet { ending.now.line.bytes ≡ [] →
        Keeps (Er.contents (inner_of errors.old)) (Er.contents (inner_of errors.new)) }
{
    let _ = write_text(errors, ending.line.as_str().as_bytes());
    ending.status
}

/// How the program ends: its exit status, and its line on standard error, or nothing.
#[derive(Drop)]
struct Ending {
    status: u8,
    line: ArrayString<64>,
}

impl Ending {
    fn silent(status: u8) -> Self
        ensures status { result.status ≡ status }
        ensures line { result.line.bytes ≡ [] }
    {
        Ending {
            status,
            line: ArrayString::new(),
        }
    }

    fn with_words(status: u8, words: &str) -> Self
        requires short { length words.now ≤ 55 }
        ensures status { result.status ≡ status }
        ensures line { result.line.bytes ≡ error_line words.now }
    {
        let mut line = ArrayString::new();
        line.push_str("fcanon: ");
        line.push_str(words);
        line.push_str("\n");
        Ending { status, line }
    }
}

fn out_of_memory() -> Ending
    ensures status { result.status ≡ 3 }
    ensures line { result.line.bytes ≡ error_line (fault_words Memory) }
{
    Ending::with_words(3, RunFault::Memory.words())
}

// How a run that reads a collection ends.
fn finish(outcome: &Result<Summary, RunFault>) -> Ending
    ensures status { result.status ≡ status_of outcome.now }
    ensures line { result.line.bytes ≡ fault_line outcome.now }
{
    match outcome {
        Ok(summary) => Ending::silent(u8::from(summary.refused != 0)),
        Err(fault) => Ending::with_words(3, fault.words()),
    }
}
