//! The words of a command line, read by the parser.
ghost use Rattle.clap.specs.declared.builder.command.Command.TheViews.{out-Command as fields_of};
ghost use Rattle.clap.specs.Words.{app_of, rule_of, shape_of};
ghost use Rattle.std.specs.{Prelude.{◌++◌, ◌∷◌, ◌≡◌, [], false, IfOk, map}, String.{string_bytes}};
ghost use Rattle.fc_tool.specs.{bare_program, command_of, command_with, flag_option, header_option};
ghost use Rattle.fc_tool.specs.{import_options, json_option, number_argument, piece_options};
ghost use Rattle.fc_tool.specs.{program, Reads, rules_of, start_option, variant_option};
ghost use Rattle.fc_tool.specs.{whole_options};

use crate::request::{Request, TASKS, Task, WordsFault};
use clap::builder::ValueParser;
use clap::error::ErrorKind;
use clap::{Arg, ArgAction, Command};
use fc_board::{VARIANT_WORDS, Variant};
use fc_collect::MOST_COUNTABLE;
use std::alloc::{AllocError, Global};

mod help;
mod matches;

use help::{
    ABOUT, ANY_SIZE, COLUMNS, EXPLAIN, FROM_BYTE, FROM_RECORD, GAME_DEALT, GAME_READ, HEADER, Help,
    JSON, NOTES, ROWS, STRICT, USAGE,
};
use matches::request_of;

/// Reads what the words ask for; the first is the program's name.
///
/// `None` stands for a value outside the program's tables, which no parse gives.
pub fn read_words(alloc: Global, words: &[String]) -> Result<Option<Request>, WordsFault>
    ensures { Reads (map string_bytes words.now) result }
{
    let choices = ValueParser::from(VARIANT_WORDS.as_slice());
    let dealt = ValueParser::from(&VARIANT_WORDS[..2]);
    let Ok(program) = program(alloc, choices, dealt) else {
        return Err(WordsFault::Memory);
    };
    match program.try_get_matches_from(words) {
        Ok(matches) => Ok(request_of(&matches)),
        Err(error) if error.kind() == ErrorKind::OutOfMemory => Err(WordsFault::Memory),
        Err(error) => Err(WordsFault::Parser(error)),
    }
}

// The command line with its commands.
fn program<'a>(
    alloc: Global,
    choices: ValueParser<'a>,
    dealt: ValueParser<'a>,
) -> Result<Command<'a>, AllocError>
    ensures { IfOk result (λ command. app_of command ≡ program choices.entry dealt.entry) }
{
    let mut line = bare_program(alloc);
    for at in 0..TASKS.len() {
        line = line.subcommand(command(alloc, TASKS[at], choices, dealt)?)?;
    }
    Ok(line)
}

// The command of a task.
fn command<'a>(
    alloc: Global,
    task: Task,
    choices: ValueParser<'a>,
    dealt: ValueParser<'a>,
) -> Result<Command<'a>, AllocError>
    ensures shape { IfOk result (λ command. shape_of command
        ≡ command_with (rules_of choices.entry dealt.entry task) (command_of task)) }
    ensures local { IfOk result (λ command. (fields_of command).has_globals ≡ false) }
{
    let (name, help) = (task.name(), Help::of(task));
    match task {
        Task::Show
        | Task::Canon
        | Task::Check
        | Task::Group
        | Task::Share
        | Task::Expand
        | Task::Unique
        | Task::Symmetries => reading_command(alloc, choices, name, help),
        Task::Table => table_command(alloc, choices, name, help),
        Task::Same => whole_command(alloc, choices, name, help),
        Task::Count | Task::Closed => judging_command(alloc, choices, name, help),
        Task::Import => importing_command(alloc, choices, name, help),
        Task::Deal => numbered_command(alloc, dealt, name, help),
    }
}

// The command line without its commands: it wants one, and where nothing is given it says how it
// is used.
fn bare_program<'a>(alloc: Global) -> Command<'a>
    ensures app { app_of result ≡ bare_program }
{
    Command::new(alloc, "fcanon")
        .override_usage(USAGE)
        .version("1.0.0")
        .about(ABOUT)
        .after_help(NOTES)
        .arg_required_else_help(true)
        .subcommand_required(true)
}

// The option `--variant`, and what its help says.
fn variant_option<'a>(alloc: Global, choices: ValueParser<'a>, help: &'a str) -> Arg<'a>
    ensures rule { rule_of result ≡ variant_option choices.entry }
    ensures local { result.global ≡ false }
{
    Arg::new(alloc, "variant")
        .long("variant")
        .value_name("VARIANT")
        .value_parser(choices)
        .default_value(Variant::FreeCell.word())
        .hide_default_value(true)
        .hide_possible_values(true)
        .help(help)
}

// An option that takes no value.
fn flag_option<'a>(alloc: Global, id: &'a str, name: &'a str, help: &'a str) -> Arg<'a>
    ensures rule { rule_of result ≡ flag_option id.entry.now name.entry.now }
    ensures local { result.global ≡ false }
{
    Arg::new(alloc, id)
        .long(name)
        .action(ArgAction::SetTrue)
        .help(help)
}

// An option that takes a number from `least` up to what a run can count to.
fn start_option<'a>(alloc: Global, id: &'a str, name: &'a str, least: u32, help: &'a str) -> Arg<'a>
    ensures rule { rule_of result ≡ start_option id.entry.now name.entry.now least }
    ensures local { result.global ≡ false }
{
    Arg::new(alloc, id)
        .long(name)
        .value_name("N")
        .value_parser(ValueParser::signed(i64::from(least), MOST_COUNTABLE as i64))
        .help(help)
}

// The argument `N`.
fn number_argument<'a>(alloc: Global) -> Arg<'a>
    ensures rule { rule_of result ≡ number_argument }
    ensures local { result.global ≡ false }
{
    Arg::new(alloc, "number")
        .value_name("N: 1..2147483647")
        .value_parser(clap::value_parser!(u32))
        .required(true)
        .help("The number of the deal")
}

// A command that makes a collection, with its five options.
fn importing_command<'a>(
    alloc: Global,
    choices: ValueParser<'a>,
    name: &'a str,
    help: Help,
) -> Result<Command<'a>, AllocError>
    ensures shape { IfOk result (λ command.
        shape_of command ≡ command_with (import_options choices.entry) name.entry.now) }
    ensures local { IfOk result (λ command. (fields_of command).has_globals ≡ false) }
{
    board_command(alloc, choices, name, help)?
        .arg(flag_option(alloc, "columns", "columns", COLUMNS))?
        .arg(flag_option(alloc, "rows", "rows", ROWS))?
        .arg(flag_option(alloc, "explain", "explain", EXPLAIN))?
        .arg(flag_option(alloc, "strict", "strict", STRICT))
}

// A command that takes nothing, and what its help says.
fn bare_command<'a>(alloc: Global, name: &'a str, help: Help) -> Command<'a>
    ensures shape { shape_of result ≡ command_with [] name.entry.now }
    ensures local { (fields_of result).has_globals ≡ false }
{
    let command = Command::new(alloc, name)
        .about(help.about)
        .after_help(help.notes);
    match help.usage {
        Some(usage) => command.override_usage(usage),
        None => command,
    }
}

// A command that reads boards, with the option `--variant`.
fn board_command<'a>(
    alloc: Global,
    choices: ValueParser<'a>,
    name: &'a str,
    help: Help,
) -> Result<Command<'a>, AllocError>
    ensures shape { IfOk result (λ command.
        shape_of command ≡ command_with (variant_option choices.entry ∷ []) name.entry.now) }
    ensures local { IfOk result (λ command. (fields_of command).has_globals ≡ false) }
{
    bare_command(alloc, name, help).arg(variant_option(alloc, choices, GAME_READ))
}

// A command that reads a whole collection, and no piece of one.
fn whole_command<'a>(
    alloc: Global,
    choices: ValueParser<'a>,
    name: &'a str,
    help: Help,
) -> Result<Command<'a>, AllocError>
    ensures shape { IfOk result (λ command.
        shape_of command ≡ command_with (whole_options choices.entry) name.entry.now) }
    ensures local { IfOk result (λ command. (fields_of command).has_globals ≡ false) }
{
    board_command(alloc, choices, name, help)?.arg(flag_option(
        alloc, "any_size", "any-size", ANY_SIZE,
    ))
}

// A command that reads a whole collection, and can print JSON.
fn judging_command<'a>(
    alloc: Global,
    choices: ValueParser<'a>,
    name: &'a str,
    help: Help,
) -> Result<Command<'a>, AllocError>
    ensures shape { IfOk result (λ command.
        shape_of command
        ≡ command_with (whole_options choices.entry ++ json_option ∷ []) name.entry.now) }
    ensures local { IfOk result (λ command. (fields_of command).has_globals ≡ false) }
{
    whole_command(alloc, choices, name, help)?.arg(flag_option(alloc, "json", "json", JSON))
}

// A command that reads a collection, with its four options.
fn reading_command<'a>(
    alloc: Global,
    choices: ValueParser<'a>,
    name: &'a str,
    help: Help,
) -> Result<Command<'a>, AllocError>
    ensures shape { IfOk result (λ command.
        shape_of command ≡ command_with (piece_options choices.entry) name.entry.now) }
    ensures local { IfOk result (λ command. (fields_of command).has_globals ≡ false) }
{
    whole_command(alloc, choices, name, help)?
        .arg(start_option(alloc, "from_record", "from-record", 1, FROM_RECORD))?
        .arg(start_option(alloc, "from_byte", "from-byte", 0, FROM_BYTE))
}

// A command that reads a collection, and can print JSON or a header.
fn table_command<'a>(
    alloc: Global,
    choices: ValueParser<'a>,
    name: &'a str,
    help: Help,
) -> Result<Command<'a>, AllocError>
    ensures shape { IfOk result (λ command.
        shape_of command
        ≡ command_with (piece_options choices.entry ++ json_option ∷ header_option ∷ [])
        name.entry.now) }
    ensures local { IfOk result (λ command. (fields_of command).has_globals ≡ false) }
{
    reading_command(alloc, choices, name, help)?
        .arg(flag_option(alloc, "json", "json", JSON))?
        .arg(flag_option(alloc, "header", "header", HEADER))
}

// A command with the option `--variant` and the argument `N`.
fn numbered_command<'a>(
    alloc: Global,
    choices: ValueParser<'a>,
    name: &'a str,
    help: Help,
) -> Result<Command<'a>, AllocError>
    ensures shape { IfOk result (λ command.
        shape_of command ≡ command_with (variant_option choices.entry ∷ number_argument ∷ [])
        name.entry.now) }
    ensures local { IfOk result (λ command. (fields_of command).has_globals ≡ false) }
{
    bare_command(alloc, name, help)
        .arg(variant_option(alloc, choices, GAME_DEALT))?
        .arg(number_argument(alloc))
}
