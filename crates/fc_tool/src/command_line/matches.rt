//! What the arguments of a command ask for, as the parser found them.
ghost use Rattle.clap.specs.Words.{first_of, found_of, rows_of, subcommand_rows_of};
ghost use Rattle.std.specs.{Option.{option_map}, Prelude.{◌<◌, ◌^◌, ◌≡◌, ◌≤◌, option_and_then}};
ghost use Rattle.fc_tool.specs.{any_size_in, format_in, is_true, limits_in, limits_named, lines_in};
ghost use Rattle.fc_tool.specs.{noted_in, number_between, number_in, request_of, start_named};
ghost use Rattle.fc_tool.specs.{variant_in};

use crate::request::{Options, Request, Task};
use clap::ArgMatches;
use fc_collect::{Format, Limits, MOST_COUNTABLE, Variant};
use fc_import::{LinesAre, Noted};

/// What the command that was met asks for.
pub(super) fn request_of(matches: &ArgMatches<'_>) -> Option<Request>
    ensures { result ≡ option_and_then request_of (subcommand_rows_of matches.now) }
{
    let (name, own) = matches.subcommand()?;
    request_in(name, own)
}

// What the command of this name asks for, by its own arguments.
fn request_in(name: &str, own: &ArgMatches<'_>) -> Option<Request>
    ensures { result ≡ request_of (name.now, rows_of (found_of own.now)) }
{
    let task = Task::named(name)?;
    let variant = variant_in(own)?;
    match (task, variant) {
        (Task::Deal, Variant::EightOff) => None,
        (Task::Deal, Variant::FreeCell | Variant::BakersGame) => Some(Request {
            task,
            variant,
            number: Some(number_in(own)?),
            options: Options::plain(),
        }),
        (Task::Import, _) => Some(Request {
            task,
            variant,
            number: None,
            options: Options {
                lines_are: lines_in(own),
                noted: noted_in(own),
                ..Options::plain()
            },
        }),
        _ => Some(Request {
            task,
            variant,
            number: None,
            options: Options {
                format: format_in(own),
                limits: limits_in(own)?,
                ..Options::plain()
            },
        }),
    }
}

// What lines of cards are where they may be columns or rows: columns where both are said.
fn lines_in(own: &ArgMatches<'_>) -> LinesAre
    ensures { result ≡ lines_in (rows_of (found_of own.now)) }
{
    if is_given(own, "columns") {
        LinesAre::Columns
    } else if is_given(own, "rows") {
        LinesAre::Rows
    } else {
        LinesAre::Unsaid
    }
}

// What is noted of an import: each change, and strictly, where `--strict` is given.
fn noted_in(own: &ArgMatches<'_>) -> Noted
    ensures { result ≡ noted_in (rows_of (found_of own.now)) }
{
    if is_given(own, "strict") {
        Noted::Strict
    } else if is_given(own, "explain") {
        Noted::Changes
    } else {
        Noted::Doubts
    }
}

fn variant_in(own: &ArgMatches<'_>) -> Option<Variant>
    ensures { result ≡ variant_in (rows_of (found_of own.now)) }
{
    Variant::named(own.get_str("variant")?)
}

fn any_size_in(own: &ArgMatches<'_>) -> bool
    ensures { result ≡ any_size_in (rows_of (found_of own.now)) }
{
    is_given(own, "any_size")
}

fn format_in(own: &ArgMatches<'_>) -> Format
    ensures { result ≡ format_in (rows_of (found_of own.now)) }
{
    if is_given(own, "json") {
        Format::Json
    } else if is_given(own, "header") {
        Format::Header
    } else {
        Format::Lines
    }
}

// Whether an option that takes no value is given.
fn is_given(own: &ArgMatches<'_>, id: &str) -> bool
    ensures { result ≡ is_true (first_of id.now (rows_of (found_of own.now))) }
{
    match own.get_str(id) {
        Some(text) => text == "true",
        None => false,
    }
}

fn limits_in(own: &ArgMatches<'_>) -> Option<Limits>
    ensures { result ≡ limits_in (rows_of (found_of own.now)) }
{
    limits_named(
        any_size_in(own),
        own.get_str("from_record"),
        own.get_str("from_byte"),
    )
}

// The limits that options ask for: whether any size is, and where a piece begins.
fn limits_named(
    any_size: bool,
    first_record: Option<&str>,
    first_byte: Option<&str>,
) -> Option<Limits>
    ensures { result ≡ limits_named any_size (option_map (λ text. text.now) first_record.entry)
        (option_map (λ text. text.now) first_byte.entry) }
{
    match (any_size, first_record, first_byte) {
        (false, None, None) => Some(Limits::STANDARD),
        _ => Some(Limits {
            number: start_named(1, first_record)?,
            place: start_named(0, first_byte)?,
            ..Limits::LARGEST
        }),
    }
}

// Where a piece begins, by the text that says so: at the least number where there is none.
fn start_named(least: u64, text: Option<&str>) -> Option<usize>
    requires least { least ≤ 1 }
    ensures { result ≡ start_named least (option_map (λ text. text.now) text.entry) }
{
    match text {
        Some(text) => usize::try_from(number_between(text, least, MOST_COUNTABLE as u64)?).ok(),
        None => usize::try_from(least).ok(),
    }
}

fn number_in(own: &ArgMatches<'_>) -> Option<u32>
    ensures { result ≡ number_in (rows_of (found_of own.now)) }
{
    let number = number_between(own.get_str("number")?, 0, 4_294_967_295)?;
    u32::try_from(number).ok()
}

// The number from `least` to `most` that a text writes. As the parser has it, a sign may come
// first, so that -0 is 0.
fn number_between(text: &str, least: u64, most: u64) -> Option<u64>
    requires most { most < 2 ^ 63 }
    ensures { result ≡ number_between least most text.now }
{
    let number: i64 = text.parse().ok()?;
    let number = u64::try_from(number).ok()?;
    if number < least || most < number {
        return None;
    }
    Some(number)
}
