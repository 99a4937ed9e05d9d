//! The runs of the commands over collections.
ghost use Rattle.std.specs.Prelude.{◌≡◌};
ghost use Rattle.fc_collect.specs.{Limits.{AreCountable, standard}, Promises.{ResultFits}};
ghost use Rattle.fc_collect.specs.Runs.{count_format, printing_of, RunsWithin};
ghost use Rattle.fc_collect.specs.Streams.{HasRoom, stream};
ghost use Rattle.fc_collect.specs.declared.commands.Format.TheVariants.{Lines};
ghost use Rattle.fc_collect.specs.declared.commands.RunKind.TheVariants.{Canon, Check, Expand};
ghost use Rattle.fc_collect.specs.declared.commands.RunKind.TheVariants.{Group, Share, Show, Table};
ghost use Rattle.fc_collect.specs.declared.commands.RunKind.TheVariants.{Unique};

use crate::{
    Counted, EachGroup, Limits, RunConfig, RunFault, Seed, ShareLines, Summary, run_records,
    write_bytes,
};
use fc_board::Variant;
use fc_record::{
    CanonLines, CheckLines, ExpandLines, ShowLines, SymmetryLines, TABLE_HEADER, TableLines,
    TableObjects,
};
use std::alloc::Global;
use std::io::{Read, Write};

mod closed;
mod count;
mod each_record;
mod group;
mod names;
mod same;
mod unique;

use closed::{Closed, FindingLine, FindingObject};
use count::{Count, FiguresLine, FiguresObject};
use each_record::EachRecord;
use group::GroupLines;
use same::SameLines;
use unique::UniqueLines;

/// What a run writes of a collection.
#[derive(Clone, Copy, Debug, PartialEq, Eq, Hash)]
pub enum RunKind {
    /// As `run_show`.
    Show,
    /// As `run_canon`.
    Canon,
    /// As `run_check`.
    Check,
    /// As `run_group`.
    Group,
    /// As `run_share`.
    Share,
    /// As `run_expand`.
    Expand,
    /// As `run_unique`.
    Unique,
    /// As `run_table`, in this format.
    Table(Format),
    /// Of each record after the first the passage from the board of the first one.
    Same,
    /// A line for each symmetry of each record's board.
    Symmetries,
    /// Figures of the whole collection, in one line of this format.
    Count(CountFormat),
    /// Whether the boards of the collection are closed: none is won, and each move leads from one
    /// of them to a board that is equivalent to one of them. In one line of this format.
    Closed(CountFormat),
}

/// How a table is written.
#[derive(Clone, Copy, Debug, PartialEq, Eq, Hash)]
pub enum Format {
    /// A line of columns for each record.
    Lines,
    /// First a line with the names of the columns, and then as `Lines`.
    Header,
    /// An object of JSON in a line for each record.
    Json,
}

/// How one line on a whole collection is written.
#[derive(Clone, Copy, Debug, PartialEq, Eq, Hash)]
pub enum CountFormat {
    /// Words and numbers.
    Words,
    /// An object of JSON.
    Json,
}

impl CountFormat {
    /// That of figures where a table has this format.
    pub fn of(format: Format) -> CountFormat
        ensures { result ≡ count_format format }
    {
        match format {
            Format::Lines | Format::Header => CountFormat::Words,
            Format::Json => CountFormat::Json,
        }
    }
}

/// Reads a collection, and writes each record again: its header, its board and its lists, all as
/// they are printed.
pub fn run_show<Rd: Read, Wr: Write>(
    alloc: Global,
    variant: Variant,
    input: &mut Counted<Rd>,
    output: &mut Counted<Wr>,
) -> Result<Summary, RunFault>
    requires input_low { HasRoom input.old }
    requires output_low { HasRoom output.old }
    ensures { RunsWithin standard (ResultFits standard (printing_of Show variant))
        (stream Rd.remaining input.old input.new) (stream Wr.contents output.old output.new)
        result }
{
    run_whole(alloc, RunKind::Show, variant, input, output)
}

/// Reads a collection, and writes the canonical board of each record, the passage that leads there
/// and the images of its lists.
pub fn run_canon<Rd: Read, Wr: Write>(
    alloc: Global,
    variant: Variant,
    input: &mut Counted<Rd>,
    output: &mut Counted<Wr>,
) -> Result<Summary, RunFault>
    requires input_low { HasRoom input.old }
    requires output_low { HasRoom output.old }
    ensures { RunsWithin standard (ResultFits standard (printing_of Canon variant))
        (stream Rd.remaining input.old input.new) (stream Wr.contents output.old output.new)
        result }
{
    run_whole(alloc, RunKind::Canon, variant, input, output)
}

/// Reads a collection, and writes a verdict on each list of each record.
pub fn run_check<Rd: Read, Wr: Write>(
    alloc: Global,
    variant: Variant,
    input: &mut Counted<Rd>,
    output: &mut Counted<Wr>,
) -> Result<Summary, RunFault>
    requires input_low { HasRoom input.old }
    requires output_low { HasRoom output.old }
    ensures { RunsWithin standard (ResultFits standard (printing_of Check variant))
        (stream Rd.remaining input.old input.new) (stream Wr.contents output.old output.new)
        result }
{
    run_whole(alloc, RunKind::Check, variant, input, output)
}

/// Reads a collection, and writes each record again with its lists as moves of one card.
pub fn run_expand<Rd: Read, Wr: Write>(
    alloc: Global,
    variant: Variant,
    input: &mut Counted<Rd>,
    output: &mut Counted<Wr>,
) -> Result<Summary, RunFault>
    requires input_low { HasRoom input.old }
    requires output_low { HasRoom output.old }
    ensures { RunsWithin standard (ResultFits standard (printing_of Expand variant))
        (stream Rd.remaining input.old input.new) (stream Wr.contents output.old output.new)
        result }
{
    run_whole(alloc, RunKind::Expand, variant, input, output)
}

/// Reads a collection, and writes each group of equivalent boards: the names of its members and
/// their canonical board.
pub fn run_group<Rd: Read, Wr: Write>(
    alloc: Global,
    variant: Variant,
    input: &mut Counted<Rd>,
    output: &mut Counted<Wr>,
) -> Result<Summary, RunFault>
    requires input_low { HasRoom input.old }
    requires output_low { HasRoom output.old }
    ensures { RunsWithin standard (ResultFits standard (printing_of Group variant))
        (stream Rd.remaining input.old input.new) (stream Wr.contents output.old output.new)
        result }
{
    run_whole(alloc, RunKind::Group, variant, input, output)
}

/// Reads a collection, and writes each board with a solution of its group, if a list of one of its
/// members wins.
pub fn run_share<Rd: Read, Wr: Write>(
    alloc: Global,
    variant: Variant,
    input: &mut Counted<Rd>,
    output: &mut Counted<Wr>,
) -> Result<Summary, RunFault>
    requires input_low { HasRoom input.old }
    requires output_low { HasRoom output.old }
    ensures { RunsWithin standard (ResultFits standard (printing_of Share variant))
        (stream Rd.remaining input.old input.new) (stream Wr.contents output.old output.new)
        result }
{
    run_whole(alloc, RunKind::Share, variant, input, output)
}

/// Reads a collection, and writes of each group its first record again, as it comes; of the others
/// it keeps nothing.
pub fn run_unique<Rd: Read, Wr: Write>(
    alloc: Global,
    variant: Variant,
    input: &mut Counted<Rd>,
    output: &mut Counted<Wr>,
) -> Result<Summary, RunFault>
    requires input_low { HasRoom input.old }
    requires output_low { HasRoom output.old }
    ensures { RunsWithin standard (ResultFits standard (printing_of Unique variant))
        (stream Rd.remaining input.old input.new) (stream Wr.contents output.old output.new)
        result }
{
    run_whole(alloc, RunKind::Unique, variant, input, output)
}

/// Reads a collection, and writes a line of columns for each record, for programs that sort, join
/// and count.
pub fn run_table<Rd: Read, Wr: Write>(
    alloc: Global,
    variant: Variant,
    input: &mut Counted<Rd>,
    output: &mut Counted<Wr>,
) -> Result<Summary, RunFault>
    requires input_low { HasRoom input.old }
    requires output_low { HasRoom output.old }
    ensures { RunsWithin standard (ResultFits standard (printing_of (Table Lines) variant))
        (stream Rd.remaining input.old input.new) (stream Wr.contents output.old output.new)
        result }
{
    run_whole(alloc, RunKind::Table(Format::Lines), variant, input, output)
}

// Reads a collection within the limits of a run that is given no others.
fn run_whole<Rd: Read, Wr: Write>(
    alloc: Global,
    kind: RunKind,
    variant: Variant,
    input: &mut Counted<Rd>,
    output: &mut Counted<Wr>,
) -> Result<Summary, RunFault>
    requires input_low { HasRoom input.old }
    requires output_low { HasRoom output.old }
    ensures { RunsWithin standard (ResultFits standard (printing_of kind variant))
        (stream Rd.remaining input.old input.new) (stream Wr.contents output.old output.new)
        result }
{
    let config = RunConfig {
        alloc,
        variant,
        limits: Limits::STANDARD,
        seed: Seed::KNOWN,
    };
    run_within(config, kind, input, output)
}

/// Reads a collection with these settings, and writes what a run of this kind does. The output is
/// the same for each seed.
pub fn run_within<Rd: Read, Wr: Write>(
    config: RunConfig,
    kind: RunKind,
    input: &mut Counted<Rd>,
    output: &mut Counted<Wr>,
) -> Result<Summary, RunFault>
    requires limits { AreCountable config.limits }
    requires input_low { HasRoom input.old }
    requires output_low { HasRoom output.old }
    ensures { RunsWithin config.limits
        (ResultFits config.limits (printing_of kind config.variant))
        (stream Rd.remaining input.old input.new) (stream Wr.contents output.old output.new)
        result }
{
    match kind {
        RunKind::Show => run_records::<EachRecord<ShowLines>, _, _>(config, input, output),
        RunKind::Canon => run_records::<EachRecord<CanonLines>, _, _>(config, input, output),
        RunKind::Check => run_records::<EachRecord<CheckLines>, _, _>(config, input, output),
        RunKind::Group => run_records::<EachGroup<GroupLines>, _, _>(config, input, output),
        RunKind::Share => run_records::<EachGroup<ShareLines>, _, _>(config, input, output),
        RunKind::Expand => run_records::<EachRecord<ExpandLines>, _, _>(config, input, output),
        RunKind::Unique => run_records::<UniqueLines, _, _>(config, input, output),
        RunKind::Table(format) => run_table_within(config, format, input, output),
        RunKind::Same => run_records::<SameLines, _, _>(config, input, output),
        RunKind::Count(CountFormat::Words) => run_records::<Count<FiguresLine>, _, _>(
            config, input, output,
        ),
        RunKind::Count(CountFormat::Json) => run_records::<Count<FiguresObject>, _, _>(
            config, input, output,
        ),
        RunKind::Symmetries => run_records::<EachRecord<SymmetryLines>, _, _>(
            config, input, output,
        ),
        RunKind::Closed(CountFormat::Words) => run_records::<Closed<FindingLine>, _, _>(
            config, input, output,
        ),
        RunKind::Closed(CountFormat::Json) => run_records::<Closed<FindingObject>, _, _>(
            config, input, output,
        ),
    }
}

// Reads a collection, and writes it as a table in this format.
fn run_table_within<Rd: Read, Wr: Write>(
    config: RunConfig,
    format: Format,
    input: &mut Counted<Rd>,
    output: &mut Counted<Wr>,
) -> Result<Summary, RunFault>
    requires limits { AreCountable config.limits }
    requires input_low { HasRoom input.old }
    requires output_low { HasRoom output.old }
    ensures { RunsWithin config.limits
        (ResultFits config.limits (printing_of (Table format) config.variant))
        (stream Rd.remaining input.old input.new) (stream Wr.contents output.old output.new)
        result }
{
    match format {
        Format::Lines => run_records::<EachRecord<TableLines>, _, _>(config, input, output),
        Format::Header => {
            write_bytes(output, TABLE_HEADER)?;
            run_records::<EachRecord<TableLines>, _, _>(config, input, output)
        }
        Format::Json => run_records::<EachRecord<TableObjects>, _, _>(config, input, output),
    }
}
