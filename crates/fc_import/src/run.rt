//! The run that imports an input.
ghost use Rattle.std.specs.Prelude.{◌++◌, ◌+◌, ◌-◌, ◌<◌, ◌^◌, ◌≡◌, ◌≤◌, [], Err, IfOk, length};
ghost use Rattle.fc_card.specs.Types.{Text};
ghost use Rattle.fc_collect.specs.Limits.{most_bytes, standard};
ghost use Rattle.fc_collect.specs.{Promises.{ReadsAsCounted, WritesAsCounted}, Runs.{RunsWithin}};
ghost use Rattle.fc_collect.specs.Streams.{counts_of, GrowsBy, HasRoom, inner_of, stream};
ghost use Rattle.fc_collect.specs.declared.streams.faults.RunFault.TheVariants.{Write as WriteFault};
ghost use Rattle.fc_import.specs.Import.{ImportFits, Makes, with_tally};
ghost use Rattle.fc_import.specs.inside.{more_counts, ReadsMore, ReadsToEnd, WritesMade};
ghost use Rattle.fc_import.specs.{Notes.{counted}, Words.{text_read}};

use crate::import::import_text;
use crate::made::Made;
use crate::options::ImportOptions;
use crate::signs::read_text;
use crate::tally::{Tally, counted, push_tally, refused_by};
use fc_board::{BakersGame, EightOff, FreeCell, Rule, Variant};
use fc_collect::{
    Counted, MOST_BYTES, MOST_READS, RunFault, Summary, is_within_limits, write_text,
};
use std::alloc::{AllocError, Global};
use std::io::{Read, Write};

/// How many bytes a read is asked for.
const ROOM: usize = 65_536;

/// Reads a text to its end, makes a collection of this game of the boards and the lists of moves in
/// it, and writes that. What is said of the text is put into `said`, in lines that each name a line
/// and a column; a piece of the text that is no board and no list is left out, and that is said.
///
/// A run takes at most 16 MiB; else the fault is `TooLarge`. Where more would be written than
/// `run_show` takes, nothing is, which is said and counted as one refusal. A call that fails is not
/// tried again.
pub fn run_import<Rd: Read, Wr: Write>(
    alloc: Global,
    variant: Variant,
    options: ImportOptions,
    input: &mut Counted<Rd>,
    output: &mut Counted<Wr>,
    said: &mut Vec<u8>,
) -> Result<Summary, RunFault>
    requires input_low { HasRoom input.old }
    requires output_low { HasRoom output.old }
    requires silent { said.old.items ≡ [] }
    ensures runs { RunsWithin standard (ImportFits variant options said.new.items)
        (stream Rd.remaining input.old input.new) (stream Wr.contents output.old output.new)
        result }
    ensures ended { result ≡ Err WriteFault
        → (counts_of input.new).ends ≡ (counts_of input.old).ends + 1 }
{
    let mut bytes = Vec::new(alloc);
    match read_to_end(alloc, input, &mut bytes) {
        Ok(()) => write_read(alloc, variant, options, bytes, output, said),
        Err(fault) => Err(fault),
    }
}

// Writes what is made of the text that these bytes are.
fn write_read<Wr: Write>(
    alloc: Global,
    variant: Variant,
    options: ImportOptions,
    bytes: Vec<u8>,
    output: &mut Counted<Wr>,
    said: &mut Vec<u8>,
) -> Result<Summary, RunFault>
    requires low { HasRoom output.old }
    requires silent { said.old.items ≡ [] }
    ensures counted { WritesAsCounted output.old output.new result }
    ensures wrote { WritesMade variant options bytes.items
        (Wr.contents (inner_of output.old)) (Wr.contents (inner_of output.new))
        said.new.items result }
{
    let text = read_text(alloc, bytes)?;
    write_made(alloc, variant, options, text.as_slice(), output, said)
}

// Reads the input to its end, and puts all of it into `bytes`.
fn read_to_end<Rd: Read>(
    alloc: Global,
    input: &mut Counted<Rd>,
    bytes: &mut Vec<u8>,
) -> Result<(), RunFault>
    requires low { HasRoom input.old }
    requires none { bytes.old.items ≡ [] }
    ensures counted { ReadsAsCounted standard input.old input.new result }
    ensures read { ReadsToEnd
        (Rd.remaining (inner_of input.old)) (Rd.remaining (inner_of input.new))
        bytes.new.items result }
{
    let mut room = zeros(alloc, ROOM)?;
    for _turn in 0..MOST_READS {
        match read_more(input, room.as_mut_slice(), bytes) {
            Ok(true) => {}
            Ok(false) => return Ok(()),
            Err(fault) => return Err(fault),
        }
    }
    Err(RunFault::ReaderNeverEnds)
}

// So many bytes.
fn zeros(alloc: Global, len: usize) -> Result<Vec<u8>, AllocError>
    ensures { IfOk result (λ zeros. length zeros.items ≡ len) }
{
    vec![in alloc; 0u8; len]
}

// Reads once, and puts what that gives after the bytes; returns whether it gave any.
fn read_more<Rd: Read>(
    input: &mut Counted<Rd>,
    room: &mut [u8],
    bytes: &mut Vec<u8>,
) -> Result<bool, RunFault>
    requires failures_low { (counts_of input.old).failures < 2 ^ 64 - 1 }
    requires fills_low { (counts_of input.old).fills < 2 ^ 64 - 1 }
    requires ends_low { (counts_of input.old).ends < 2 ^ 64 - 1 }
    requires some { 0 < length room.old }
    requires few { length bytes.old.items ≤ most_bytes }
    ensures counted { GrowsBy input.old input.new (more_counts result) }
    ensures bytes { ReadsMore
        (Rd.remaining (inner_of input.old)) (Rd.remaining (inner_of input.new))
        bytes.old.items bytes.new.items result }
{
    let Ok(given) = input.read(room) else {
        return Err(RunFault::Read);
    };
    if given == 0 {
        return Ok(false);
    }
    if bytes.len() + given > MOST_BYTES {
        return Err(RunFault::TooLarge);
    }
    bytes.extend_from_slice(&room[..given])?;
    Ok(true)
}

// Writes what is made of the text.
fn write_made<Wr: Write>(
    alloc: Global,
    variant: Variant,
    options: ImportOptions,
    text: &[u8],
    output: &mut Counted<Wr>,
    said: &mut Vec<u8>,
) -> Result<Summary, RunFault>
    requires low { HasRoom output.old }
    requires silent { said.old.items ≡ [] }
    ensures counted { WritesAsCounted output.old output.new result }
    ensures wrote { (bytes : Text) → text.now ≡ text_read bytes → WritesMade variant options bytes
        (Wr.contents (inner_of output.old)) (Wr.contents (inner_of output.new))
        said.new.items result }
{
    let product = product_of(alloc, variant, options, text)?;
    *said = product.said;
    match write_text(output, product.written.as_slice()) {
        Ok(()) => Ok(product.summary),
        Err(fault) => Err(fault),
    }
}

/// What is made of a text.
#[derive(Drop)]
struct Product {
    written: Vec<u8>,
    said: Vec<u8>,
    summary: Summary,
}

/// What is said of a text without a board.
const NO_BOARD: &[u8] = b"fcanon: there is no board in the input\n";

/// What is said of a text of which more is made than `run_show` takes.
const TOO_MUCH: &[u8] =
    b"fcanon: not imported: this makes more than one collection holds: import it in parts\n";

// What is made of the text for this game.
fn product_of(
    alloc: Global,
    variant: Variant,
    options: ImportOptions,
    text: &[u8],
) -> Result<Product, AllocError>
    ensures { (bytes : Text) → text.now ≡ text_read bytes → IfOk result
        (λ product. Makes variant options bytes
        product.written.items product.said.items product.summary) }
{
    match variant {
        Variant::FreeCell => product_for::<FreeCell>(alloc, options, text),
        Variant::BakersGame => product_for::<BakersGame>(alloc, options, text),
        Variant::EightOff => product_for::<EightOff>(alloc, options, text),
    }
}

// All that is made of the text, or nothing where there is no board, or more than `run_show` takes.
fn product_for<R: Rule>(
    alloc: Global,
    options: ImportOptions,
    text: &[u8],
) -> Result<Product, AllocError>
    ensures { (bytes : Text) → text.now ≡ text_read bytes → IfOk result
        (λ product. Makes R.VARIANT options bytes
        product.written.items product.said.items product.summary) }
{
    let made: Made<R> = import_text(alloc, options, text)?;
    if made.is_nothing() {
        let notes = with_tally(made.notes, made.tally)?;
        let product = nothing(alloc, notes, NO_BOARD)?;
        return Ok(product);
    }
    if !is_within_limits(made.written.as_slice()) {
        let product = nothing(alloc, made.notes, TOO_MUCH)?;
        return Ok(product);
    }
    let refused = refused_by(options.noted, made.tally, made.notes.as_slice());
    let summary = summary_of(made.tally.boards, refused);
    Ok(Product {
        written: made.written,
        said: with_tally(made.notes, made.tally)?,
        summary,
    })
}

// The summary of records that are written and pieces that are refused, each of which is a record.
fn summary_of(records: usize, refused: usize) -> Summary
    ensures records { result.records ≡ counted (records + refused) }
    ensures refused { result.refused ≡ refused }
{
    Summary {
        records: counted(records, refused),
        refused,
    }
}

// The notes, and the tally as their last line where there are any.
fn with_tally(notes: Vec<u8>, tally: Tally) -> Result<Vec<u8>, AllocError>
    ensures { IfOk result (λ said. said.items ≡ with_tally tally notes.items) }
{
    let mut said = notes;
    if !said.is_empty() {
        push_tally(tally, &mut said)?;
    }
    Ok(said)
}

// Nothing, with the notes and this line.
fn nothing(alloc: Global, notes: Vec<u8>, line: &[u8]) -> Result<Product, AllocError>
    ensures written { IfOk result (λ product. product.written.items ≡ []) }
    ensures said { IfOk result (λ product. product.said.items ≡ notes.items ++ line.now) }
    ensures records { IfOk result (λ product. product.summary.records ≡ 1) }
    ensures refused { IfOk result (λ product. product.summary.refused ≡ 1) }
{
    let mut said = notes;
    said.extend_from_slice(line)?;
    Ok(Product {
        written: Vec::new(alloc),
        said,
        summary: Summary {
            records: 1,
            refused: 1,
        },
    })
}
