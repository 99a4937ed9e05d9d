//! An import of a text in memory.
ghost use Rattle.std.specs.Prelude.{◌<◌, ◌≡◌, ◌≢◌, ◌≤◌, ◌⊎◌, IfErr, IfOk, length};
ghost use Rattle.fcanon_runs.specs.{fault_answer, HandsOverImport, ImportFaultOf, ImportOf};
ghost use Rattle.fcanon_runs.specs.{NeedsRoomForImport};

use crate::numbers::{DONE, NO_GAME, NO_ROOM, answer_to, lines_of};
use crate::output::{Written, put_front};
use fc_collect::{Counted, RunFault, Summary, Variant};
use fc_import::{ImportOptions, LinesAre, Noted, run_import};
use std::alloc::Global;

/// What a call of `fcanon_import` is to do.
#[repr(C)]
#[derive(Clone, Copy, PartialEq, Eq)]
pub struct ImportRequest {
    /// The game of boards: 0 FreeCell, 1 Baker's Game, 2 Eight Off.
    pub game: u32,
    /// What lines of cards are that may be columns or rows: 1 for columns, 2 for rows, and any
    /// other number where it is not said.
    pub lines: u32,
}

/// What an import writes, and its counts.
#[repr(C)]
#[derive(Clone, Copy, PartialEq, Eq)]
pub struct Imported {
    /// The output.
    pub written: Written,
    /// How many bytes the notes have.
    pub noted: usize,
}

/// Makes a collection of the text, as the program does, and puts it to the front of the output, and
/// what is said of the text to the front of the notes. Where one of them has too little room,
/// `imported` says how much is needed.
#[unsafe(no_mangle)]
pub extern "C" fn fcanon_import(
    alloc: Global,
    request: &ImportRequest,
    input: &[u8],
    output: &mut [u8],
    notes: &mut [u8],
    imported: &mut Imported,
) -> u32
    ensures done { result ≡ 0 → HandsOverImport request.now input.now
        output.old output.new notes.old notes.new imported.new }
    ensures no_room { result ≡ 9
        → NeedsRoomForImport request.now input.now output.old notes.old imported.new }
    ensures fault { result ≡ 13 → ImportFaultOf input.now }
    ensures no_game { 3 ≤ request.now.game → result ≡ 1 }
    ensures no_other_answer { request.now.game < 3
        → (result ≡ 0) ⊎ (result ≡ 9) ⊎ (11 < result) }
    ensures kept { 0 < result → (output.new ≡ output.old) × (notes.new ≡ notes.old) }
    ensures no_counts { 0 < result → result ≢ 9 → imported.new ≡ imported.old }
{
    let Some(variant) = Variant::numbered(request.game) else {
        return NO_GAME;
    };
    let made = match import_over(alloc, variant, lines_of(request.lines), input) {
        Ok(made) => made,
        Err(fault) => return answer_to(fault),
    };
    let (text, said) = (made.text.as_slice(), made.said.as_slice());
    *imported = Imported {
        written: Written::of(text, made.summary),
        noted: said.len(),
    };
    if output.len() < text.len() || notes.len() < said.len() {
        return NO_ROOM;
    }
    put_front(text, output);
    put_front(said, notes);
    DONE
}

// The collection that is made of a text, what is said of the text, and the counts.
#[derive(Drop)]
struct Made {
    text: Vec<u8>,
    said: Vec<u8>,
    summary: Summary,
}

// Imports the input from its first byte to its last.
fn import_over(
    alloc: Global,
    variant: Variant,
    lines_are: LinesAre,
    input: &[u8],
) -> Result<Made, RunFault>
    ensures done { IfOk result (λ made. ImportOf variant lines_are input.now
        made.text.items made.said.items made.summary) }
    ensures fault { IfErr result (λ fault. fault_answer fault ≡ 13 → ImportFaultOf input.now) }
{
    let options = ImportOptions {
        lines_are,
        noted: Noted::Doubts,
    };
    let mut reader = Counted::new(input);
    let mut writer = Counted::new(Vec::new(alloc));
    let mut said = Vec::new(alloc);
    match run_import(alloc, variant, options, &mut reader, &mut writer, &mut said) {
        Ok(summary) => Ok(Made {
            text: writer.into_inner(),
            said,
            summary,
        }),
        Err(fault) => Err(fault),
    }
}
