//! A run of a command over a collection in memory.
ghost use Rattle.std.specs.Prelude.{◌<◌, ◌≡◌, ◌≢◌, ◌≤◌, ◌⊎◌, IfErr, IfOk, length};
ghost use Rattle.fc_board.specs.Games.{variant_at};
ghost use Rattle.fc_collect.specs.{Limits.{AreCountable}, Promises.{OutputOf}, Runs.{printing_of}};
ghost use Rattle.fcanon_runs.specs.{fault_answer, FaultOf, HandsOver, kind_at, limits_at};
ghost use Rattle.fcanon_runs.specs.{NeedsRoom};

use crate::numbers::{NO_FORMAT, NO_GAME, NO_TASK, answer_to, kind_of};
use crate::output::{Written, hand_over};
use fc_collect::{
    Counted, Limits, RunConfig, RunFault, RunKind, Seed, Summary, Variant, run_within,
};
use std::alloc::Global;

/// What a call of `fcanon_run` is to do.
#[repr(C)]
#[derive(Clone, Copy, PartialEq, Eq)]
pub struct Request {
    /// The command: 0 show, 1 canon, 2 check, 3 group, 4 share, 5 expand, 6 unique, 7 table,
    /// 8 same, 9 symmetries, 10 count, 11 closed.
    pub task: u32,
    /// 0 for lines, 1 for a table with a header, 2 for JSON.
    pub format: u32,
    /// The game of records without a header: 0 FreeCell, 1 Baker's Game, 2 Eight Off.
    pub game: u32,
    /// 0 for a collection of at most 65,536 records and 16 MiB, and any other number for any size.
    pub any_size: u32,
    /// What the hashes of boards begin with. The output is the same for each seed.
    pub seed: u64,
}

/// Does over the input what the request says, and puts what the program writes to the front of the
/// output. Where that has too little room, `written` says how much is needed.
#[unsafe(no_mangle)]
pub extern "C" fn fcanon_run(
    alloc: Global,
    request: &Request,
    input: &[u8],
    output: &mut [u8],
    written: &mut Written,
) -> u32
    ensures done { result ≡ 0 → HandsOver
        (OutputOf (limits_at request.now.any_size)
        (printing_of (kind_at request.now.task request.now.format) (variant_at request.now.game))
        input.now)
        output.old output.new written.new }
    ensures no_room { result ≡ 9 → NeedsRoom
        (OutputOf (limits_at request.now.any_size)
        (printing_of (kind_at request.now.task request.now.format) (variant_at request.now.game))
        input.now)
        output.old written.new }
    ensures fault { 11 < result → FaultOf (limits_at request.now.any_size) input.now result }
    ensures no_game { 3 ≤ request.now.game → result ≡ 1 }
    ensures no_task { request.now.game < 3 → 12 ≤ request.now.task → result ≡ 10 }
    ensures no_format { request.now.game < 3 → request.now.task < 12
        → 3 ≤ request.now.format → result ≡ 11 }
    ensures no_other_answer { request.now.game < 3 → request.now.task < 12
        → request.now.format < 3 → (result ≡ 0) ⊎ (result ≡ 9) ⊎ (11 < result) }
    ensures kept { 0 < result → output.new ≡ output.old }
    ensures no_counts { 0 < result → result ≢ 9 → written.new ≡ written.old }
{
    let Some(variant) = Variant::numbered(request.game) else {
        return NO_GAME;
    };
    if request.task > 11 {
        return NO_TASK;
    }
    let Some(kind) = kind_of(request.task, request.format) else {
        return NO_FORMAT;
    };
    let config = RunConfig {
        alloc,
        variant,
        limits: limits_of(request.any_size),
        seed: Seed(request.seed),
    };
    match run_over(config, kind, input) {
        Ok(printed) => hand_over(printed.text.as_slice(), printed.summary, output, written),
        Err(fault) => answer_to(fault),
    }
}

// The limits of a run that takes any size, or of one that is given no others.
fn limits_of(any_size: u32) -> Limits
    ensures limits { result ≡ limits_at any_size }
    ensures countable { AreCountable result }
{
    match any_size {
        0 => Limits::STANDARD,
        _ => Limits::LARGEST,
    }
}

// What a run wrote, and its counts.
#[derive(Drop)]
struct Printed {
    text: Vec<u8>,
    summary: Summary,
}

// Runs over the input from its first byte to its last.
fn run_over(config: RunConfig, kind: RunKind, input: &[u8]) -> Result<Printed, RunFault>
    requires { AreCountable config.limits }
    ensures done { IfOk result (λ printed. OutputOf config.limits
        (printing_of kind config.variant) input.now printed.text.items printed.summary) }
    ensures fault { IfErr result (λ fault. FaultOf config.limits input.now (fault_answer fault)) }
{
    let mut reader = Counted::new(input);
    let mut writer = Counted::new(Vec::new(config.alloc));
    match run_within(config, kind, &mut reader, &mut writer) {
        Ok(summary) => Ok(Printed {
            text: writer.into_inner(),
            summary,
        }),
        Err(fault) => Err(fault),
    }
}
