//! The moves of several cards that a board allows.
ghost use Rattle.arrayvec.specs.ArrayVec.{array_vec_len};
ghost use Rattle.std.specs.{List.{Contains}, Prelude.{◌++◌, ◌+◌, ◌<◌, ◌↔◌, ◌∷◌, ◌≡◌, ◌≤◌, ◌⊎◌, []}};
ghost use Rattle.std.specs.Prelude.{drop, if◌then◌else◌, is_none, length, map, Some, ℕ};
ghost use Rattle.fc_board.specs.Moves.{RunFits};
ghost use Rattle.fc_board.specs.Steps.{column_at, last_card, longest_run, run_refusal};
ghost use Rattle.fc_board.specs.declared.run_move.RunMove.{RunMove as Several, TheVariants.{Run}};
ghost use Rattle.fc_bytes.specs.{AreRuns, HoldsBoard, HoldsNone, IsAllowedRun, legal_runs};
ghost use Rattle.fc_bytes.specs.{legal_runs_between, legal_runs_from, OfLegalRuns, run_bytes};

use crate::calls::answers::{DONE, NO_BOARD, NO_ROOM};
use crate::{BoardBytes, RunBytes};
use arrayvec::ArrayVec;
use fc_board::{Board, Rule, RunMove, Source};
use fc_card::Card;

/// The moves of two and more cards from column to column that the game allows on the board, each
/// with its number of cards, in the order of their columns and numbers. They are at most 672.
pub fn run_moves_of<R: Rule>(board: &BoardBytes, runs: &mut [RunBytes], count: &mut usize) -> u32
    ensures done { result ≡ 0
        → OfLegalRuns R.game board.now (AreRuns runs.old runs.new count.new) }
    ensures no_room { result ≡ 9
        → OfLegalRuns R.game board.now (λ legal. length runs.old < length legal) }
    ensures no_board { result ≡ 4 → HoldsNone (HoldsBoard R.game) board.now }
    ensures no_other_answer { 0 < result → (result ≡ 4) ⊎ (result ≡ 9) }
    ensures kept { 0 < result → (runs.new ≡ runs.old) × (count.new ≡ count.old) }
{
    let Some(held) = board.board::<R>() else {
        return NO_BOARD;
    };
    let mut legal = ArrayVec::new();
    push_legal_runs(&mut legal, &held);
    if runs.len() < legal.len() {
        return NO_ROOM;
    }
    put_front(legal.as_slice(), runs);
    *count = legal.len();
    DONE
}

/// Puts the moves to the front of the room.
fn put_front(runs: &[RunBytes], room: &mut [RunBytes])
    requires { length runs.now ≤ length room.old }
    ensures { room.new ≡ runs.now ++ drop (length runs.now) room.old }
{
    room[..runs.len()].copy_from_slice(runs);
}

/// Pushes the bytes of the moves of several cards that the game allows on the board to a list
/// without one.
fn push_legal_runs<R: Rule>(runs: &mut ArrayVec<RunBytes, 672>, board: &Board<R>)
    requires none { runs.old.items ≡ [] }
    ensures runs { runs.new.items ≡ map run_bytes (legal_runs R.game board.now) }
    ensures exactly { (run : Several)
        → Contains (legal_runs R.game board.now) run ↔ IsAllowedRun R.game board.now run }
{
    for from in 0..8_u8 {
        push_runs_from(runs, board, from);
    }
}

/// Pushes the moves of several cards from this column that the game allows.
fn push_runs_from<R: Rule>(runs: &mut ArrayVec<RunBytes, 672>, board: &Board<R>, from: u8)
    requires from { from < 8 }
    requires room { array_vec_len runs.old + 84 ≤ 672 }
    ensures runs { runs.new.items
        ≡ runs.old.items ++ map run_bytes (legal_runs_from R.game board.now from) }
    ensures few { array_vec_len runs.new ≤ array_vec_len runs.old + 84 }
{
    let longest = board.longest_run(usize::from(from));
    if longest < 2 {
        return;
    }
    let Some(card) = board.card_at(Source::Column(from)) else {
        return;
    };
    for to in 0..8_u8 {
        if to != from {
            let pair = ColumnPair { from, to, longest };
            push_runs_between(runs, board, pair, card);
        }
    }
}

/// Two columns, and how many cards at the end of the first are a run.
#[derive(Clone, Copy)]
struct ColumnPair {
    from: u8,
    to: u8,
    longest: usize,
}

/// Pushes the moves of several cards between these columns that the game allows, where this is the
/// last card of the first.
fn push_runs_between<R: Rule>(
    runs: &mut ArrayVec<RunBytes, 672>,
    board: &Board<R>,
    pair: ColumnPair,
    card: Card,
)
    requires columns { (pair.from < 8) × (pair.to < 8) }
    requires longest { pair.longest ≡ longest_run R.game (column_at board.now pair.from) }
    requires card { last_card (column_at board.now pair.from) ≡ Some card }
    requires room { array_vec_len runs.old + 12 ≤ 672 }
    ensures runs { runs.new.items
        ≡ runs.old.items ++ map run_bytes (legal_runs_between R.game board.now pair.from pair.to) }
    ensures few { array_vec_len runs.new ≤ array_vec_len runs.old + 12 }
{
    match board.card_at(Source::Column(pair.to)) {
        Some(last) => push_run_onto(runs, board, pair, card, last),
        None => push_runs_of_each_count(runs, board, pair),
    }
}

/// The same where the other column has this last card: as many cards go as it is ranks higher, or
/// none.
fn push_run_onto<R: Rule>(
    runs: &mut ArrayVec<RunBytes, 672>,
    board: &Board<R>,
    pair: ColumnPair,
    card: Card,
    last: Card,
)
    requires columns { (pair.from < 8) × (pair.to < 8) }
    requires longest { pair.longest ≡ longest_run R.game (column_at board.now pair.from) }
    requires card { last_card (column_at board.now pair.from) ≡ Some card }
    requires last { last_card (column_at board.now pair.to) ≡ Some last }
    requires room { array_vec_len runs.old + 12 ≤ 672 }
    ensures runs { runs.new.items
        ≡ runs.old.items ++ map run_bytes (legal_runs_between R.game board.now pair.from pair.to) }
    ensures few { array_vec_len runs.new ≤ array_vec_len runs.old + 12 }
{
    let count = last.rank().number().saturating_sub(card.rank().number());
    if count < 2 || usize::from(count) > pair.longest {
        return;
    }
    push_run(runs, board, pair.from, pair.to, count);
}

/// The same for each number of cards that a run can have.
fn push_runs_of_each_count<R: Rule>(
    runs: &mut ArrayVec<RunBytes, 672>,
    board: &Board<R>,
    pair: ColumnPair,
)
    requires columns { (pair.from < 8) × (pair.to < 8) }
    requires longest { pair.longest ≡ longest_run R.game (column_at board.now pair.from) }
    requires room { array_vec_len runs.old + 12 ≤ 672 }
    ensures runs { runs.new.items
        ≡ runs.old.items ++ map run_bytes (legal_runs_between R.game board.now pair.from pair.to) }
    ensures few { array_vec_len runs.new ≤ array_vec_len runs.old + 12 }
{
    for more in 0..pair.longest.min(13).saturating_sub(1) {
        push_run(runs, board, pair.from, pair.to, more as u8 + 2);
    }
}

/// Pushes the move of so many cards between these columns if the game allows it.
fn push_run<R: Rule>(
    runs: &mut ArrayVec<RunBytes, 672>,
    board: &Board<R>,
    from: u8,
    to: u8,
    count: u8,
)
    requires fits { RunFits R.game (Run from to (Some count)) }
    requires room { array_vec_len runs.old < 672 }
    ensures runs { runs.new.items ≡ runs.old.items
        ++ (if is_none (run_refusal R.game board.now (Run from to (Some count)))
        then run_bytes (Run from to (Some count)) ∷ [] else []) }
    ensures few { array_vec_len runs.new ≤ array_vec_len runs.old + 1 }
{
    let run = RunMove::Run {
        from,
        to,
        count: Some(count),
    };
    if board.allows_run(run) {
        runs.push(RunBytes::of::<R>(run));
    }
}
