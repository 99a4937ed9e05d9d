//! Moves of several cards: how many can go, and such moves played, carried, and taken apart.
ghost use Rattle.std.specs.Prelude.{◌++◌, ◌<◌, ◌≡◌, ◌≤◌, ◌⊎◌, All, drop, length, map};
ghost use Rattle.fc_board.specs.{Moves.{Fits}, Passages.{carried_run}};
ghost use Rattle.fc_board.specs.Steps.{run_refusal, RunStep};
ghost use Rattle.fc_bytes.specs.{AreMoves, CarriesMove, HasCapacity, HoldsBoard, HoldsFirstAlone};
ghost use Rattle.fc_bytes.specs.{HoldsNone, HoldsPassage, HoldsRun, move_bytes, NamesColumn};
ghost use Rattle.fc_bytes.specs.{OfExpansion, PlaysMove, RefusesMove};

use crate::calls::answers::{
    DONE, NO_BOARD, NO_COLUMN, NO_MOVE, NO_PASSAGE, NO_ROOM, reason_number,
};
use crate::{BoardBytes, MoveBytes, PassageBytes, RunBytes};
use fc_board::{Move, Rule};
use fc_text::column_named;

/// How many cards can be moved at once to the column of this digit.
pub fn capacity_of<R: Rule>(board: &BoardBytes, to: u8, cards: &mut u32) -> u32
    ensures done { result ≡ 0 → HasCapacity R.game board.now to cards.new }
    ensures no_board { result ≡ 4 → HoldsNone (HoldsBoard R.game) board.now }
    ensures no_column { result ≡ 8
        → HoldsFirstAlone (HoldsBoard R.game) NamesColumn board.now to }
    ensures no_other_answer { 0 < result → (result ≡ 4) ⊎ (result ≡ 8) }
    ensures kept { 0 < result → cards.new ≡ cards.old }
{
    let Some(held) = board.board::<R>() else {
        return NO_BOARD;
    };
    let Some(column) = column_named(to) else {
        return NO_COLUMN;
    };
    *cards = u32::from(held.capacity(column));
    DONE
}

/// Makes a move of several cards the one of the same cards on the board that the passage leads to.
pub fn carry_of<R: Rule>(passage: &PassageBytes, run: &mut RunBytes) -> u32
    ensures done { result ≡ 0
        → CarriesMove R.game HoldsRun carried_run passage.now run.old run.new }
    ensures no_passage { result ≡ 2 → HoldsNone (HoldsPassage R.game) passage.now }
    ensures no_move { result ≡ 3
        → HoldsFirstAlone (HoldsPassage R.game) (HoldsRun R.game) passage.now run.old }
    ensures no_other_answer { 0 < result → (2 ≤ result) × (result ≤ 3) }
    ensures kept { 0 < result → run.new ≡ run.old }
{
    let Some(way) = passage.passage::<R>() else {
        return NO_PASSAGE;
    };
    let Some(one) = run.run::<R>() else {
        return NO_MOVE;
    };
    *run = RunBytes::of::<R>(way.carry_run(one));
    DONE
}

/// Moves one card, or the last cards of a column to another.
pub fn play_of<R: Rule>(board: &mut BoardBytes, run: &RunBytes) -> u32
    ensures done { result ≡ 0
        → PlaysMove R.game HoldsRun RunStep board.old run.now board.new }
    ensures refused { 32 ≤ result
        → RefusesMove R.game HoldsRun run_refusal board.old run.now result }
    ensures no_move { result ≡ 3
        → HoldsFirstAlone (HoldsBoard R.game) (HoldsRun R.game) board.old run.now }
    ensures no_board { result ≡ 4 → HoldsNone (HoldsBoard R.game) board.old }
    ensures no_other_answer { 0 < result → result < 32 → (3 ≤ result) × (result ≤ 4) }
    ensures kept { 0 < result → board.new ≡ board.old }
{
    let Some(mut played) = board.board::<R>() else {
        return NO_BOARD;
    };
    let Some(one) = run.run::<R>() else {
        return NO_MOVE;
    };
    match played.step_run(one) {
        Ok(()) => {
            *board = BoardBytes::of(&played);
            DONE
        }
        Err(fault) => reason_number(fault),
    }
}

/// The moves of one card, one after another, that do what the move of several does.
pub fn expand_of<R: Rule>(
    board: &BoardBytes,
    run: &RunBytes,
    moves: &mut [MoveBytes],
    count: &mut usize,
) -> u32
    ensures done { result ≡ 0
        → OfExpansion R.game board.now run.now (AreMoves moves.old moves.new count.new) }
    ensures refused { 32 ≤ result
        → RefusesMove R.game HoldsRun run_refusal board.now run.now result }
    ensures no_room { result ≡ 9
        → OfExpansion R.game board.now run.now (λ all. length moves.old < length all) }
    ensures no_move { result ≡ 3
        → HoldsFirstAlone (HoldsBoard R.game) (HoldsRun R.game) board.now run.now }
    ensures no_board { result ≡ 4 → HoldsNone (HoldsBoard R.game) board.now }
    ensures no_other_answer { 0 < result → result < 32
        → (result ≡ 3) ⊎ (result ≡ 4) ⊎ (result ≡ 9) }
    ensures kept { 0 < result → (moves.new ≡ moves.old) × (count.new ≡ count.old) }
{
    let Some(held) = board.board::<R>() else {
        return NO_BOARD;
    };
    let Some(one) = run.run::<R>() else {
        return NO_MOVE;
    };
    match held.expand(one) {
        Ok(steps) => put_moves::<R>(steps.as_slice(), moves, count),
        Err(fault) => reason_number(fault),
    }
}

/// Writes the moves, and how many they are, where there is room for them.
pub(crate) fn put_moves<R: Rule>(steps: &[Move], moves: &mut [MoveBytes], count: &mut usize) -> u32
    requires { All (Fits R.game) steps.now }
    ensures done { result ≡ 0 → (count.new ≡ length steps.now)
        × (moves.new ≡ map move_bytes steps.now ++ drop (length steps.now) moves.old) }
    ensures no_room { 0 < result → (result ≡ 9) × (length moves.old < length steps.now) }
    ensures kept { 0 < result → (moves.new ≡ moves.old) × (count.new ≡ count.old) }
{
    if moves.len() < steps.len() {
        return NO_ROOM;
    }
    for (place, step) in steps.iter().enumerate() {
        moves[place] = MoveBytes::of::<R>(*step);
    }
    *count = steps.len();
    DONE
}
