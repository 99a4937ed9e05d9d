//! Moves of several cards: how many can go, and such moves played, carried, and taken apart.
ghost use Rattle.std.specs.Prelude.{◌<◌, ◌≡◌, ◌≤◌, ◌⊎◌, length};
ghost use Rattle.fc_board.specs.{Passages.{carried_run}, Steps.{run_refusal, RunStep}};
ghost use Rattle.fc_bytes.specs.{AreMoves, CarriesMove, HasCapacity, HoldsBoard, HoldsFirstAlone};
ghost use Rattle.fc_bytes.specs.{HoldsNone, HoldsPassage, HoldsRun, NamesColumn, OfExpansion};
ghost use Rattle.fc_bytes.specs.{PlaysMove, RefusesMove};
ghost use Rattle.fcanon_c.specs.{game_at};

use fc_bytes::calls::runs::{capacity_of, carry_of, expand_of, play_of};
use fc_bytes::{BoardBytes, MoveBytes, PassageBytes, RunBytes};

/// How many cards can be moved at once to the column of this digit.
#[unsafe(no_mangle)]
pub extern "C" fn fcanon_capacity(game: u32, board: &BoardBytes, to: u8, cards: &mut u32) -> u32
    ensures done { result ≡ 0 → HasCapacity (game_at game) board.now to cards.new }
    ensures no_game { 3 ≤ game → result ≡ 1 }
    ensures no_board { result ≡ 4 → HoldsNone (HoldsBoard (game_at game)) board.now }
    ensures no_column { result ≡ 8
        → HoldsFirstAlone (HoldsBoard (game_at game)) NamesColumn board.now to }
    ensures no_other_answer { game < 3 → 0 < result → (result ≡ 4) ⊎ (result ≡ 8) }
    ensures kept { 0 < result → cards.new ≡ cards.old }
{
    in_game!(game, capacity_of(board, to, cards))
}

/// Makes a move of several cards the one of the same cards on the board that the passage leads to.
#[unsafe(no_mangle)]
pub extern "C" fn fcanon_carry_run(game: u32, passage: &PassageBytes, run: &mut RunBytes) -> u32
    ensures done { result ≡ 0
        → CarriesMove (game_at game) HoldsRun carried_run passage.now run.old run.new }
    ensures no_game { 3 ≤ game → result ≡ 1 }
    ensures no_passage { result ≡ 2 → HoldsNone (HoldsPassage (game_at game)) passage.now }
    ensures no_move { result ≡ 3
        → HoldsFirstAlone (HoldsPassage (game_at game))
        (HoldsRun (game_at game)) passage.now run.old }
    ensures no_other_answer { game < 3 → 0 < result → (2 ≤ result) × (result ≤ 3) }
    ensures kept { 0 < result → run.new ≡ run.old }
{
    in_game!(game, carry_of(passage, run))
}

/// Moves one card, or the last cards of a column to another.
#[unsafe(no_mangle)]
pub extern "C" fn fcanon_play_run(game: u32, board: &mut BoardBytes, run: &RunBytes) -> u32
    ensures done { result ≡ 0
        → PlaysMove (game_at game) HoldsRun RunStep board.old run.now board.new }
    ensures refused { 32 ≤ result
        → RefusesMove (game_at game) HoldsRun run_refusal board.old run.now result }
    ensures no_game { 3 ≤ game → result ≡ 1 }
    ensures no_move { result ≡ 3
        → HoldsFirstAlone (HoldsBoard (game_at game)) (HoldsRun (game_at game)) board.old run.now }
    ensures no_board { result ≡ 4 → HoldsNone (HoldsBoard (game_at game)) board.old }
    ensures no_other_answer { game < 3 → 0 < result → result < 32 → (3 ≤ result) × (result ≤ 4) }
    ensures kept { 0 < result → board.new ≡ board.old }
{
    in_game!(game, play_of(board, run))
}

/// The moves of one card, one after another, that do what the move of several does.
#[unsafe(no_mangle)]
pub extern "C" fn fcanon_expand(
    game: u32,
    board: &BoardBytes,
    run: &RunBytes,
    moves: &mut [MoveBytes],
    count: &mut usize,
) -> u32
    ensures done { result ≡ 0
        → OfExpansion (game_at game) board.now run.now (AreMoves moves.old moves.new count.new) }
    ensures refused { 32 ≤ result
        → RefusesMove (game_at game) HoldsRun run_refusal board.now run.now result }
    ensures no_room { result ≡ 9
        → OfExpansion (game_at game) board.now run.now (λ all. length moves.old < length all) }
    ensures no_game { 3 ≤ game → result ≡ 1 }
    ensures no_move { result ≡ 3
        → HoldsFirstAlone (HoldsBoard (game_at game)) (HoldsRun (game_at game)) board.now run.now }
    ensures no_board { result ≡ 4 → HoldsNone (HoldsBoard (game_at game)) board.now }
    ensures no_other_answer { game < 3 → 0 < result → result < 32
        → (result ≡ 3) ⊎ (result ≡ 4) ⊎ (result ≡ 9) }
    ensures kept { 0 < result → (moves.new ≡ moves.old) × (count.new ≡ count.old) }
{
    in_game!(game, expand_of(board, run, moves, count))
}
