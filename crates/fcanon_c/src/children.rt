//! All moves from a board.
ghost use Rattle.std.specs.Prelude.{◌<◌, ◌≡◌, ◌≤◌, ◌⊎◌, length};
ghost use Rattle.{fc_board.specs.Boards.{Board}, fcanon_c.specs.{game_at, renamings_at}};
ghost use Rattle.fc_bytes.specs.{AreMoves, AreRuns, class_hash.{HasChildHashes}};
ghost use Rattle.fc_bytes.specs.{HasChildren, HoldsBoard, HoldsNone, OfLegalMoves, OfLegalRuns};

use fc_bytes::calls::child_hashes::{child_hashes_of, known_child_hashes_of};
use fc_bytes::calls::children::{children_of, moves_of};
use fc_bytes::calls::run_moves::run_moves_of;
use fc_bytes::{BoardBytes, ChildHash, ClassSums, MoveBytes, RunBytes};

/// The moves of one card that the game allows.
#[unsafe(no_mangle)]
pub extern "C" fn fcanon_moves(
    game: u32,
    board: &BoardBytes,
    moves: &mut [MoveBytes],
    count: &mut usize,
) -> u32
    ensures done { result ≡ 0 → OfLegalMoves (game_at game) board.now
        (AreMoves moves.old moves.new count.new) }
    ensures no_room { result ≡ 9 → OfLegalMoves (game_at game) board.now
        (λ legal. length moves.old < length legal) }
    ensures no_game { 3 ≤ game → result ≡ 1 }
    ensures no_board { result ≡ 4 → HoldsNone (HoldsBoard (game_at game)) board.now }
    ensures no_other_answer { game < 3 → 0 < result → (result ≡ 4) ⊎ (result ≡ 9) }
    ensures kept { 0 < result → (moves.new ≡ moves.old) × (count.new ≡ count.old) }
{
    in_game!(game, moves_of(board, moves, count))
}

/// The moves of two and more cards that the game allows, each with its number of cards.
#[unsafe(no_mangle)]
pub extern "C" fn fcanon_run_moves(
    game: u32,
    board: &BoardBytes,
    runs: &mut [RunBytes],
    count: &mut usize,
) -> u32
    ensures done { result ≡ 0 → OfLegalRuns (game_at game) board.now
        (AreRuns runs.old runs.new count.new) }
    ensures no_room { result ≡ 9 → OfLegalRuns (game_at game) board.now
        (λ legal. length runs.old < length legal) }
    ensures no_game { 3 ≤ game → result ≡ 1 }
    ensures no_board { result ≡ 4 → HoldsNone (HoldsBoard (game_at game)) board.now }
    ensures no_other_answer { game < 3 → 0 < result → (result ≡ 4) ⊎ (result ≡ 9) }
    ensures kept { 0 < result → (runs.new ≡ runs.old) × (count.new ≡ count.old) }
{
    in_game!(game, run_moves_of(board, runs, count))
}

/// The moves of one card that the game allows, and for each the canonical board after it.
#[unsafe(no_mangle)]
pub extern "C" fn fcanon_children(
    game: u32,
    board: &BoardBytes,
    moves: &mut [MoveBytes],
    keys: &mut [BoardBytes],
    count: &mut usize,
) -> u32
    ensures done { result ≡ 0 → HasChildren (game_at game) (renamings_at game) board.now
        moves.old moves.new keys.old keys.new count.new }
    ensures no_room { result ≡ 9 → OfLegalMoves (game_at game) board.now
        (λ legal. (length moves.old < length legal) ⊎ (length keys.old < length legal)) }
    ensures no_game { 3 ≤ game → result ≡ 1 }
    ensures no_board { result ≡ 4 → HoldsNone (HoldsBoard (game_at game)) board.now }
    ensures no_other_answer { game < 3 → 0 < result → (result ≡ 4) ⊎ (result ≡ 9) }
    ensures kept { 0 < result → (moves.new ≡ moves.old) × (keys.new ≡ keys.old)
        × (count.new ≡ count.old) }
{
    in_game!(game, children_of(board, moves, keys, count))
}

/// The moves of one card that the game allows, each with the hash of the class of the board after
/// it, which is made of the board's sums.
#[unsafe(no_mangle)]
pub extern "C" fn fcanon_child_hashes(
    game: u32,
    board: &BoardBytes,
    sums: &ClassSums,
    children: &mut [ChildHash],
    count: &mut usize,
) -> u32
    ensures done { result ≡ 0 → HasChildHashes (game_at game) (renamings_at game) board.now
        sums.now children.old children.new count.new }
    ensures no_room { result ≡ 9 → OfLegalMoves (game_at game) board.now
        (λ legal. length children.old < length legal) }
    ensures no_game { 3 ≤ game → result ≡ 1 }
    ensures no_board { result ≡ 4 → HoldsNone (HoldsBoard (game_at game)) board.now }
    ensures no_other_answer { game < 3 → 0 < result → (result ≡ 4) ⊎ (result ≡ 9) }
    ensures kept { 0 < result → (children.new ≡ children.old) × (count.new ≡ count.old) }
{
    in_game!(game, child_hashes_of(board, sums, children, count))
}

/// The same of a board that is known to be one of the game, and so is not tested.
#[unsafe(no_mangle)]
pub extern "C" fn fcanon_known_child_hashes(
    game: u32,
    board: &BoardBytes,
    sums: &ClassSums,
    children: &mut [ChildHash],
    count: &mut usize,
) -> u32
    requires known { game < 3 → (held : Board) × HoldsBoard (game_at game) board.now held }
    ensures done { result ≡ 0 → HasChildHashes (game_at game) (renamings_at game) board.now
        sums.now children.old children.new count.new }
    ensures no_room { result ≡ 9 → OfLegalMoves (game_at game) board.now
        (λ legal. length children.old < length legal) }
    ensures no_game { 3 ≤ game → result ≡ 1 }
    ensures no_other_answer { game < 3 → 0 < result → result ≡ 9 }
    ensures kept { 0 < result → (children.new ≡ children.old) × (count.new ≡ count.old) }
{
    in_game!(game, known_child_hashes_of(board, sums, children, count))
}
