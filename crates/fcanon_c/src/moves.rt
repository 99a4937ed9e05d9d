//! Moves played, and carried through passages.
ghost use Rattle.std.specs.Prelude.{◌<◌, ◌≡◌, ◌≤◌};
ghost use Rattle.fc_board.specs.{Passages.{carried_move}, Steps.{refusal, Step}};
ghost use Rattle.fc_bytes.specs.{CarriesMove, HoldsBoard, HoldsFirstAlone, HoldsMove, HoldsNone};
ghost use Rattle.fc_bytes.specs.{HoldsPassage, LeadsToChild, PlaysMove, RefusesMove};
ghost use Rattle.fcanon_c.specs.{game_at, renamings_at};

use fc_bytes::calls::moves::{carry_of, child_of, play_of};
use fc_bytes::{BoardBytes, MoveBytes, PassageBytes};

/// Makes a move the one of the same card on the board that the passage leads to.
#[unsafe(no_mangle)]
pub extern "C" fn fcanon_carry(game: u32, passage: &PassageBytes, mv: &mut MoveBytes) -> u32
    ensures done { result ≡ 0
        → CarriesMove (game_at game) HoldsMove carried_move passage.now mv.old mv.new }
    ensures no_game { 3 ≤ game → result ≡ 1 }
    ensures no_passage { result ≡ 2 → HoldsNone (HoldsPassage (game_at game)) passage.now }
    ensures no_move { result ≡ 3
        → HoldsFirstAlone (HoldsPassage (game_at game))
        (HoldsMove (game_at game)) passage.now mv.old }
    ensures no_other_answer { game < 3 → 0 < result → (2 ≤ result) × (result ≤ 3) }
    ensures kept { 0 < result → mv.new ≡ mv.old }
{
    in_game!(game, carry_of(passage, mv))
}

/// Moves one card.
#[unsafe(no_mangle)]
pub extern "C" fn fcanon_play(game: u32, board: &mut BoardBytes, mv: &MoveBytes) -> u32
    ensures done { result ≡ 0
        → PlaysMove (game_at game) HoldsMove Step board.old mv.now board.new }
    ensures refused { 32 ≤ result
        → RefusesMove (game_at game) HoldsMove refusal board.old mv.now result }
    ensures no_game { 3 ≤ game → result ≡ 1 }
    ensures no_move { result ≡ 3
        → HoldsFirstAlone (HoldsBoard (game_at game)) (HoldsMove (game_at game)) board.old mv.now }
    ensures no_board { result ≡ 4 → HoldsNone (HoldsBoard (game_at game)) board.old }
    ensures no_other_answer { game < 3 → 0 < result → result < 32 → (3 ≤ result) × (result ≤ 4) }
    ensures kept { 0 < result → board.new ≡ board.old }
{
    in_game!(game, play_of(board, mv))
}

/// The canonical board of the board after a move, and the chosen passage to it.
#[unsafe(no_mangle)]
pub extern "C" fn fcanon_child(
    game: u32,
    board: &BoardBytes,
    mv: &MoveBytes,
    canonical: &mut BoardBytes,
    passage: &mut PassageBytes,
) -> u32
    ensures done { result ≡ 0
        → LeadsToChild (game_at game) (renamings_at game) board.now mv.now
        canonical.new passage.new }
    ensures refused { 32 ≤ result
        → RefusesMove (game_at game) HoldsMove refusal board.now mv.now result }
    ensures no_game { 3 ≤ game → result ≡ 1 }
    ensures no_move { result ≡ 3
        → HoldsFirstAlone (HoldsBoard (game_at game)) (HoldsMove (game_at game)) board.now mv.now }
    ensures no_board { result ≡ 4 → HoldsNone (HoldsBoard (game_at game)) board.now }
    ensures no_other_answer { game < 3 → 0 < result → result < 32 → (3 ≤ result) × (result ≤ 4) }
    ensures kept { 0 < result → (canonical.new ≡ canonical.old) × (passage.new ≡ passage.old) }
{
    in_game!(game, child_of(board, mv, canonical, passage))
}
