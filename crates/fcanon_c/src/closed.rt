//! Keys of closed lists, and boards from which no list of moves wins.
ghost use Rattle.std.specs.{List.{Contains}, Prelude.{◌<◌, ◌↔◌, ◌≡◌, ◌≤◌, ◌⊎◌}};
ghost use Rattle.{fc_board.specs.Boards.{Board}, fc_bytes.specs.{HoldsBoard}};
ghost use Rattle.fc_bytes.specs.declared.board.BoardBytes.{BoardBytes as Bytes};
ghost use Rattle.fc_closed.specs.{AreClosedKeys, IsDoubted, IsFirstFlaw, IsUnsolvable};
ghost use Rattle.fc_closed.specs.{ShowUnsolvable};
ghost use Rattle.fc_closed.specs.declared.check.Flaw.TheVariants.{NoBoard, NotAbove, NotCanonical};
ghost use Rattle.fc_closed.specs.declared.check.Flaw.TheVariants.{Open, Won};
ghost use Rattle.fc_closed.specs.declared.check.Doubt.TheVariants as doubt;
ghost use Rattle.fcanon_c.specs.{game_at, renamings_at};

use fc_bytes::{BoardBytes, MoveBytes};
use fc_closed::calls::{closed_of, unsolvable_of};

/// Whether keys are those of a closed list; if not, the place of the first that is at fault, and
/// the first move that leads out.
#[unsafe(no_mangle)]
pub extern "C" fn fcanon_closed(
    game: u32,
    keys: &[BoardBytes],
    place: &mut usize,
    mv: &mut MoveBytes,
) -> u32
    ensures closed { game < 3
        → result ≡ 0 ↔ AreClosedKeys (game_at game) (renamings_at game) keys.now }
    ensures unsolvable { result ≡ 0 → (key : Bytes) (board : Board) → Contains keys.now key
        → HoldsBoard (game_at game) key board → IsUnsolvable (game_at game) board }
    ensures no_game { 3 ≤ game → result ≡ 1 }
    ensures no_board { result ≡ 4
        → IsFirstFlaw (game_at game) (renamings_at game) keys.now place.new NoBoard }
    ensures not_canonical { result ≡ 16
        → IsFirstFlaw (game_at game) (renamings_at game) keys.now place.new NotCanonical }
    ensures not_above { result ≡ 17
        → IsFirstFlaw (game_at game) (renamings_at game) keys.now place.new NotAbove }
    ensures won { result ≡ 18
        → IsFirstFlaw (game_at game) (renamings_at game) keys.now place.new Won }
    ensures open { result ≡ 19
        → IsFirstFlaw (game_at game) (renamings_at game) keys.now place.new (Open mv.new) }
    ensures no_other_answer { game < 3 → 0 < result
        → (result ≡ 4) ⊎ ((16 ≤ result) × (result ≤ 19)) }
    ensures no_place { result < 4 → place.new ≡ place.old }
    ensures no_move { result < 19 → mv.new ≡ mv.old }
{
    in_game!(game, closed_of(keys, place, mv))
}

/// Whether keys show that no list of moves wins from the board.
#[unsafe(no_mangle)]
pub extern "C" fn fcanon_unsolvable(game: u32, board: &BoardBytes, keys: &[BoardBytes]) -> u32
    ensures shown { game < 3
        → result ≡ 0 ↔ ShowUnsolvable (game_at game) (renamings_at game) board.now keys.now }
    ensures unsolvable { result ≡ 0 → (held : Board) × HoldsBoard (game_at game) board.now held
        × IsUnsolvable (game_at game) held }
    ensures no_game { 3 ≤ game → result ≡ 1 }
    ensures no_board { result ≡ 4
        → IsDoubted (game_at game) (renamings_at game) board.now keys.now doubt.NoBoard }
    ensures not_closed { result ≡ 20
        → IsDoubted (game_at game) (renamings_at game) board.now keys.now doubt.NotClosed }
    ensures not_among { result ≡ 21
        → IsDoubted (game_at game) (renamings_at game) board.now keys.now doubt.NotAmong }
    ensures no_other_answer { game < 3 → 0 < result
        → (result ≡ 4) ⊎ ((20 ≤ result) × (result ≤ 21)) }
{
    in_game!(game, unsolvable_of(board, keys))
}
