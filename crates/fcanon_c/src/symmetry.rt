//! The symmetries of a board.
ghost use Rattle.std.specs.Prelude.{◌<◌, ◌≡◌, ◌≤◌};
ghost use Rattle.{fc_bytes.specs.{HasSymmetries, HoldsBoard, HoldsNone}, fcanon_c.specs.{game_at}};

use fc_bytes::BoardBytes;
use fc_bytes::calls::symmetry::symmetries_of;

/// The renamings that with some orders lead from the board to itself.
#[unsafe(no_mangle)]
pub extern "C" fn fcanon_symmetries(
    game: u32,
    board: &BoardBytes,
    suits: &mut [[u8; 4]; 24],
    count: &mut u32,
) -> u32
    ensures done { result ≡ 0
        → HasSymmetries (game_at game) board.now suits.old suits.new count.new }
    ensures no_game { 3 ≤ game → result ≡ 1 }
    ensures no_board { result ≡ 4 → HoldsNone (HoldsBoard (game_at game)) board.now }
    ensures no_other_answer { game < 3 → 0 < result → result ≡ 4 }
    ensures kept { 0 < result → (suits.new ≡ suits.old) × (count.new ≡ count.old) }
{
    in_game!(game, symmetries_of(board, suits, count))
}
