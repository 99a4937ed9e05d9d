//! Canonical boards alone, and their hashes.
ghost use Rattle.std.specs.Prelude.{◌<◌, ◌≡◌, ◌≤◌, length};
ghost use Rattle.fc_bytes.specs.{HasHash, HasKey, HasNoBoardAt, HaveKeys, HoldsBoard, HoldsNone};
ghost use Rattle.fcanon_c.specs.{game_at, renamings_at};

use fc_bytes::BoardBytes;
use fc_bytes::calls::keys::{hash_of, key_of, keys_of};

/// The canonical board, without the passage to it.
#[unsafe(no_mangle)]
pub extern "C" fn fcanon_key(game: u32, board: &BoardBytes, key: &mut BoardBytes) -> u32
    ensures done { result ≡ 0 → HasKey (game_at game) (renamings_at game) board.now key.new }
    ensures no_game { 3 ≤ game → result ≡ 1 }
    ensures no_board { result ≡ 4 → HoldsNone (HoldsBoard (game_at game)) board.now }
    ensures no_other_answer { game < 3 → 0 < result → result ≡ 4 }
    ensures kept { 0 < result → key.new ≡ key.old }
{
    in_game!(game, key_of(board, key))
}

/// The hash of the canonical board.
#[unsafe(no_mangle)]
pub extern "C" fn fcanon_hash(game: u32, board: &BoardBytes, hash: &mut [u8; 16]) -> u32
    ensures done { result ≡ 0 → HasHash (game_at game) (renamings_at game) board.now hash.new }
    ensures no_game { 3 ≤ game → result ≡ 1 }
    ensures no_board { result ≡ 4 → HoldsNone (HoldsBoard (game_at game)) board.now }
    ensures no_other_answer { game < 3 → 0 < result → result ≡ 4 }
    ensures kept { 0 < result → hash.new ≡ hash.old }
{
    in_game!(game, hash_of(board, hash))
}

/// Makes each board its canonical one, up to the first that is none.
#[unsafe(no_mangle)]
pub extern "C" fn fcanon_keys(game: u32, boards: &mut [BoardBytes], place: &mut usize) -> u32
    ensures done { result ≡ 0
        → HaveKeys (game_at game) (renamings_at game) boards.old boards.new (length boards.old) }
    ensures no_game { 3 ≤ game → result ≡ 1 }
    ensures no_board { result ≡ 4
        → HasNoBoardAt (game_at game) (renamings_at game) boards.old boards.new place.new }
    ensures no_other_answer { game < 3 → 0 < result → result ≡ 4 }
    ensures kept { result ≡ 1 → boards.new ≡ boards.old }
    ensures no_place { result < 4 → place.new ≡ place.old }
{
    in_game!(game, keys_of(boards, place))
}
