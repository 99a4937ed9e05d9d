//! The sums of boards, kept up to date, and the hashes of their classes.
ghost use Rattle.std.specs.Prelude.{◌<◌, ◌≡◌, ◌≤◌};
ghost use Rattle.fc_bytes.specs.class_hash.{AreMoved, CanMove, hash_of_sums, HasSums, sums_in};
ghost use Rattle.fc_bytes.specs.{HoldsBoard, HoldsNone};
ghost use Rattle.fcanon_c.specs.{game_at, renamings_at};

use fc_bytes::calls::sums::{class_hash_of, move_of, sums_of};
use fc_bytes::{BoardBytes, ClassSums};

/// The sums of a board.
#[unsafe(no_mangle)]
pub extern "C" fn fcanon_sums(game: u32, board: &BoardBytes, sums: &mut ClassSums) -> u32
    ensures done { result ≡ 0 → HasSums (game_at game) (renamings_at game) board.now sums.new }
    ensures no_game { 3 ≤ game → result ≡ 1 }
    ensures no_board { result ≡ 4 → HoldsNone (HoldsBoard (game_at game)) board.now }
    ensures no_other_answer { game < 3 → 0 < result → result ≡ 4 }
    ensures kept { 0 < result → sums.new ≡ sums.old }
{
    in_game!(game, sums_of(board, sums))
}

/// Makes the sums those of the board on which this card lies on the one thing no more, but on the
/// other.
#[unsafe(no_mangle)]
pub extern "C" fn fcanon_move_sums(
    game: u32,
    card: u8,
    from: u8,
    onto: u8,
    sums: &mut ClassSums,
) -> u32
    ensures done { result ≡ 0 → AreMoved (renamings_at game) card from onto sums.old sums.new }
    ensures no_game { 3 ≤ game → result ≡ 1 }
    ensures no_move { result ≡ 3 → ¬ CanMove card from onto }
    ensures no_other_answer { game < 3 → 0 < result → result ≡ 3 }
    ensures kept { 0 < result → sums.new ≡ sums.old }
{
    in_game!(game, move_of(card, from, onto, sums))
}

/// The hash of the class of the board that has these sums.
#[unsafe(no_mangle)]
pub extern "C" fn fcanon_class_hash(game: u32, sums: &ClassSums, hash: &mut [u8; 16]) -> u32
    ensures done { result ≡ 0 → hash.new ≡ hash_of_sums (sums_in (renamings_at game) sums.now) }
    ensures no_game { 3 ≤ game → result ≡ 1 }
    ensures no_other_answer { game < 3 → result ≡ 0 }
    ensures kept { 0 < result → hash.new ≡ hash.old }
{
    in_game!(game, class_hash_of(sums, hash))
}
