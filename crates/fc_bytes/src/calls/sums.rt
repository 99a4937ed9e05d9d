//! The sums of boards, kept up to date, and the hashes of their classes.
ghost use Rattle.std.specs.Prelude.{◌<◌, ◌≡◌};
ghost use Rattle.fc_bytes.specs.class_hash.{AreMoved, CanMove, hash_of_sums, HasSums, sums_in};
ghost use Rattle.fc_bytes.specs.{HoldsBoard, HoldsNone};

use crate::calls::answers::{DONE, NO_BOARD, NO_MOVE};
use crate::{BoardBytes, ClassSums};
use fc_board::Rule;

/// The sums of the board.
pub fn sums_of<R: Rule>(board: &BoardBytes, sums: &mut ClassSums) -> u32
    ensures done { result ≡ 0 → HasSums R.game R.renamings board.now sums.new }
    ensures no_board { result ≡ 4 → HoldsNone (HoldsBoard R.game) board.now }
    ensures no_other_answer { 0 < result → result ≡ 4 }
    ensures kept { 0 < result → sums.new ≡ sums.old }
{
    let Some(held) = board.board::<R>() else {
        return NO_BOARD;
    };
    *sums = ClassSums::of(&held);
    DONE
}

/// Makes the sums those of the board on which this card lies on the one thing no more, but on the
/// other.
pub fn move_of<R: Rule>(card: u8, from: u8, onto: u8, sums: &mut ClassSums) -> u32
    ensures done { result ≡ 0 → AreMoved R.renamings card from onto sums.old sums.new }
    ensures no_move { result ≡ 3 → ¬ CanMove card from onto }
    ensures no_other_answer { 0 < result → result ≡ 3 }
    ensures kept { 0 < result → sums.new ≡ sums.old }
{
    if !sums.move_card::<R>(card, from, onto) {
        return NO_MOVE;
    }
    DONE
}

/// The hash of the class of the board that has these sums.
pub fn class_hash_of<R: Rule>(sums: &ClassSums, hash: &mut [u8; 16]) -> u32
    ensures answer { result ≡ 0 }
    ensures hash { hash.new ≡ hash_of_sums (sums_in R.renamings sums.now) }
{
    *hash = sums.class_hash::<R>();
    DONE
}
