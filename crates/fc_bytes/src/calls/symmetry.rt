//! The symmetries of a board.
ghost use Rattle.std.specs.Prelude.{◌++◌, ◌<◌, ◌≡◌, ◌≤◌, drop, length};
ghost use Rattle.fc_bytes.specs.{HasSymmetries, HoldsBoard, HoldsNone};

use crate::calls::answers::{DONE, NO_BOARD};
use crate::{BoardBytes, suit_bytes};
use fc_board::Rule;
use fc_canon::symmetries;
use fc_card::Renaming;

/// The renamings that with some orders lead from the board to itself.
pub fn symmetries_of<R: Rule>(board: &BoardBytes, suits: &mut [[u8; 4]; 24], count: &mut u32) -> u32
    ensures done { result ≡ 0 → HasSymmetries R.game board.now suits.old suits.new count.new }
    ensures no_board { result ≡ 4 → HoldsNone (HoldsBoard R.game) board.now }
    ensures no_other_answer { 0 < result → result ≡ 4 }
    ensures kept { 0 < result → (suits.new ≡ suits.old) × (count.new ≡ count.old) }
{
    let Some(held) = board.board::<R>() else {
        return NO_BOARD;
    };
    let found = symmetries(&held);
    put_suits(found.as_slice(), suits);
    *count = found.len() as u32;
    DONE
}

/// Writes the images of the suits under each renaming.
fn put_suits(renamings: &[Renaming], suits: &mut [[u8; 4]; 24])
    requires { length renamings.now ≤ 24 }
    ensures { suits.new ≡ renamings.now ++ drop (length renamings.now) suits.old }
{
    for (place, renaming) in renamings.iter().enumerate() {
        suits[place] = suit_bytes(*renaming);
    }
}
