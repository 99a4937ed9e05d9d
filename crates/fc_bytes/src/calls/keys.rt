//! Canonical boards alone, and their hashes.
ghost use Rattle.std.specs.Prelude.{◌<◌, ◌≡◌, length};
ghost use Rattle.fc_bytes.specs.{HasHash, HasKey, HasNoBoardAt, HaveKeys, HoldsBoard, HoldsNone};

use crate::BoardBytes;
use crate::calls::answers::{DONE, NO_BOARD};
use fc_board::Rule;
use fc_canon::canon_passage;

/// The canonical board, without the passage to it.
pub fn key_of<R: Rule>(board: &BoardBytes, key: &mut BoardBytes) -> u32
    ensures done { result ≡ 0 → HasKey R.game R.renamings board.now key.new }
    ensures no_board { result ≡ 4 → HoldsNone (HoldsBoard R.game) board.now }
    ensures no_other_answer { 0 < result → result ≡ 4 }
    ensures kept { 0 < result → key.new ≡ key.old }
{
    let Some(held) = board.board::<R>() else {
        return NO_BOARD;
    };
    *key = BoardBytes::of_carried(&canon_passage(&held), &held);
    DONE
}

/// The hash of the canonical board.
pub fn hash_of<R: Rule>(board: &BoardBytes, hash: &mut [u8; 16]) -> u32
    ensures done { result ≡ 0 → HasHash R.game R.renamings board.now hash.new }
    ensures no_board { result ≡ 4 → HoldsNone (HoldsBoard R.game) board.now }
    ensures no_other_answer { 0 < result → result ≡ 4 }
    ensures kept { 0 < result → hash.new ≡ hash.old }
{
    let Some(held) = board.board::<R>() else {
        return NO_BOARD;
    };
    *hash = BoardBytes::of_carried(&canon_passage(&held), &held).board_hash();
    DONE
}

/// Makes each board its canonical one, up to the first that is none.
pub fn keys_of<R: Rule>(boards: &mut [BoardBytes], place: &mut usize) -> u32
    ensures done { result ≡ 0
        → HaveKeys R.game R.renamings boards.old boards.new (length boards.old) }
    ensures no_board { result ≡ 4
        → HasNoBoardAt R.game R.renamings boards.old boards.new place.new }
    ensures no_other_answer { 0 < result → result ≡ 4 }
    ensures no_place { result < 4 → place.new ≡ place.old }
{
    for at in 0..boards.len() {
        let mut key = boards[at];
        if key_of::<R>(&boards[at], &mut key) != DONE {
            *place = at;
            return NO_BOARD;
        }
        boards[at] = key;
    }
    DONE
}
