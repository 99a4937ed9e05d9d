//! Texts of boards.
ghost use Rattle.std.specs.Prelude.{◌<◌, ◌≡◌, ◌≤◌};
ghost use Rattle.fc_text.specs.Printed.{text_of};
ghost use Rattle.fc_bytes.specs.{HasFault, HoldsBoard, HoldsNone, ReadsText, WritesText};

use crate::BoardBytes;
use crate::calls::answers::{DONE, NO_BOARD, kind_number};
use fc_board::Rule;
use fc_text::{BoardText, BoardView, read_board};

/// The board that a text spells, or its first fault with its place.
pub fn read_of<R: Rule>(text: &[u8], board: &mut BoardBytes, place: &mut usize) -> u32
    ensures done { result ≡ 0 → ReadsText R.game text.now board.new }
    ensures fault { 64 ≤ result → HasFault R.game text.now result place.new }
    ensures no_other_answer { 0 < result → 64 ≤ result }
    ensures kept { 0 < result → board.new ≡ board.old }
    ensures no_place { result < 64 → place.new ≡ place.old }
{
    match read_board::<R>(text) {
        Ok(held) => {
            *board = BoardBytes::of(&held);
            DONE
        }
        Err(fault) => {
            *place = fault.place;
            kind_number(fault.kind)
        }
    }
}

/// The printed text of a board, and 0 after it.
pub fn write_of<R: Rule>(board: &BoardBytes, text: &mut [u8; 256]) -> u32
    ensures done { result ≡ 0 → WritesText R.game board.now text.new }
    ensures no_board { result ≡ 4 → HoldsNone (HoldsBoard R.game) board.now }
    ensures no_other_answer { 0 < result → result ≡ 4 }
    ensures kept { 0 < result → text.new ≡ text.old }
{
    let Some(held) = board.board::<R>() else {
        return NO_BOARD;
    };
    let printed = text_of_view(&BoardView::of(&held));
    *text = [0; 256];
    text[..printed.len()].copy_from_slice(printed.as_slice());
    DONE
}

/// The printed text of the board that is viewed. Its code is shorter in a function of its own than
/// inside the call.
#[inline(never)]
fn text_of_view<R: Rule>(view: &BoardView<'_, R>) -> BoardText
    ensures { result.items ≡ text_of view.now }
{
    view.text()
}
