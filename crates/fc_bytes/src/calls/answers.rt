//! The numbers that calls answer.
ghost use Rattle.std.specs.Prelude.{◌≡◌, ◌≤◌, Some};
ghost use Rattle.fc_bytes.specs.{fault_kind_of, reason_of};

use fc_board::StepFault;
use fc_text::BoardFaultKind;

/// The call did what it says.
pub const DONE: u32 = 0;
/// No game has this number.
pub const NO_GAME: u32 = 1;
/// The bytes hold no passage of the game.
pub(crate) const NO_PASSAGE: u32 = 2;
/// The bytes hold no move of the game.
pub(crate) const NO_MOVE: u32 = 3;
/// The bytes hold no board of the game.
pub const NO_BOARD: u32 = 4;
/// The bytes of the other board hold none.
pub(crate) const NO_OTHER: u32 = 5;
/// No passage leads from the one board to the other.
pub(crate) const APART: u32 = 6;
/// The game has no deal with this number.
pub const NO_DEAL: u32 = 7;
/// No column has this digit.
pub(crate) const NO_COLUMN: u32 = 8;
/// The moves are more than there is room for.
pub(crate) const NO_ROOM: u32 = 9;

/// The number of a kind of fault.
pub(crate) fn kind_number(kind: BoardFaultKind) -> u32
    ensures number { fault_kind_of result ≡ Some kind }
    ensures from_64 { 64 ≤ result }
{
    match kind {
        BoardFaultKind::RepeatedLine => 64,
        BoardFaultKind::TooManyColumns => 65,
        BoardFaultKind::TooManyCells => 66,
        BoardFaultKind::BadCard => 67,
        BoardFaultKind::BadFoundation => 68,
        BoardFaultKind::RepeatedCard => 69,
        BoardFaultKind::MissingCard(card) => 128 + u32::from(card.number()),
    }
}

/// The number of a reason against a move.
pub(crate) fn reason_number(fault: StepFault) -> u32
    ensures number { reason_of result ≡ Some fault }
    ensures from_32 { 32 ≤ result }
{
    32 + fault.number()
}
