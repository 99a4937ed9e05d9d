//! What the calls of C do for one game.
ghost use Rattle.std.specs.{List.{Contains}, Prelude.{◌<◌, ◌↔◌, ◌≡◌, ◌≤◌, ◌⊎◌}};
ghost use Rattle.{fc_board.specs.Boards.{Board}, fc_bytes.specs.{HoldsBoard}};
ghost use Rattle.fc_bytes.specs.declared.board.BoardBytes.{BoardBytes as Bytes};
ghost use Rattle.fc_closed.specs.{AreClosedKeys, IsDoubted, IsFirstFlaw, IsUnsolvable};
ghost use Rattle.fc_closed.specs.{ShowUnsolvable};
ghost use Rattle.fc_closed.specs.declared.check.Flaw.TheVariants.{NoBoard, NotAbove, NotCanonical};
ghost use Rattle.fc_closed.specs.declared.check.Flaw.TheVariants.{Open, Won};
ghost use Rattle.fc_closed.specs.declared.check.Doubt.TheVariants as doubt;

use crate::{Doubt, Flaw, check_keys, show_unsolvable};
use fc_board::Rule;
use fc_bytes::calls::answers::{DONE, NO_BOARD};
use fc_bytes::{BoardBytes, MoveBytes};

/// The board at this place is not its own canonical one.
const NOT_CANONICAL: u32 = 16;
/// It is not above the one before it.
const NOT_ABOVE: u32 = 17;
/// It is won.
const WON: u32 = 18;
/// A move leads from it to one that is not among them.
const OPEN: u32 = 19;
/// The keys are not those of a closed list.
const NOT_CLOSED: u32 = 20;
/// The board's key is not among the keys.
const NOT_AMONG: u32 = 21;

/// Whether keys are those of a closed list; if not, the place of the first that is at fault, and
/// the first move that leads out.
pub fn closed_of<R: Rule>(keys: &[BoardBytes], place: &mut usize, mv: &mut MoveBytes) -> u32
    ensures closed { result ≡ 0 ↔ AreClosedKeys R.game R.renamings keys.now }
    ensures unsolvable { result ≡ 0 → (key : Bytes) (board : Board) → Contains keys.now key
        → HoldsBoard R.game key board → IsUnsolvable R.game board }
    ensures no_board { result ≡ 4
        → IsFirstFlaw R.game R.renamings keys.now place.new NoBoard }
    ensures not_canonical { result ≡ 16
        → IsFirstFlaw R.game R.renamings keys.now place.new NotCanonical }
    ensures not_above { result ≡ 17
        → IsFirstFlaw R.game R.renamings keys.now place.new NotAbove }
    ensures won { result ≡ 18 → IsFirstFlaw R.game R.renamings keys.now place.new Won }
    ensures open { result ≡ 19
        → IsFirstFlaw R.game R.renamings keys.now place.new (Open mv.new) }
    ensures no_other_answer { 0 < result
        → (result ≡ 4) ⊎ ((16 ≤ result) × (result ≤ 19)) }
    ensures no_place { result < 4 → place.new ≡ place.old }
    ensures no_move { result < 19 → mv.new ≡ mv.old }
{
    match check_keys::<R>(keys) {
        Ok(()) => DONE,
        Err(found) => {
            *place = found.place;
            number_of(found.flaw, mv)
        }
    }
}

/// The number of the flaw, and its move.
fn number_of(flaw: Flaw, mv: &mut MoveBytes) -> u32
    ensures no_board { result ≡ 4 → flaw ≡ NoBoard }
    ensures not_canonical { result ≡ 16 → flaw ≡ NotCanonical }
    ensures not_above { result ≡ 17 → flaw ≡ NotAbove }
    ensures won { result ≡ 18 → flaw ≡ Won }
    ensures open { result ≡ 19 → flaw ≡ Open mv.new }
    ensures no_other_answer { (result ≡ 4) ⊎ ((16 ≤ result) × (result ≤ 19)) }
    ensures no_move { result < 19 → mv.new ≡ mv.old }
{
    match flaw {
        Flaw::NoBoard => NO_BOARD,
        Flaw::NotCanonical => NOT_CANONICAL,
        Flaw::NotAbove => NOT_ABOVE,
        Flaw::Won => WON,
        Flaw::Open(out) => {
            *mv = out;
            OPEN
        }
    }
}

/// Whether keys show that no list of moves wins from the board.
pub fn unsolvable_of<R: Rule>(board: &BoardBytes, keys: &[BoardBytes]) -> u32
    ensures shown { result ≡ 0 ↔ ShowUnsolvable R.game R.renamings board.now keys.now }
    ensures unsolvable { result ≡ 0 → (held : Board) × HoldsBoard R.game board.now held
        × IsUnsolvable R.game held }
    ensures no_board { result ≡ 4
        → IsDoubted R.game R.renamings board.now keys.now doubt.NoBoard }
    ensures not_closed { result ≡ 20
        → IsDoubted R.game R.renamings board.now keys.now doubt.NotClosed }
    ensures not_among { result ≡ 21
        → IsDoubted R.game R.renamings board.now keys.now doubt.NotAmong }
    ensures no_other_answer { 0 < result
        → (result ≡ 4) ⊎ ((20 ≤ result) × (result ≤ 21)) }
{
    match show_unsolvable::<R>(board, keys) {
        Ok(()) => DONE,
        Err(Doubt::NoBoard) => NO_BOARD,
        Err(Doubt::NotClosed) => NOT_CLOSED,
        Err(Doubt::NotAmong) => NOT_AMONG,
    }
}
