//! Moves played, and carried through passages.
ghost use Rattle.std.specs.Prelude.{◌<◌, ◌≡◌, ◌≤◌};
ghost use Rattle.fc_board.specs.{Passages.{carried_move}, Steps.{refusal, Step}};
ghost use Rattle.fc_bytes.specs.{CarriesMove, HoldsBoard, HoldsFirstAlone, HoldsMove, HoldsNone};
ghost use Rattle.fc_bytes.specs.{HoldsPassage, LeadsToChild, PlaysMove, RefusesMove};

use crate::calls::answers::{DONE, NO_BOARD, NO_MOVE, NO_PASSAGE, reason_number};
use crate::{BoardBytes, MoveBytes, PassageBytes};
use fc_board::Rule;
use fc_canon::canon_passage;

/// Makes a move the one of the same card on the board that the passage leads to.
pub fn carry_of<R: Rule>(passage: &PassageBytes, mv: &mut MoveBytes) -> u32
    ensures done { result ≡ 0
        → CarriesMove R.game HoldsMove carried_move passage.now mv.old mv.new }
    ensures no_passage { result ≡ 2 → HoldsNone (HoldsPassage R.game) passage.now }
    ensures no_move { result ≡ 3
        → HoldsFirstAlone (HoldsPassage R.game) (HoldsMove R.game) passage.now mv.old }
    ensures no_other_answer { 0 < result → (2 ≤ result) × (result ≤ 3) }
    ensures kept { 0 < result → mv.new ≡ mv.old }
{
    let Some(way) = passage.passage::<R>() else {
        return NO_PASSAGE;
    };
    let Some(one) = mv.one_card::<R>() else {
        return NO_MOVE;
    };
    *mv = MoveBytes::of::<R>(way.carry_move(one));
    DONE
}

/// Moves one card.
pub fn play_of<R: Rule>(board: &mut BoardBytes, mv: &MoveBytes) -> u32
    ensures done { result ≡ 0
        → PlaysMove R.game HoldsMove Step board.old mv.now board.new }
    ensures refused { 32 ≤ result
        → RefusesMove R.game HoldsMove refusal board.old mv.now result }
    ensures no_move { result ≡ 3
        → HoldsFirstAlone (HoldsBoard R.game) (HoldsMove R.game) board.old mv.now }
    ensures no_board { result ≡ 4 → HoldsNone (HoldsBoard R.game) board.old }
    ensures no_other_answer { 0 < result → result < 32 → (3 ≤ result) × (result ≤ 4) }
    ensures kept { 0 < result → board.new ≡ board.old }
{
    let Some(mut played) = board.board::<R>() else {
        return NO_BOARD;
    };
    let Some(one) = mv.one_card::<R>() else {
        return NO_MOVE;
    };
    match played.step(one) {
        Ok(()) => {
            *board = BoardBytes::of(&played);
            DONE
        }
        Err(fault) => reason_number(fault),
    }
}

/// The canonical board of the board after a move, and the chosen passage to it.
pub fn child_of<R: Rule>(
    board: &BoardBytes,
    mv: &MoveBytes,
    canonical: &mut BoardBytes,
    passage: &mut PassageBytes,
) -> u32
    ensures done { result ≡ 0
        → LeadsToChild R.game R.renamings board.now mv.now canonical.new passage.new }
    ensures refused { 32 ≤ result
        → RefusesMove R.game HoldsMove refusal board.now mv.now result }
    ensures no_move { result ≡ 3
        → HoldsFirstAlone (HoldsBoard R.game) (HoldsMove R.game) board.now mv.now }
    ensures no_board { result ≡ 4 → HoldsNone (HoldsBoard R.game) board.now }
    ensures no_other_answer { 0 < result → result < 32 → (3 ≤ result) × (result ≤ 4) }
    ensures kept { 0 < result → (canonical.new ≡ canonical.old) × (passage.new ≡ passage.old) }
{
    let Some(mut played) = board.board::<R>() else {
        return NO_BOARD;
    };
    let Some(one) = mv.one_card::<R>() else {
        return NO_MOVE;
    };
    match played.step(one) {
        Ok(()) => {
            let found = canon_passage(&played);
            *canonical = BoardBytes::of_carried(&found, &played);
            *passage = PassageBytes::of(&found);
            DONE
        }
        Err(fault) => reason_number(fault),
    }
}
