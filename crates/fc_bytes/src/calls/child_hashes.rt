//! The moves of one card that a board allows, and the class hashes of the boards after them.
ghost use Rattle.std.specs.Prelude.{◌++◌, ◌-◌, ◌<◌, ◌≡◌, ◌≤◌, ◌⊎◌, drop, length, map};
ghost use Rattle.std.specs.Prelude.{slice_index_or};
ghost use Rattle.fc_board.specs.{Boards.{Board as Layout}, declared.moves.Move.{Move as OneCard}};
ghost use Rattle.fc_bytes.specs.class_hash.{AreChildHashes, child_hash, HasChildHashes};
ghost use Rattle.fc_bytes.specs.{HoldsBoard, HoldsNone, legal_moves, move_bytes, OfLegalMoves};
ghost use Rattle.fc_bytes.specs.declared.child_hash.ChildHash.{ChildHash as Child};

use crate::calls::answers::{DONE, NO_BOARD, NO_ROOM};
use crate::calls::children::{are_alike, push_legal_moves};
use crate::{BoardBytes, ChildHash, ClassSums, MoveBytes};
use arrayvec::ArrayVec;
use fc_board::{Board, Rule};

/// The moves of one card that the game allows on the board, in the order of their piles, each with
/// the hash of the class of the board after it. The sums are taken for those of the board.
pub fn child_hashes_of<R: Rule>(
    board: &BoardBytes,
    sums: &ClassSums,
    children: &mut [ChildHash],
    count: &mut usize,
) -> u32
    ensures done { result ≡ 0 → HasChildHashes R.game R.renamings board.now sums.now
        children.old children.new count.new }
    ensures no_room { result ≡ 9
        → OfLegalMoves R.game board.now (λ legal. length children.old < length legal) }
    ensures no_board { result ≡ 4 → HoldsNone (HoldsBoard R.game) board.now }
    ensures no_other_answer { 0 < result → (result ≡ 4) ⊎ (result ≡ 9) }
    ensures kept { 0 < result → (children.new ≡ children.old) × (count.new ≡ count.old) }
{
    let Some(held) = board.board::<R>() else {
        return NO_BOARD;
    };
    put_child_hashes(&held, sums, children, count)
}

/// The same of a board that is known to be one of the game, and so is not tested.
pub fn known_child_hashes_of<R: Rule>(
    board: &BoardBytes,
    sums: &ClassSums,
    children: &mut [ChildHash],
    count: &mut usize,
) -> u32
    requires known { (held : Layout) × HoldsBoard R.game board.now held }
    ensures done { result ≡ 0 → HasChildHashes R.game R.renamings board.now sums.now
        children.old children.new count.new }
    ensures no_room { result ≡ 9
        → OfLegalMoves R.game board.now (λ legal. length children.old < length legal) }
    ensures no_other_answer { 0 < result → result ≡ 9 }
    ensures kept { 0 < result → (children.new ≡ children.old) × (count.new ≡ count.old) }
{
    let held = board.known_board::<R>();
    put_child_hashes(&held, sums, children, count)
}

/// Writes each move that the game allows with the hash after it, and how many they are, where there
/// is room for them.
#[inline(always)]
fn put_child_hashes<R: Rule>(
    board: &Board<R>,
    sums: &ClassSums,
    children: &mut [ChildHash],
    count: &mut usize,
) -> u32
    ensures done { result ≡ 0
        → AreChildHashes (child_hash R.renamings board.now sums.now)
        (legal_moves R.game board.now) children.old children.new count.new }
    ensures no_room { 0 < result
        → (result ≡ 9) × (length children.old < length (legal_moves R.game board.now)) }
    ensures kept { 0 < result → (children.new ≡ children.old) × (count.new ≡ count.old) }
{
    let mut legal = ArrayVec::new();
    push_legal_moves(&mut legal, board);
    if children.len() < legal.len() {
        return NO_ROOM;
    }
    put_hashes(board, sums, legal.as_slice(), children);
    *count = legal.len();
    DONE
}

/// Writes each of these moves with the hash after it.
#[inline(always)]
fn put_hashes<R: Rule>(
    board: &Board<R>,
    sums: &ClassSums,
    moves: &[MoveBytes],
    children: &mut [ChildHash],
)
    requires room { length moves.now ≤ length children.old }
    requires moves { moves.now ≡ map move_bytes (legal_moves R.game board.now) }
    ensures { children.new
        ≡ map (child_hash R.renamings board.now sums.now) (legal_moves R.game board.now)
        ++ drop (length (legal_moves R.game board.now)) children.old }
{
    for place in 0..moves.len() {
        children[place] = next_child(board, sums, moves, children, place);
    }
}

/// The move at this place with the hash after it, where the one before is written: its hash, if
/// both take a card to empty piles of one kind.
#[inline(always)]
fn next_child<R: Rule>(
    board: &Board<R>,
    sums: &ClassSums,
    moves: &[MoveBytes],
    children: &[ChildHash],
    place: usize,
) -> ChildHash
    requires inside { (place < length moves.now) × (length moves.now ≤ length children.now) }
    requires moves { moves.now ≡ map move_bytes (legal_moves R.game board.now) }
    requires before { (mv : OneCard) (child : Child) → 0 < place
        → slice_index_or children.now (place - 1) child ≡ child_hash R.renamings board.now sums.now
        (slice_index_or (legal_moves R.game board.now) (place - 1) mv) }
    ensures { (mv : OneCard) → result ≡ child_hash R.renamings board.now sums.now
        (slice_index_or (legal_moves R.game board.now) place mv) }
{
    let mv = moves[place];
    if place > 0 && are_alike(board, moves[place - 1], mv) {
        return ChildHash {
            mv,
            hash: children[place - 1].hash,
        };
    }
    ChildHash::after(board, sums, mv)
}
