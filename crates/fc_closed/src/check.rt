//! The check of keys: whether they are those of a closed list, and if not, what is wrong.
ghost use Rattle.std.specs.{List.{Contains}, Prelude.{◌<◌, ◌↔◌, ◌≡◌, IfErr, IfSome, IsNone, IsOk}};
ghost use Rattle.std.specs.Prelude.{length, map, slice_index_or, ℕ};
ghost use Rattle.{fc_board.specs.Boards.{Board as Layout, IsWellFormed}, fc_canon.specs.{IsFirst}};
ghost use Rattle.fc_board.specs.declared.moves.Move.{Move};
ghost use Rattle.fc_bytes.specs.{HasKey, HoldsBoard, legal_moves, move_bytes};
ghost use Rattle.fc_bytes.specs.declared.board.BoardBytes.{BoardBytes as Bytes};
ghost use Rattle.fc_closed.specs.{AreClosedKeys, AreKeys, AreKeysTo, IsAbove, IsDoubted};
ghost use Rattle.fc_closed.specs.{IsFirstFlaw, IsFlawInPlay, IsShut, IsUnsolvable, LeadsOut};
ghost use Rattle.fc_closed.specs.{ShowUnsolvable, StaysIn};
ghost use Rattle.fc_closed.specs.declared.check.Doubt.TheVariants.{NotAmong};

use crate::search::{is_among, is_less, is_same};
use arrayvec::ArrayVec;
use fc_board::{Board, Rule};
use fc_bytes::calls::children::{key_after, push_legal_moves};
use fc_bytes::{BoardBytes, MoveBytes};
use fc_canon::canon_passage;

/// What is wrong with a key of a list that is said to be closed.
#[derive(Clone, Copy, PartialEq, Eq)]
pub enum Flaw {
    /// It holds no board of the game.
    NoBoard,
    /// It holds a board that is not its own canonical one.
    NotCanonical,
    /// It is not above the key before it.
    NotAbove,
    /// It holds a board that is won.
    Won,
    /// This move, the first of its board that does, leads to a board whose key is not among the
    /// keys.
    Open(MoveBytes),
}

/// What is wrong with a list of keys, and at which place from 0.
#[derive(Clone, Copy, PartialEq, Eq)]
pub struct FlawAt {
    pub place: usize,
    pub flaw: Flaw,
}

/// Why a list of keys does not show that a board is unsolvable.
#[derive(Clone, Copy, PartialEq, Eq)]
pub enum Doubt {
    /// The bytes hold no board of the game.
    NoBoard,
    /// The keys are not those of a closed list.
    NotClosed,
    /// They are, and the board's key is not among them.
    NotAmong,
}

/// Whether the keys are canonical boards in ascending order, and closed; so no list of moves wins
/// from any of them. What is wrong with a key alone, or beside the one before it, is found before
/// what is wrong with its moves is sought.
///
/// Nothing is searched and no memory is taken: each board's moves are tried, and the boards after
/// them are looked up among the keys.
pub fn check_keys<R: Rule>(keys: &[BoardBytes]) -> Result<(), FlawAt>
    ensures closed { IsOk result ↔ AreClosedKeys R.game R.renamings keys.now }
    ensures unsolvable { IsOk result → (key : Bytes) (board : Layout) → Contains keys.now key
        → HoldsBoard R.game key board → IsUnsolvable R.game board }
    ensures flaw { IfErr result
        (λ found. IsFirstFlaw R.game R.renamings keys.now found.place found.flaw) }
{
    match check_order::<R>(keys) {
        Ok(()) => check_play::<R>(keys),
        Err(found) => Err(found),
    }
}

/// Whether the keys show that no list of moves wins from the board: they are those of a closed
/// list, and the board's own key is one of them.
pub fn show_unsolvable<R: Rule>(board: &BoardBytes, keys: &[BoardBytes]) -> Result<(), Doubt>
    ensures shown { IsOk result ↔ ShowUnsolvable R.game R.renamings board.now keys.now }
    ensures unsolvable { IsOk result → (held : Layout) × HoldsBoard R.game board.now held
        × IsUnsolvable R.game held }
    ensures doubt { IfErr result (IsDoubted R.game R.renamings board.now keys.now) }
{
    let Some(held) = board.board::<R>() else {
        return Err(Doubt::NoBoard);
    };
    match check_keys::<R>(keys) {
        Ok(()) => find_key(&key_of(&held), keys),
        Err(_) => Err(Doubt::NotClosed),
    }
}

fn find_key(key: &BoardBytes, keys: &[BoardBytes]) -> Result<(), Doubt>
    requires { (place : ℕ) → place < length keys.now → IsAbove keys.now place }
    ensures found { IsOk result ↔ Contains keys.now key.now }
    ensures absent { IfErr result (λ doubt. doubt ≡ NotAmong) }
{
    if is_among(key, keys) {
        Ok(())
    } else {
        Err(Doubt::NotAmong)
    }
}

/// Whether each key is its own canonical board and above the one before it.
fn check_order<R: Rule>(keys: &[BoardBytes]) -> Result<(), FlawAt>
    ensures keys { IsOk result → AreKeys R.game R.renamings keys.now }
    ensures flaw { IfErr result
        (λ found. IsFirstFlaw R.game R.renamings keys.now found.place found.flaw) }
{
    for place in 0..keys.len() {
        if let Some(flaw) = flaw_in_order::<R>(keys, place) {
            return Err(FlawAt { place, flaw });
        }
    }
    Ok(())
}

/// What is wrong with the key at this place, alone or beside the one before it.
fn flaw_in_order<R: Rule>(keys: &[BoardBytes], place: usize) -> Option<Flaw>
    requires { place < length keys.now }
    ensures key { IsNone result → (default : Bytes)
        → HasKey R.game R.renamings (slice_index_or keys.now place default)
        (slice_index_or keys.now place default) }
    ensures above { IsNone result → IsAbove keys.now place }
    ensures flaw { IfSome result (λ flaw. AreKeysTo R.game R.renamings keys.now place
        → IsFirstFlaw R.game R.renamings keys.now place flaw) }
{
    let key = &keys[place];
    let Some(board) = key.board::<R>() else {
        return Some(Flaw::NoBoard);
    };
    if !is_same(&key_of(&board), key) {
        return Some(Flaw::NotCanonical);
    }
    if place != 0 && !is_less(&keys[place - 1], key) {
        return Some(Flaw::NotAbove);
    }
    None
}

/// The bytes of the canonical board.
fn key_of<R: Rule>(board: &Board<R>) -> BoardBytes
    ensures { (bytes : Bytes) → HoldsBoard R.game bytes board.now
        → HasKey R.game R.renamings bytes result }
{
    BoardBytes::of_carried(&canon_passage(board), board)
}

/// Whether no key's board is won, and no move leads out of the list.
fn check_play<R: Rule>(keys: &[BoardBytes]) -> Result<(), FlawAt>
    requires { AreKeys R.game R.renamings keys.now }
    ensures closed { IsOk result ↔ AreClosedKeys R.game R.renamings keys.now }
    ensures flaw { IfErr result
        (λ found. IsFirstFlaw R.game R.renamings keys.now found.place found.flaw) }
{
    for place in 0..keys.len() {
        if let Some(flaw) = flaw_in_play::<R>(&keys[place], keys) {
            return Err(FlawAt { place, flaw });
        }
    }
    Ok(())
}

/// What is wrong with the board of a key, or with its moves.
fn flaw_in_play<R: Rule>(key: &BoardBytes, keys: &[BoardBytes]) -> Option<Flaw>
    requires board { (board : Layout) × HoldsBoard R.game key.now board }
    requires above { (place : ℕ) → place < length keys.now → IsAbove keys.now place }
    ensures shut { IsNone result → IsShut R.game R.renamings keys.now key.now }
    ensures flaw { IfSome result (IsFlawInPlay R.game R.renamings keys.now key.now) }
{
    let Some(board) = key.board::<R>() else {
        unreachable!();
    };
    if board.is_won() {
        return Some(Flaw::Won);
    }
    match move_out(&board, keys) {
        Some(mv) => Some(Flaw::Open(mv)),
        None => None,
    }
}

/// The first move that leads to a board whose key is not among the keys.
fn move_out<R: Rule>(board: &Board<R>, keys: &[BoardBytes]) -> Option<MoveBytes>
    requires board { IsWellFormed R.game board.now }
    requires above { (place : ℕ) → place < length keys.now → IsAbove keys.now place }
    ensures stays { IsNone result → (mv : Move) → Contains (legal_moves R.game board.now) mv
        → StaysIn R.game R.renamings keys.now board.now mv }
    ensures out { IfSome result (λ found. (first : Move) × (found ≡ move_bytes first)
        × IsFirst (LeadsOut R.game R.renamings keys.now board.now)
        (legal_moves R.game board.now) first) }
{
    let mut legal = ArrayVec::new();
    push_legal_moves(&mut legal, board);
    first_out(board, legal.as_slice(), keys)
}

fn first_out<R: Rule>(
    board: &Board<R>,
    moves: &[MoveBytes],
    keys: &[BoardBytes],
) -> Option<MoveBytes>
    requires board { IsWellFormed R.game board.now }
    requires moves { moves.now ≡ map move_bytes (legal_moves R.game board.now) }
    requires above { (place : ℕ) → place < length keys.now → IsAbove keys.now place }
    ensures stays { IsNone result → (mv : Move) → Contains (legal_moves R.game board.now) mv
        → StaysIn R.game R.renamings keys.now board.now mv }
    ensures out { IfSome result (λ found. (first : Move) × (found ≡ move_bytes first)
        × IsFirst (LeadsOut R.game R.renamings keys.now board.now)
        (legal_moves R.game board.now) first) }
{
    for at in 0..moves.len() {
        if !is_among(&key_after(board, moves[at]), keys) {
            return Some(moves[at]);
        }
    }
    None
}
