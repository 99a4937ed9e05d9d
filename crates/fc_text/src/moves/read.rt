//! Reading a list of moves, of either kind.
ghost use Rattle.std.specs.Prelude.{◌++◌, ◌<◌, ◌==◌, ◌∷◌, ◌≡◌, [], All, Err, IfErr, IfOk, IfSome};
ghost use Rattle.std.specs.Prelude.{IsOkAnd, None, OnOk, ℕ};
ghost use Rattle.fc_board.specs.Games.{eight_off};
ghost use Rattle.fc_text.specs.{Bytes.{blank}, Lines.{words_from}};
ghost use Rattle.fc_text.specs.Notation.{BadTokenAt, Listed, separates_tokens, token, TooManyAt};
ghost use Rattle.fc_text.specs.reader.{BeginsWithPair, BeginsWithToken, IsReadTo};
ghost use Rattle.fc_text.specs.declared.fault.MovesFault.TheVariants.{BadToken, Memory, TooMany};

use super::{MOST_MOVES, Notated};
use crate::{MovesFault, Tokens};
use fc_board::Rule;
use std::alloc::{AllocError, Global};

/// The items that a text lists, or the first fault of the text in reading order.
pub fn read_list<R: Rule, M: Notated>(alloc: Global, text: &[u8]) -> Result<Vec<M>, MovesFault>
    ensures listed { IfOk result (λ moves. Listed (M.is_token R.game) text.now moves.items) }
    ensures fits { IfOk result (λ moves. All (M.fits_game R.game) moves.items) }
    ensures fits_eight_off { IfOk result (λ moves. All (M.fits_game eight_off) moves.items) }
    ensures bad_token { (place : ℕ) → result ≡ Err (BadToken place)
        → BadTokenAt (M.is_token R.game) text.now place }
    ensures too_many { (place : ℕ) → result ≡ Err (TooMany place)
        → TooManyAt (M.is_token R.game) text.now place }
    ensures no_words { words_from separates_tokens 0 text.now ≡ []
        → IsOkAnd result (λ moves. moves.items ≡ []) }
    ensures found { (place : ℕ) → BadTokenAt (M.is_token R.game) text.now place
        → result ≡ Err (BadToken place) }
{
    let mut moves = Vec::new(alloc);
    let Ok(at) = read_pairs::<R, M>(&mut moves, text) else {
        return Err(fault_without_memory::<R, M>(text));
    };
    for token in Tokens::from(text, at) {
        if moves.len() == MOST_MOVES {
            return Err(MovesFault::TooMany(token.start));
        }
        let Some(named) = M::from_word::<R>(token.text) else {
            return Err(MovesFault::BadToken(token.start));
        };
        if push_among(&mut moves, named, MOST_MOVES.min(text.len() / 3 + 1)).is_err() {
            return Err(fault_without_memory::<R, M>(text));
        }
    }
    Ok(moves)
}

/// Takes the tokens at the front that are one blank apart and have two characters, up to the first
/// other one or the last, and returns where it stopped. Where there are any, it takes room for all.
fn read_pairs<R: Rule, M: Notated>(moves: &mut Vec<M>, text: &[u8]) -> Result<usize, AllocError>
    requires { moves.old.items ≡ [] }
    ensures read { IfOk result
        (λ at. IsReadTo (M.is_token R.game) text.now at moves.new.items) }
    ensures some { IfErr result (λ _. BeginsWithToken (M.is_token R.game) text.now) }
{
    if first_pair::<R, M>(text).is_none() {
        return Ok(0);
    }
    moves.reserve(MOST_MOVES.min(text.len() / 3 + 1))?;
    let mut left = text;
    while let Some(named) = first_pair::<R, M>(left) {
        if moves.len() >= MOST_MOVES {
            break;
        }
        moves.push(named)?;
        left = &left[3..];
    }
    Ok(text.len() - left.len())
}

/// What the two bytes after the first one are a token of, where they are between two blanks.
fn first_pair<R: Rule, M: Notated>(bytes: &[u8]) -> Option<M>
    ensures { IfSome result (BeginsWithPair (M.is_token R.game) bytes.now) }
{
    let [b' ', _, _, b' ', ..] = bytes else {
        return None;
    };
    M::from_word::<R>(&bytes[1..3])
}

/// What is answered where memory is refused: the first word that is no token, if there is one
/// among as many as a list may have moves. It needs no memory.
#[cold]
#[inline(never)]
fn fault_without_memory<R: Rule, M: Notated>(text: &[u8]) -> MovesFault
    ensures bad_token { (place : ℕ) → result ≡ BadToken place
        → BadTokenAt (M.is_token R.game) text.now place }
    ensures found { (place : ℕ) → BadTokenAt (M.is_token R.game) text.now place
        → result ≡ BadToken place }
    ensures few { (place : ℕ) → ¬ (result ≡ TooMany place) }
{
    let mut good = 0;
    for token in Tokens::from(text, 0) {
        if good == MOST_MOVES {
            return MovesFault::Memory;
        }
        let Some(_named) = M::from_word::<R>(token.text) else {
            return MovesFault::BadToken(token.start);
        };
        good += 1;
    }
    MovesFault::Memory
}

/// Appends an item, and takes room with the first one for so many.
fn push_among<M: Notated>(items: &mut Vec<M>, item: M, most: usize) -> Result<(), AllocError>
    ensures { OnOk result (items.new.items ≡ items.old.items ++ item ∷ []) }
{
    if items.is_empty() {
        items.reserve(most)?;
    }
    items.push(item)?;
    Ok(())
}
