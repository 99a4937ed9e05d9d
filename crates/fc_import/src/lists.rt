//! The list of moves that a piece names, played on a board.

use crate::hearing::moves_in;
use crate::made::Form;
use fc_board::{Board, PlayFault, Rule};
use fc_text::{MovesFault, Tokens, read_moves, read_runs};
use std::alloc::{AllocError, Global};

/// What lines of moves are on a board.
#[derive(Drop)]
pub(crate) enum ListRead {
    /// The words of moves that play, of this form.
    Moves(Form, Vec<u8>),
    /// The move of this number, from 1, does not play, and why.
    Illegal(usize, Option<PlayFault>),
    /// There are more moves than a list has.
    TooMany,
}

/// How many cards a move to an empty column takes where it does not say it.
#[derive(Clone, Copy)]
enum Bare {
    /// One, as in what `fc-solve -snx` prints.
    One,
    /// As many as can go.
    Most,
}

/// What these moves of the lines are on the board: a list of fcanon's as it is, and else moves of
/// several cards, of which one card goes to an empty column where no number is given, or as many as
/// can go.
pub(crate) fn moves_on<R: Rule>(
    alloc: Global,
    board: &Board<R>,
    lines: &[u8],
    moves: &[u8],
) -> Result<ListRead, AllocError> {
    match lines {
        [b'>', b'>', ..] => runs_on(alloc, board, moves, Bare::Most),
        [b'>', ..] => one_card_on(alloc, board, moves),
        _ => match runs_on(alloc, board, moves, Bare::One)? {
            ListRead::Illegal(number, fault) => match runs_on(alloc, board, moves, Bare::Most)? {
                ListRead::Illegal(..) => Ok(ListRead::Illegal(number, fault)),
                played => Ok(played),
            },
            played => Ok(played),
        },
    }
}

// The moves of one card that the words are.
fn one_card_on<R: Rule>(
    alloc: Global,
    board: &Board<R>,
    words: &[u8],
) -> Result<ListRead, AllocError> {
    match read_moves::<R>(alloc, words) {
        Ok(moves) => {
            let mut after = board.copy();
            match after.play(moves.as_slice()) {
                Ok(()) => {
                    let mut list = Vec::new(alloc);
                    list.extend_from_slice(words)?;
                    Ok(ListRead::Moves(Form::OneCard, list))
                }
                Err(fault) => Ok(ListRead::Illegal(fault.index.saturating_add(1), Some(fault))),
            }
        }
        Err(MovesFault::Memory) => Err(AllocError),
        Err(MovesFault::TooMany(_)) => Ok(ListRead::TooMany),
        Err(MovesFault::BadToken(place)) => {
            let number = moves_in(words.get(..place).unwrap_or(words));
            Ok(ListRead::Illegal(number, None))
        }
    }
}

// The moves of several cards that the words are.
fn runs_on<R: Rule>(
    alloc: Global,
    board: &Board<R>,
    words: &[u8],
    bare: Bare,
) -> Result<ListRead, AllocError> {
    let mut after = board.copy();
    let mut list = Vec::new(alloc);
    let mut number: usize = 0;
    for token in Tokens::new(words) {
        number = number.saturating_add(1);
        let start = list.len();
        push_run(
            token.text,
            goes_to_empty(&after, token.text, bare),
            &mut list,
        )?;
        let word = list.as_slice().get(start..).unwrap_or(b"");
        match read_runs::<R>(alloc, word) {
            Ok(moves) => {
                if let Err(fault) = after.play_runs(moves.as_slice()) {
                    return Ok(ListRead::Illegal(number, Some(fault)));
                }
            }
            Err(MovesFault::Memory) => return Err(AllocError),
            Err(_) => return Ok(ListRead::Illegal(number, None)),
        }
    }
    Ok(ListRead::Moves(Form::Runs, list))
}

// Whether the word is a move of one card to an empty column that does not say so.
fn goes_to_empty<R: Rule>(board: &Board<R>, word: &[u8], bare: Bare) -> bool {
    match (bare, word) {
        (Bare::One, [b'1'..=b'8', to @ b'1'..=b'8']) => {
            board.column(usize::from((*to - b'1') % 8)).is_empty()
        }
        _ => false,
    }
}

fn push_run(word: &[u8], is_one: bool, list: &mut Vec<u8>) -> Result<(), AllocError> {
    list.push(b' ')?;
    list.extend_from_slice(word)?;
    if is_one {
        list.extend_from_slice(b"v1")?;
    }
    Ok(())
}
