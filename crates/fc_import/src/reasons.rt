//! Why a board or a list is not imported, and what to write instead.

use crate::words::Words;
use fc_board::PlayFault;
use fc_record::push_number;
use fc_text::{BoardFaultKind, Tokens};
use std::alloc::{AllocError, Global};

/// What is said of a word that is no card.
pub(crate) const NO_CARD: &[u8] =
    b" is no card: write a rank A 2 .. 10 J Q K and a suit C D H S, as 10H or TH";

/// Why a board of these lines is not imported; a word that is no card is named.
pub(crate) fn board_reason(
    alloc: Global,
    lines: &[u8],
    at: usize,
    kind: BoardFaultKind,
) -> Result<Vec<u8>, AllocError> {
    if let BoardFaultKind::BadCard = kind {
        return word_reason(alloc, lines, at, fault_words(kind));
    }
    let mut words = Vec::new(alloc);
    words.extend_from_slice(b"not imported: ")?;
    if let BoardFaultKind::MissingCard(card) = kind {
        words.extend_from_slice(&[card.rank().letter(), card.suit().letter()])?;
    }
    words.extend_from_slice(fault_words(kind))?;
    Ok(words)
}

fn fault_words(kind: BoardFaultKind) -> &'static [u8] {
    match kind {
        BoardFaultKind::RepeatedLine => b"a second line of this name: leave one of them",
        BoardFaultKind::TooManyColumns => b"a ninth column: a board has eight",
        BoardFaultKind::TooManyCells => b"one cell too many: this game has fewer",
        BoardFaultKind::BadCard => NO_CARD,
        BoardFaultKind::BadFoundation => {
            b"no foundation: write a suit, - and 0 or the rank on top, as H-4"
        }
        BoardFaultKind::RepeatedCard => {
            b"this card was there before: write the one that is missing"
        }
        BoardFaultKind::MissingCard(_) => {
            b" is missing: write it where it is, or in the foundations"
        }
    }
}

/// Why a list is not imported: its move of this number, from 1, does not play, for this fault of
/// play or because it is none.
pub(crate) fn move_reason(
    alloc: Global,
    number: usize,
    fault: Option<PlayFault>,
) -> Result<Vec<u8>, AllocError> {
    let mut words = Vec::new(alloc);
    words.extend_from_slice(b"not imported: move ")?;
    push_number(number, &mut words)?;
    words.extend_from_slice(b" does not play on the board before: ")?;
    words.extend_from_slice(match fault {
        Some(fault) => fault.fault.words().as_bytes(),
        None => b"no move of this game",
    })?;
    Ok(words)
}

/// What is said of the word of the lines at this place: the word, and these words after it.
pub(crate) fn word_reason(
    alloc: Global,
    lines: &[u8],
    at: usize,
    reason: &[u8],
) -> Result<Vec<u8>, AllocError> {
    let mut words = Vec::new(alloc);
    words.extend_from_slice(b"not imported: ")?;
    let word = word_at(lines.get(at..).unwrap_or(b""));
    words.extend_from_slice(word.get(..64).unwrap_or(word))?;
    words.extend_from_slice(reason)?;
    Ok(words)
}

// The word that the text begins with; where what parts words begins it, all up to a blank.
fn word_at(text: &[u8]) -> &[u8] {
    match (Words::new(text).next(), Tokens::new(text).next()) {
        (Some(word), _) if text.starts_with(word.text) => word.text,
        (_, Some(token)) => token.text,
        _ => b"",
    }
}
