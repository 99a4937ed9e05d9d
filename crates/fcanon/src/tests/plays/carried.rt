//! Lists that are carried by passages, printed and read again, and play as before.
use super::*;
use fc_canon::{Passage, canon};
use fc_card::{Group, Order, Renaming};
use fc_text::write_moves;

// The print of the image of the list, of which the moves at this index and the next one change
// places. `None` where a move does not fit the game, or its image Eight Off, whose letters print all.
fn image_of<R: Rule>(
    alloc: Global,
    passage: &Passage<R>,
    list: &[u8],
    index: usize,
) -> Option<Vec<u8>> {
    let mut moves = with_exchange::<R>(alloc, list, index)?;
    if !all_fit::<R>(moves.as_slice()) {
        return None;
    }
    passage.carry_moves(moves.as_mut_slice());
    if !all_fit::<EightOff>(moves.as_slice()) {
        return None;
    }
    write_moves(alloc, moves.as_slice()).ok()
}

static DEAL_1: &[u8] = b": JD KD 2S 4C 3S 6D 6S
: 2D KC KS 5C TD 8S 9C
: 9H 9S 9D TS 4S 8D 2H
: JC 5S QD QH TH QS 6H
: 5D AD JS 4H 8H 6C
: 7H QC AS AC 2C 3D
: 7C KH AH 4D JH 8C
: 5H 3H 3C 7S 7D TC
";

static KING_LEFT: &[u8] = b"Foundations: H-K C-Q D-K S-K
Freecells: - - - -
:
:
: KC
";

static SEVEN: &[u8] = b"Foundations: H-K C-K D-K S-J
Freecells: QS - - - - - - KS
";

// Whether the image of the list, by the passage to the canonical board of the text, is printed so,
// and comes to this when it is played there.
fn has_image<R: Rule>(
    alloc: Global,
    text: &[u8],
    list: &[u8],
    printed: &[u8],
    outcome: Result<bool, PlayFault>,
) -> Option<bool> {
    let found = canon(&read_board::<R>(text).ok()?);
    let image = image_of(alloc, &found.passage, list, list.len())?;
    Some(
        image.as_slice() == printed
            && outcome_of(alloc, &found.board, printed, printed.len())? == outcome,
    )
}

#[test]
fn images_of_lists(rt: HostRuntime) {
    let alloc = rt.alloc();
    let fault = StepFault::NotNext;
    let not_next = Err(PlayFault { index: 0, fault });
    assert!(rt; has_image::<FreeCell>(alloc, DEAL_1, b"3a", b"6a", Ok(false)) == Some(true));
    assert!(rt; has_image::<FreeCell>(alloc, KING_LEFT, b"3h", b"8h", Ok(true)) == Some(true));
    assert!(rt; has_image::<EightOff>(alloc, SEVEN, b"ah kh", b"kh gh", Ok(true)) == Some(true));
    assert!(rt; has_image::<EightOff>(alloc, SEVEN, b"kh ah", b"gh kh", not_next) == Some(true));
}

// Whether the list, of which the moves at this index and the next one change places, plays alike
// from the board and, printed and read again, from the one to which the passage leads.
fn is_alike<R: Rule>(
    alloc: Global,
    board: &Board<R>,
    passage: &Passage<R>,
    list: &[u8],
    index: usize,
) -> Option<bool> {
    let image = image_of(alloc, passage, list, index)?;
    let there = outcome_of(alloc, &passage.carry(board), image.as_slice(), image.len())?;
    Some(there == outcome_of(alloc, board, list, index)?)
}

// The passage by this renaming that takes the cells the other way than this one, or `None` for a
// renaming that the game does not keep.
fn renamed<R: Rule>(own: &Passage<R>, renaming: Renaming) -> Option<Passage<R>> {
    let columns = Order::new(&[1, 3, 5, 7, 0, 2, 4, 6])?;
    Passage::new(renaming, columns, own.cells().inverse())
}

// Whether the whole list plays alike through the one passage, and the list with two neighbours
// exchanged through the other.
fn are_alike<R: Rule>(
    alloc: Global,
    board: &Board<R>,
    whole: &Passage<R>,
    exchanged: &Passage<R>,
    list: &[u8],
    index: usize,
) -> Option<bool> {
    Some(
        is_alike(alloc, board, whole, list, list.len())?
            && is_alike(alloc, board, exchanged, list, index)?,
    )
}

// Whether the whole list and the list with two neighbours exchanged play alike through the passage
// to the canonical board, and through one with each listed renaming before that one.
fn is_alike_everywhere<R: Rule>(
    alloc: Global,
    board: &Board<R>,
    list: &[u8],
    index: usize,
) -> Option<bool> {
    let own = canon(board).passage;
    for place in 0..R::RENAMINGS {
        let passage = renamed(&own, R::renaming(place))?;
        if !are_alike(alloc, board, &passage, &passage.then(&own), list, index)? {
            return Some(false);
        }
    }
    are_alike(alloc, board, &own, &own, list, index)
}

// Whether each list plays alike everywhere from the board of its deal.
fn deals_are_alike<R: Numbered>(
    alloc: Global,
    deals: &[(u32, &[u8], usize, StepFault)],
) -> Option<bool> {
    for &(number, list, index, _) in deals {
        let board = deal_board::<R>(number).ok()?;
        if !is_alike_everywhere(alloc, &board, list, index)? {
            return Some(false);
        }
    }
    Some(true)
}

#[test]
fn solutions_play_elsewhere(rt: HostRuntime) -> Result<(), Fail> {
    assert!(rt; deals_are_alike::<FreeCell>(rt.alloc(), &FREECELL) == Some(true));
    assert!(rt; deals_are_alike::<BakersGame>(rt.alloc(), &BAKERS_GAME) == Some(true));
    let board = read_board::<EightOff>(EIGHT_OFF_BOARD)?;
    assert!(rt; is_alike_everywhere(rt.alloc(), &board, EIGHT_OFF, 1) == Some(true));
    Ok(())
}

// Whether the move becomes this one by the passage there, and comes back by the passage back.
fn comes_back<R: Rule>(passage: &Passage<R>, mv: Move) -> bool {
    if !mv.fits::<R>() {
        return false;
    }
    let there = passage.carry_move(mv);
    let stays = passage.identity().carry_move(mv);
    passage.inverse().carry_move(there) == mv && stays == mv
}

#[test]
fn moves_come_back(rt: HostRuntime) -> Result<(), Fail> {
    let passage = canon(&read_board::<EightOff>(EIGHT_OFF_BOARD)?).passage;
    for mv in read_moves::<EightOff>(rt.alloc(), EIGHT_OFF)?.iter() {
        assert!(rt; comes_back(&passage, *mv));
    }
    Ok(())
}
