//! Classes of boards by a second opinion: boards that were drawn and played are carried by drawn
//! passages, and must be found to be one.
use arrayvec::ArrayVec;
use fc_board::{
    BakersGame, Board, EightOff, FreeCell, Height, Move, Place, Rule, Source, no_cards,
};
use fc_canon::{Passage, canon, same};
use fc_card::{Card, Group, Order};
use fc_text::write_board;
use std::process::Abort;

// The numbers of the recursion by which Microsoft's deals are made.
#[derive(Drop)]
struct Draws {
    seed: u32,
}

impl Draws {
    fn next(&mut self) -> usize {
        self.seed = self.seed.wrapping_mul(214013).wrapping_add(2531011) & 0x7fff_ffff;
        (self.seed >> 16) as usize
    }

    fn letter(&mut self) -> u8 {
        (self.next() % 8) as u8
    }
}

// An order of so many places, or `None` for more than eight.
fn order(draws: &mut Draws, count: usize) -> Option<Order> {
    let mut places: ArrayVec<u8, 8> = ArrayVec::new();
    for place in 0..8 {
        if usize::from(place) < count && !places.is_full() {
            let at = draws.next() % (places.len() + 1);
            places.insert(at, place);
        }
    }
    if places.len() == count {
        Order::new(places.as_slice())
    } else {
        None
    }
}

fn deck(draws: &mut Draws) -> ArrayVec<Card, 52> {
    let mut deck: ArrayVec<Card, 52> = ArrayVec::new();
    for number in 0..52 {
        if let Some(card) = Card::from_number(number)
            && !deck.is_full()
        {
            let at = draws.next() % (deck.len() + 1);
            deck.insert(at, card);
        }
    }
    deck
}

// A whole deck dealt on eight columns, card by card.
fn dealt<R: Rule>(draws: &mut Draws) -> Option<Board<R>> {
    let mut columns = no_cards();
    for (place, card) in deck(draws).as_slice().iter().enumerate() {
        columns[place % 8].try_push(*card).ok()?;
    }
    Board::from_parts([Height::new(0)?; 4], [None; 8], columns).ok()
}

// A move home as often as one to a column or a cell.
fn drawn_move(draws: &mut Draws) -> Move {
    let from = if draws.next() % 2 == 0 {
        Source::Column(draws.letter())
    } else {
        Source::Cell(draws.letter())
    };
    let to = match draws.next() % 3 {
        0 => Place::Column(draws.letter()),
        1 => Place::Cell(draws.letter()),
        _ => Place::Home,
    };
    Move { from, to }
}

// Plays so many moves that the game allows, or fewer where hardly any is left.
fn play_some<R: Rule>(board: &mut Board<R>, draws: &mut Draws, count: usize) {
    let mut done = 0;
    for _turn in 0..4_000 {
        if done >= count {
            return;
        }
        let mv = drawn_move(draws);
        if mv.fits::<R>() && board.step(mv).is_ok() {
            done += 1;
        }
    }
}

// Whether the other board, to which the passage leads, is found to be one with the board.
fn is_one_with<R: Rule>(board: &Board<R>, passage: &Passage<R>) -> bool {
    let other = passage.carry(board);
    let own = canon(board);
    let its = canon(&other);
    let Some(between) = same(board, &other) else {
        return false;
    };
    its.text == own.text
        && write_board(&its.board) == own.text
        && own.text <= write_board(&other)
        && write_board(&between.carry(board)) == write_board(&other)
        && write_board(&between.inverse().carry(&other)) == write_board(board)
}

// Whether the board is one with boards to which passages lead, one for every eighth renaming.
fn is_one_with_all<R: Rule>(board: &Board<R>, draws: &mut Draws) -> Option<bool> {
    for place in 0..R::RENAMINGS {
        if draws.next() % 8 != 0 {
            continue;
        }
        let passage = Passage::new(
            R::renaming(place),
            order(draws, 8)?,
            order(draws, R::CELLS)?,
        )?;
        if !is_one_with(board, &passage) {
            return Some(false);
        }
    }
    Some(true)
}

// Whether the board is one with all boards of its class, and with none of another deal.
fn is_kept_apart<R: Rule>(board: &Board<R>, draws: &mut Draws) -> Option<bool> {
    Some(is_one_with_all(board, draws)? && same(board, &dealt(draws)?).is_none())
}

// Whether seven deals, each also after 20 and after 60 moves, are one with all boards of their
// classes and with none of another deal.
fn are_kept_apart<R: Rule>(draws: &mut Draws) -> Option<bool> {
    for _deal in 0..7 {
        let mut board = dealt::<R>(draws)?;
        for moves in [0, 20, 40] {
            play_some(&mut board, draws, moves);
            if !is_kept_apart(&board, draws)? {
                return Some(false);
            }
        }
    }
    Some(true)
}

#[test]
fn boards_are_kept_apart(rt: HostRuntime) {
    let mut draws = Draws { seed: 1 };
    assert!(rt; are_kept_apart::<FreeCell>(&mut draws) == Some(true));
    assert!(rt; are_kept_apart::<BakersGame>(&mut draws) == Some(true));
    assert!(rt; are_kept_apart::<EightOff>(&mut draws) == Some(true));
}
