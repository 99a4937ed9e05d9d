//! Solutions of real deals, each played to its end. Freecell Solver 5.0.0 found them, from what
//! make-microsoft-freecell-board prints: `fc-solve -m -sn -to 01ABCDE`, with `-g bakers_game` or
//! `-g eight_off`. Every move is of one card, and every move home is written.
ghost use Rattle.{fc_board.specs.Moves.{Fits}, std.specs.Prelude.{All, IsTrue}};

use fc_board::{BakersGame, Board, EightOff, FreeCell, Move, PlayFault, Rule, StepFault};
use fc_deal::{Numbered, deal_board};
use fc_text::{read_board, read_moves};
use std::alloc::Global;
use std::test::Fail;

mod carried;
mod runs;

const FREECELL_1: &[u8] =
    b"2a 2b 8c 87 57 85 38 53 43 8d a2 52 85 2a d5 8d 87 58 a2 71 8a 58 a8 17 3a 32 a2 71 8a 85 28 \
    17 82 68 68 6h 8h 6h 71 a5 17 2a 23 71 a3 17 8a 28 71 82 38 32 82 38 31 d1 2d 28 d8 3d b3 7b \
    73 b3 7b 74 c4 5c 57 c7 8c 82 c2 7c 75 c5 7c 7h 5h 5h 1h 5h 67 36 a1 63 2a 28 36 a8 63 5a 5h \
    53 45 d4 6d 46 47 67 16 13 1h 8h dh 2h 63 26 2d c2 7c 74 54 85 86 28 56 25 85 48 47 87 b8 7b \
    74 c4 8c 48 47 87 a8 2a d8 2d 2h 3h 5h 72 74 24 32 31 21 42 47 27 c2 5c 75 74 54 35 32 52 35 \
    34 54 75 38 3h 73 53 65 68 78 27 24 74 17 14 74 17 18 c8 7c 17 1h 1h 7h 4h 4h 8h 4h 8h 4h 8h \
    2h 6h 8h bh 47 4h 42 46 26 42 4h 21 62 6h 4h 46 4h 4h 3h 3h ch 5h 7h 8h 2h 8h 8h 1h dh ah 14 \
    1h 6h 4h";

const FREECELL_164: &[u8] =
    b"17 15 17 1h 12 1h 1h 5h 6h 6h 2h 41 46 83 83 4a 14 71 7h 76 4b 4c 1d 21 26 28 2h 5h 15 41 4h \
    4h dh 5h 7h 1h 74 71 7h 18 21 21 26 82 7d 87 84 27 82 8h dh 3h 6h 58 51 75 74 87 81 38 3h 71 \
    37 3h 54 8d 38 3h 45 b3 54 2b 32 45 23 42 52 54 24 a5 42 2a b3 2b 32 a4 23 12 15 25 32 2a 32 \
    a2 3a b3 43 1b 12 b2 34 1b 51 52 12 31 41 43 13 14 31 14 31 41 43 13 14 61 6h 34 64 6h 6h 6h \
    dh 1h 2h 2h 2h 4h 4h 2h 4h 4h 5h 3h 2h 4h 5h 3h 2h 5h 8h 7h bh 6h ah ch";

const FREECELL_11983: &[u8] =
    b"6h 5h 3h 2h 1h 12 13 75 27 6a 72 6b 27 6c 72 76 26 6d a7 6a 67 6h 16 27 24 25 72 c4 27 1c 16 \
    1h 41 31 34 14 d7 58 4d 85 a2 72 4a 58 14 51 81 85 d4 27 3d 38 34 37 3h 4h 5h ah 43 57 34 53 \
    54 63 4a 36 d8 63 68 56 4d 54 15 17 41 57 45 15 41 43 4h 3h 38 a5 83 4a 38 b5 83 1b 51 38 15 \
    d1 83 5d 51 38 d1 83 8d 86 d6 36 1d 15 63 d5 36 1d 51 63 15 61 31 36 53 16 35 d3 61 5d 53 16 \
    d3 61 6d 68 d8 18 3d 35 81 d5 18 3d 53 81 35 b3 18 1b d1 5d 51 d1 5d 53 45 4h d3 4d 4h 1h 1h \
    dh 3h 74 7h 7h 3h 7h 72 7h bh 4d 74 75 45 74 7h 1b 21 25 15 21 2h 2h 6h dh bh 72 7h 3h 5h 5h \
    86 8h 87 83 73 87 8h 8h 1h 8h 2h 6h 3h 5h 8h 4h 5h 3h 5h 7h ch ah";

const BAKERS_GAME_1: &[u8] =
    b"72 2a 8b 8c 7d a2 7a 7h 3h c3 7c 72 57 72 a7 67 8a 68 6h 8h 8h 8h 6h 84 a8 18 13 5a 5h 4h 4h \
    54 5h 53 75 73 27 53 25 75 67 6h ah 26 5a 56 25 a6 8a 82 68 a2 86 28 6a 82 68 65 26 85 28 68 \
    26 a5 8a 86 28 25 a6 2a 72 17 1h 5h 5h 5h 5h 5h 1h 7h bh 25 27 2h 3h 3h 3h 3h 3h 3h 3h 62 34 \
    3h 8h 68 28 32 3h 43 62 86 82 48 62 46 4h dh 4h ch 38 23 41 4h 3h 2h 2h 2h 4h 8h 8h 5h 6h 7h \
    ah 13 12 1h 3h 2h";

const BAKERS_GAME_6: &[u8] =
    b"4h 85 1a 1b 1c 8d 86 c1 8c 8h 81 38 3h 1h 1h 1h 1h dh 35 1d 1h 41 45 46 16 41 c1 4c 42 64 b2 \
    46 34 3b 3h 3h 6h 6h 6h 6h 6h 5h 5h 5h 5h 53 b5 65 6b 67 6h 56 d7 65 76 3d 73 63 76 75 7h 73 \
    7h 2h 2h 2h 78 57 c8 75 87 5c 78 57 b8 75 87 27 2h 5b a3 5a d3 5d 5h 5h 5h 7h 7h 8h 8h 8h 2h \
    2h 2h 2h 3h 3h 3h 3h 3h 4h 6h 1h 1h ch bh ah dh";

const BAKERS_GAME_7: &[u8] =
    b"2h 78 62 43 8a 8b 48 8c 1d b4 5b a4 5a c8 5c 56 5h 8h 8h 8h 54 85 b4 8b 8h 2h 2h 18 1h 5h 35 \
    21 53 65 61 6h 51 65 65 d5 7d 76 27 c2 1c b2 8b 18 c8 1c 12 c2 1c 1h 14 81 82 38 12 31 3h 37 \
    81 38 35 83 78 a5 87 38 3a 3h 1h 1h ch 73 71 31 73 7c 7h 6h 6h ch dh 8h ah bh 27 26 28 76 27 \
    87 68 67 26 87 28 68 26 2h 2h 4h 4h 4h 4h 4h 4h 4h 7h 7h 7h 7h 8h 8h 6h 4h 5h 5h 5h 5h 5h 42 \
    4h 2h 1h 1h 3h";

static EIGHT_OFF: &[u8] =
    b"dh 58 57 7e 7f 7g 7h 7k 7d 7h ah 37 31 5a g3 5g b5 1b f5 2f 2h 2h fh 2f e5 2e 2h b1 4b g4 8g \
    85 g5 8g c8 3c 34 3h g3 8g c4 8c 85 86 83 k3 5k d3 1d 13 17 d3 1d k5 4k d1 6d 61 62 b5 4b d1 \
    6d 68 67 6h kh bh 4h 4h eh 8h 41 5k 5b 5e a4 5a d7 1d a5 1a e5 1e b5 1b 14 1h fh 1h dh ah eh \
    bh 4h 4h 4h 4h 3h 3h 3h 3h 3h 3h 3h 3h 2h 7h 7h 7h 7h 5f 5d 5a 5e 5b c4 5c 56 5h gh 4h 4h kh \
    fh dh ah eh bh ch 6h";

// Eight Off with deal 24, of which the last cards of the first four columns are in the cells.
static EIGHT_OFF_BOARD: &[u8] = b"FC: 2H QD 3D AS
4C 2C 9C 8C QS 4S
5H QH 3C AC 3H 4H
QC 9S 6H 9H 3S KS
5D 2S JC 5C JH 6D
2D KD TH TC TD 8D
7H JS KH TS KC 7C
AH 5S 6S AD 8H JD
7S 6C 7D 4D 8S 9D
";

// Deals and their solutions, and where each is refused and why once the move there and the next one
// change places.
static FREECELL: [(u32, &[u8], usize, StepFault); 3] = [
    (1, FREECELL_1, 2, StepFault::NotBuilding),
    (164, FREECELL_164, 0, StepFault::NotBuilding),
    (11983, FREECELL_11983, 1, StepFault::NotNext),
];

static BAKERS_GAME: [(u32, &[u8], usize, StepFault); 3] = [
    (1, BAKERS_GAME_1, 5, StepFault::TargetTaken),
    (6, BAKERS_GAME_6, 5, StepFault::NotBuilding),
    (7, BAKERS_GAME_7, 5, StepFault::NotBuilding),
];

// Whether the game has the columns and cells of all these moves.
fn all_fit<R: Rule>(moves: &[Move]) -> bool
    ensures { IsTrue result → All (Fits R.game) moves.now }
{
    moves.iter().all(|mv| mv.fits::<R>())
}

// The list played on the board: whether the board is won then, or which move is refused. `None` where
// a move does not fit the game.
fn play_list<R: Rule>(mut board: Board<R>, moves: &[Move]) -> Option<Result<bool, PlayFault>> {
    if !all_fit::<R>(moves) {
        return None;
    }
    Some(match board.play(moves) {
        Ok(()) => Ok(board.is_won()),
        Err(fault) => Err(fault),
    })
}

// The moves of a list, of which the one at this index and the next one change places.
fn with_exchange<R: Rule>(alloc: Global, list: &[u8], index: usize) -> Option<Vec<Move>> {
    let mut moves = read_moves::<R>(alloc, list).ok()?;
    if index < moves.len() && index + 1 < moves.len() {
        moves.swap(index, index + 1);
    }
    Some(moves)
}

// What comes of such a list on the board.
fn outcome_of<R: Rule>(
    alloc: Global,
    board: &Board<R>,
    list: &[u8],
    index: usize,
) -> Option<Result<bool, PlayFault>> {
    let moves = with_exchange::<R>(alloc, list, index)?;
    play_list(board.copy(), moves.as_slice())
}

// Whether the list wins the board, and is refused so where two of its moves change places: the one
// that is refused and the next one.
fn is_solved<R: Rule>(
    alloc: Global,
    board: &Board<R>,
    list: &[u8],
    index: usize,
    fault: StepFault,
) -> bool {
    outcome_of(alloc, board, list, list.len()) == Some(Ok(true))
        && outcome_of(alloc, board, list, index) == Some(Err(PlayFault { index, fault }))
}

// The same of each deal and its list.
fn are_solved<R: Numbered>(alloc: Global, deals: &[(u32, &[u8], usize, StepFault)]) -> bool {
    for &(number, list, index, fault) in deals {
        match deal_board::<R>(number) {
            Ok(board) if is_solved(alloc, &board, list, index, fault) => (),
            _ => return false,
        }
    }
    true
}

#[test]
fn solutions_of_freecell(rt: HostRuntime) {
    assert!(rt; are_solved::<FreeCell>(rt.alloc(), &FREECELL));
}

#[test]
fn solutions_of_bakers_game(rt: HostRuntime) {
    assert!(rt; are_solved::<BakersGame>(rt.alloc(), &BAKERS_GAME));
}

#[test]
fn solution_of_eight_off(rt: HostRuntime) -> Result<(), Fail> {
    let board = read_board::<EightOff>(EIGHT_OFF_BOARD)?;
    assert!(rt; is_solved(rt.alloc(), &board, EIGHT_OFF, 1, StepFault::NotBuilding));
    Ok(())
}
