//! Lists of moves of several cards: played, given one card at a time, and carried.
ghost use Rattle.{fc_board.specs.Moves.{RunFits}, std.specs.Prelude.{All, IsTrue}};

use super::*;
use fc_board::RunMove;
use fc_canon::{Passage, canon};
use fc_text::{read_runs, write_runs};

// Two runs of three and six empty columns; all else is home.
static RUNS_OF_THREE: &[u8] = b"Foundations: H-K C-T D-T S-K
: KC QD JC
: KD QC JD
";

static HOMEWARD: &[u8] = b"23 1h 3h 3h 1h 1h 3h";

// Whether the game has the columns and cells of all these moves.
fn all_runs_fit<R: Rule>(runs: &[RunMove]) -> bool
    ensures { IsTrue result → All (RunFits R.game) runs.now }
{
    runs.iter().all(|run| run.fits::<R>())
}

// The list played on the board: whether the board is won then, or which move is refused. `None` where
// a move does not fit the game.
fn outcome_of_runs<R: Rule>(
    alloc: Global,
    mut board: Board<R>,
    list: &[u8],
) -> Option<Result<bool, PlayFault>> {
    let runs = read_runs::<R>(alloc, list).ok()?;
    if !all_runs_fit::<R>(runs.as_slice()) {
        return None;
    }
    Some(match board.play_runs(runs.as_slice()) {
        Ok(()) => Ok(board.is_won()),
        Err(fault) => Err(fault),
    })
}

// Whether the first of the moves is short for the moves of this list on the board.
fn first_expands_to<R: Rule>(board: &Board<R>, runs: &[RunMove], list: &[Move]) -> bool {
    match runs {
        [run, ..] if run.fits::<R>() => match board.expand(*run) {
            Ok(expansion) => expansion.as_slice() == list,
            Err(_) => false,
        },
        _ => false,
    }
}

#[test]
fn run_of_three(rt: HostRuntime) -> Result<(), Fail> {
    let board = read_board::<FreeCell>(RUNS_OF_THREE)?;
    assert!(rt; board.capacity(2) == 160);
    let runs = read_runs::<FreeCell>(rt.alloc(), HOMEWARD)?;
    let moves = read_moves::<FreeCell>(rt.alloc(), b"2a 2b 23 b3 a3")?;
    assert!(rt; first_expands_to(&board, runs.as_slice(), moves.as_slice()));
    assert!(rt; outcome_of_runs(rt.alloc(), board, HOMEWARD) == Some(Ok(true)));
    Ok(())
}

// The print of the image of the list. `None` where a move does not fit the game, or its image Eight
// Off, whose letters print all.
fn image_of_runs<R: Rule>(alloc: Global, passage: &Passage<R>, list: &[u8]) -> Option<Vec<u8>> {
    let mut runs = read_runs::<R>(alloc, list).ok()?;
    if !all_runs_fit::<R>(runs.as_slice()) {
        return None;
    }
    passage.carry_runs(runs.as_mut_slice());
    if !all_runs_fit::<EightOff>(runs.as_slice()) {
        return None;
    }
    write_runs(alloc, runs.as_slice()).ok()
}

// Whether the image of the list, by the passage to the canonical board, is printed so and wins.
fn has_winning_image<R: Rule>(alloc: Global, board: &Board<R>, list: &[u8], print: &[u8]) -> bool {
    let passage = canon(board).passage;
    matches!(image_of_runs(alloc, &passage, list), Some(image) if image.as_slice() == print)
        && outcome_of_runs(alloc, passage.carry(board), print) == Some(Ok(true))
}

#[test]
fn image_of_a_list_of_runs(rt: HostRuntime) -> Result<(), Fail> {
    let board = read_board::<FreeCell>(RUNS_OF_THREE)?;
    assert!(rt; has_winning_image(rt.alloc(), &board, HOMEWARD, b"81 7h 1h 1h 7h 7h 1h"));
    Ok(())
}
