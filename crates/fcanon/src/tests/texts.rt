//! Boards and moves, read and printed.
use fc_board::{EightOff, FreeCell, Rule};
use fc_text::{
    MovesFault, read_board, read_moves, read_runs, write_board, write_moves, write_runs,
};
use std::alloc::Global;
use std::process::Abort;
use std::test::Fail;

static DEAL_617: &[u8] =
    b"Foundations: H-0 C-0 D-0 S-0\nFreecells: - - - -\n: 7D TD TH KD 4C 4S JD\n: AD 7S QC 5H QS TS KS\n: 5C QD 3H 9S 9C 2H KC\n: 3S AC 9D 3C 9H 5D 4H\n: 5S 6D 6S 8S 7C JC\n: 8C 8H 8D 7H 6H 6C\n: 2D AS 3D 4D 2C JH\n: AH KH TC JS 2S QH\n";

static DEAL_617_IN_LOWER_CASE: &[u8] =
    b": 7d 10d 10h kd 4c 4s jd\r\n: 1d 7s qc 5h qs 10s ks\r\n: 5c qd 3h 9s 9c 2h kc\r\n: 3s 1c 9d 3c 9h 5d 4h\r\n: 5s 6d 6s 8s 7c jc\r\n: 8c 8h 8d 7h 6h 6c\r\n: 2d 1s 3d 4d 2c jh\r\n: 1h kh 10c js 2s qh\r\n";

static OUTER_CELLS: &[u8] =
    b"\n# cells first\nfc: qs * * * * * * ks\r\n\n: \ndecks: s-j d-k c-k h-k\n";

static OUTER_CELLS_PRINTED: &[u8] =
    b"Foundations: H-K C-K D-K S-J\nFreecells: QS - - - - - - KS\n:\n:\n:\n:\n:\n:\n:\n:\n";

// Whether the text is read, and printed so.
fn is_printed<R: Rule>(text: &[u8], printed: &[u8]) -> bool {
    match read_board::<R>(text) {
        Ok(board) => write_board(&board).as_slice() == printed,
        Err(_) => false,
    }
}

#[test]
fn boards(rt: HostRuntime) {
    assert!(rt; is_printed::<FreeCell>(DEAL_617_IN_LOWER_CASE, DEAL_617));
    assert!(rt; is_printed::<EightOff>(OUTER_CELLS, OUTER_CELLS_PRINTED));
}

// The print of the list. Where a growth is refused, want of memory is answered, and the same call
// then has its answer.
fn print_of_moves(alloc: Global, text: &[u8]) -> Result<Vec<u8>, Fail> {
    let moves = match read_moves::<FreeCell>(alloc, text) {
        Err(MovesFault::Memory) => read_moves::<FreeCell>(alloc, text)?,
        answer => answer?,
    };
    Ok(match write_moves(alloc, moves.as_slice()) {
        Err(_) => write_moves(alloc, moves.as_slice())?,
        Ok(printed) => printed,
    })
}

#[test]
fn moves(rt: HostRuntime) -> Result<(), Fail> {
    let text = b"3a 1B\t2c\r\n4D 51 62 73 84 A5 b6 C7 d8 1H 2h ah".as_slice();
    let printed = print_of_moves(rt.alloc(), text)?;
    assert!(rt; printed.as_slice() == b"3a 1b 2c 4d 51 62 73 84 a5 b6 c7 d8 1h 2h ah".as_slice());
    Ok(())
}

// How many moves are read, and their print. Want of memory is answered as above.
fn print_of_runs(alloc: Global, text: &[u8]) -> Result<(usize, Vec<u8>), Fail> {
    let runs = match read_runs::<FreeCell>(alloc, text) {
        Err(MovesFault::Memory) => read_runs::<FreeCell>(alloc, text)?,
        answer => answer?,
    };
    let printed = match write_runs(alloc, runs.as_slice()) {
        Err(_) => write_runs(alloc, runs.as_slice())?,
        Ok(printed) => printed,
    };
    Ok((runs.len(), printed))
}

// Lists, how each is printed, and how many moves it has. A number of cards is printed after a small
// `v`.
static RUNS: [(&[u8], &[u8], usize); 2] = [
    (b"23 1h 3h 3h 1h 1h 3h", b"23 1h 3h 3h 1h 1h 3h", 7),
    (b"12V3 1a 2h", b"12v3 1a 2h", 3),
];

#[test]
fn runs(rt: HostRuntime) -> Result<(), Fail> {
    for &(text, printed, count) in &RUNS {
        let (found, again) = print_of_runs(rt.alloc(), text)?;
        assert!(rt; found == count && again.as_slice() == printed);
    }
    Ok(())
}

static NO_RUNS: [&[u8]; 4] = [b"12v0", b"12ve", b"1av1", b"2hv1"];

#[test]
fn words_that_are_no_runs(rt: HostRuntime) {
    for text in &NO_RUNS {
        let answer = read_runs::<FreeCell>(rt.alloc(), text);
        assert!(rt; answer.err() == Some(MovesFault::BadToken(0)));
    }
}
