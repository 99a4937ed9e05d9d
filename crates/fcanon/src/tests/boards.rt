//! Boards made of their parts, and played.
use arrayvec::ArrayVec;
use fc_board::{
    BakersGame, Board, DeckFault, EightOff, FreeCell, Height, Move, Place, PlayFault, Rule, Source,
    StepFault, no_cards,
};
use fc_card::{Card, Rank, Suit};

// The board with so many cards of C and D and all of H and S home, empty cells and these columns.
fn board<R: Rule>(
    clubs: u8,
    diamonds: u8,
    columns: [&[Card]; 8],
) -> Option<Result<Board<R>, DeckFault>> {
    let whole = Height::new(13)?;
    let mut piles = no_cards();
    for place in 0..8 {
        piles[place] = ArrayVec::try_from(columns[place]).ok()?;
    }
    let heights = [Height::new(clubs)?, Height::new(diamonds)?, whole, whole];
    Some(Board::from_parts(heights, [None; 8], piles))
}

// Why there is no such board where 12 cards of C and D each are home.
fn fault_of(columns: [&[Card]; 8]) -> Option<DeckFault> {
    board::<FreeCell>(12, 12, columns)?.err()
}

#[test]
fn faults_of_decks(rt: HostRuntime) {
    let king = Card::new(Rank::King, Suit::C);
    let [k, n]: [&[Card]; 2] = [&[king], &[]];
    assert!(rt; fault_of([n, k, n, n, n, n, k, n]) == Some(DeckFault::RepeatedCard(king)));
    assert!(rt; fault_of([n; 8]) == Some(DeckFault::MissingCard(king)));
}

// Whether the board has these parts, and no card in a cell.
fn has_parts<R: Rule>(board: &Board<R>, clubs: &[Card]) -> bool {
    for cell in 0..R::CELLS {
        if board.cell(cell).is_some() {
            return false;
        }
    }
    board.column(0) == clubs
        && board.foundation(Suit::C).get() == 11
        && board.empty_cells() == R::CELLS
        && board.empty_columns() == 7
}

// Whether one club goes home, and then the other, and then no more.
fn two_clubs_go<R: Rule>(mut board: Board<R>) -> bool {
    let home = Move {
        from: Source::Column(0),
        to: Place::Home,
    };
    let fault = StepFault::EmptySource;
    Move::default() == home
        && home.fits::<R>()
        && board.step(home).is_ok()
        && board.play(&[home, home]) == Err(PlayFault { index: 1, fault })
        && board.is_won()
}

// Whether the board on which QC lies on KC in column 1, and all else is home, is made and won.
fn is_played<R: Rule>() -> bool {
    let clubs = [
        Card::new(Rank::King, Suit::C),
        Card::new(Rank::Queen, Suit::C),
    ];
    let [c, n]: [&[Card]; 2] = [&clubs, &[]];
    match board::<R>(11, 13, [c, n, n, n, n, n, n, n]) {
        Some(Ok(board)) => has_parts(&board, c) && two_clubs_go(board.copy()),
        _ => false,
    }
}

#[test]
fn two_clubs_go_home(rt: HostRuntime) {
    assert!(rt; is_played::<FreeCell>());
    assert!(rt; is_played::<BakersGame>());
    assert!(rt; is_played::<EightOff>());
}
