//! Deals by number.
use fc_board::BakersGame;
use fc_card::Card;
use fc_deal::{deal, deal_board};
use std::process::Abort;

// Whether the deal and its board begin with the card of this number.
fn begins_with(number: u32, card: u8) -> bool {
    let first = Card::from_number(card);
    match (deal(number), deal_board::<BakersGame>(number)) {
        (Ok(cards), Ok(board)) => {
            cards.first().copied() == first && board.column(0).first().copied() == first
        }
        _ => false,
    }
}

// The greatest deal, 2,147,483,647, begins with 9S, by make-microsoft-freecell-board.
#[test]
fn greatest_deal(rt: HostRuntime) {
    assert!(rt; begins_with(2_147_483_647, 35));
}
