//! Laws of Microsoft's deals.
ghost use Rattle.std.specs.List.Sorted.{IsPermutation};
ghost use Rattle.std.specs.Prelude.{◌==◌, ◌≡◌, count_by, length, slice_index, ℕ};
ghost use Rattle.{fc_board.specs.Boards.{HasEachCardOnce}, fc_card.specs.{IsCard}};
ghost use Rattle.fc_deal.specs.{deal, dealt_board, deck, drawn, next_state};
ghost use Rattle.fc_laws.specs.BoardExamples.{deal_1 as board_1, deal_617 as board_617};
ghost use Rattle.fc_laws.specs.DealExamples.{cards_of_deal_1, cards_of_deal_617};

/// Every number deals a whole deck: 52 cards, each of them once.
pub fn each_deal_is_a_whole_deck()
    ensures shuffled { (number : ℕ) → IsPermutation deck (deal number) }
    ensures length { (number : ℕ) → length (deal number) ≡ 52 }
    ensures each_once { (number card : ℕ) → IsCard card
        → count_by (λ other. other == card) (deal number) ≡ 1 }
{}

/// On the board of every number each card is in exactly one place.
pub fn each_dealt_board_has_each_card_once()
    ensures { (cells number : ℕ) → HasEachCardOnce (dealt_board cells (deal number)) }
{}

/// The first draw of deal 1 is 41, which is JD in a deck of 52.
pub fn first_draw_of_deal_1()
    ensures state { next_state 1 ≡ 2745024 }
    ensures drawn { drawn (next_state 1) ≡ 41 }
{}

/// Deals 1 and 617 are dealt as they are published.
pub fn published_deals()
    ensures first { deal 1 ≡ cards_of_deal_1 }
    ensures of_617 { deal 617 ≡ cards_of_deal_617 }
{}

/// The boards of deals 1 and 617 are those that are published.
pub fn published_boards()
    ensures first { dealt_board 4 (deal 1) ≡ board_1 }
    ensures of_617 { dealt_board 4 (deal 617) ≡ board_617 }
{}

/// The first cards of deals 1,000,000 (2D), 1,000,001 (3D) and 2,147,483,647 (9S).
pub fn first_cards_of_large_deals()
    ensures million { slice_index (deal 1000000) 0 ≡ 5 }
    ensures next { slice_index (deal 1000001) 0 ≡ 9 }
    ensures last { slice_index (deal 2147483647) 0 ≡ 35 }
{}
