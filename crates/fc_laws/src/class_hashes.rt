//! Laws of the hash of a board's class, and of the sums from which it is made.
ghost use Rattle.std.specs.Prelude.{◌+◌, ◌<◌, ◌^◌, ◌∷◌, ◌≡◌, [], Some, ℕ};
ghost use Rattle.{fc_board.specs.declared.moves.Move.{Move}, fc_card.specs.Types.{Card, Renaming}};
ghost use Rattle.fc_board.specs.Boards.{Board, IsWellFormed};
ghost use Rattle.fc_board.specs.{Games.{all_renamings, colour_renamings}, Steps.{card_at, Step}};
ghost use Rattle.fc_canon.specs.{Equivalent};
ghost use Rattle.fc_bytes.specs.class_hash.{AreMoved, AreSums, CanMove, child_hash, class_hash};
ghost use Rattle.fc_bytes.specs.class_hash.{class_sum, class_sums, hash_of_sums, lies_on};
ghost use Rattle.fc_bytes.specs.class_hash.{moved_sum, put_onto, sums_in};
ghost use Rattle.fc_bytes.specs.declared.class_hash.ClassSums.{ClassSums};
ghost use Rattle.fc_laws.specs.BoardExamples.{two_spades_left};
ghost use Rattle.fc_laws.specs.CanonicalExamples.{clubs_king_left, four_in_a_column};

use fc_board::Rule;

/// Equivalent boards have one class hash.
pub fn equivalent_boards_have_one_class_hash<R: Rule>()
    ensures { (board other : Board) → IsWellFormed R.game board → Equivalent R.game board other
        → class_hash R.renamings board ≡ class_hash R.renamings other }
{}

/// A move takes out of each sum what its card counts on what it lay on, and puts in what the card
/// counts on what it lies on then. Both are numbers with which sums can be moved.
pub fn moves_change_one_term<R: Rule>()
    ensures sums { (board after : Board) (move : Move) (card : Card) (renaming : Renaming)
        → IsWellFormed R.game board → Step R.game board move after
        → card_at board move.from ≡ Some card
        → class_sum after renaming
        ≡ moved_sum (card + 1) (lies_on board move.from) (put_onto board move.to) renaming
        (class_sum board renaming) }
    ensures numbers { (board after : Board) (move : Move) (card : Card) → IsWellFormed R.game board
        → Step R.game board move after → card_at board move.from ≡ Some card
        → CanMove (card + 1) (lies_on board move.from) (put_onto board move.to) }
{}

/// Sums that are moved as the board is stay the sums of the board, and from the sums of a board its
/// class hash is made: so a search needs no more than them.
pub fn sums_stay_those_of_the_board<R: Rule>()
    ensures moved { (board after : Board) (move : Move) (card : Card) (old new : ClassSums)
        → IsWellFormed R.game board → Step R.game board move after
        → card_at board move.from ≡ Some card → AreSums (class_sums R.renamings board) old
        → AreMoved R.renamings (card + 1) (lies_on board move.from) (put_onto board move.to) old new
        → AreSums (class_sums R.renamings after) new }
    ensures hash { (board : Board) (sums : ClassSums) → AreSums (class_sums R.renamings board) sums
        → hash_of_sums (sums_in R.renamings sums) ≡ class_hash R.renamings board }
{}

/// Sums are moved back by the same card, from what it lies on then onto what it lay on, home too.
pub fn moved_sums_are_moved_back()
    ensures numbers { (card from onto : ℕ) → CanMove card from onto → CanMove card onto from }
    ensures sums { (renaming : Renaming) (card from onto sum : ℕ) → sum < 2 ^ 128
        → moved_sum card onto from renaming (moved_sum card from onto renaming sum) ≡ sum }
{}

/// The hash that comes with a move, made of the sums of the board, is the class hash of the board
/// after it.
pub fn child_hashes_are_class_hashes<R: Rule>()
    ensures { (board after : Board) (move : Move) (sums : ClassSums)
        → IsWellFormed R.game board → Step R.game board move after
        → AreSums (class_sums R.renamings board) sums
        → (child_hash R.renamings board sums move).hash ≡ class_hash R.renamings after }
{}

/// The class hashes of three boards, as another program computes them: with KC on the foot of a
/// column in FreeCell, with QS and KS in cells in Eight Off, and in FreeCell with four cards in a
/// column and one in a cell, where each sum is 2^127 or more, and neither the first nor the last
/// is the least.
#[rattlefmt::skip]
pub fn class_hashes_of_boards()
    ensures clubs_king_left { class_hash colour_renamings clubs_king_left
        ≡ 122 ∷ 189 ∷ 245 ∷ 13 ∷ 112 ∷ 6 ∷ 219 ∷ 22
        ∷ 0 ∷ 196 ∷ 120 ∷ 7 ∷ 53 ∷ 135 ∷ 185 ∷ 79 ∷ [] }
    ensures two_spades_left { class_hash all_renamings two_spades_left
        ≡ 68 ∷ 107 ∷ 196 ∷ 185 ∷ 75 ∷ 10 ∷ 155 ∷ 37
        ∷ 249 ∷ 155 ∷ 240 ∷ 211 ∷ 156 ∷ 165 ∷ 28 ∷ 29 ∷ [] }
    ensures four_in_a_column { class_hash colour_renamings four_in_a_column
        ≡ 126 ∷ 0 ∷ 176 ∷ 152 ∷ 30 ∷ 174 ∷ 181 ∷ 134
        ∷ 175 ∷ 163 ∷ 173 ∷ 125 ∷ 188 ∷ 235 ∷ 140 ∷ 34 ∷ [] }
{}
