//! Laws of the moves of one card that moves of several are short for.
ghost use Rattle.std.specs.Prelude.{◌*◌, ◌++◌, ◌<◌, ◌^◌, ◌↔◌, ◌∷◌, ◌≡◌, ◌≢◌, ◌≤◌, length, List};
ghost use Rattle.std.specs.Prelude.{true, ℕ};
ghost use Rattle.{fc_board.specs.declared.run_move.RunMove.{RunMove}, fc_card.specs.Types.{Pile}};
ghost use Rattle.fc_board.specs.Boards.{Board, IsWellFormed};
ghost use Rattle.fc_board.specs.Moves.{expansion, half, OneCard, Runs};
ghost use Rattle.fc_board.specs.Play.{Expands, expansion_of, expansions, Legal, Plays, Wins};
ghost use Rattle.fc_board.specs.Steps.{capacity, column_at, Confined, free_cells, is_run};
ghost use Rattle.fc_board.specs.Steps.{last_card, MayFollow, run_moved, RunStep, spare_columns};

use fc_board::Rule;

/// Where a move of several cards is allowed, its expansion leads to the same board by at most 49
/// moves.
pub fn tokens_expand<R: Rule>()
    ensures expands { (board after : Board) (mv : RunMove) → IsWellFormed R.game board
        → RunStep R.game board mv after
        → Expands R.game board mv (expansion_of R.game board mv) }
    ensures short { (board after : Board) (mv : RunMove) → IsWellFormed R.game board
        → RunStep R.game board mv after → length (expansion_of R.game board mv) ≤ 49 }
{}

/// The expansion of a run that is within the capacity, to a column with cards or an empty one, is
/// legal and confined, and takes the run over.
pub fn expansions_go_over<R: Rule>()
    ensures plays { (board : Board) (from to first : ℕ) (under later : Pile)
        → IsWellFormed R.game board → from ≢ to → from < 8 → to < 8
        → column_at board from ≡ under ++ first ∷ later → is_run R.game (first ∷ later) ≡ true
        → MayFollow R.game first (last_card (column_at board to))
        → length (first ∷ later) ≤ capacity R.game board to
        → Plays R.game board
        (OneCard (expansion (free_cells R.game board) (length (first ∷ later)) from to
        (spare_columns board to)))
        (run_moved board from to (length (first ∷ later))) }
    ensures confined { (board : Board) (from to first : ℕ) (under later : Pile)
        → IsWellFormed R.game board → from ≢ to → from < 8 → to < 8
        → column_at board from ≡ under ++ first ∷ later → is_run R.game (first ∷ later) ≡ true
        → MayFollow R.game first (last_card (column_at board to))
        → length (first ∷ later) ≤ capacity R.game board to
        → Confined board from to (first ∷ later) board
        (expansion (free_cells R.game board) (length (first ∷ later)) from to
        (spare_columns board to)) }
{}

/// A run has at most thirteen cards, and over at most eight helper columns its expansion at most 49
/// moves, whatever cells are empty.
#[tactic(auto, using(fc_board::proofs::ShortLemmas::short))]
pub fn expansions_are_short()
    ensures { (cells spare_columns : List ℕ) (count from to : ℕ) → count ≤ 13
        → length spare_columns ≤ 8
        → length (expansion cells count from to spare_columns) ≤ 49 }
{}

/// A list of moves of several cards wins exactly if it is legal and its expansion wins.
pub fn lists_win_as_their_expansions<R: Rule>()
    ensures { (board : Board) (moves : List RunMove) → IsWellFormed R.game board
        → Wins R.game board (Runs moves)
        ↔ (Legal R.game board (Runs moves)
        × Wins R.game board (OneCard (expansions R.game board moves))) }
{}

/// A list of moves of several cards and its expansion lead to one board.
pub fn lists_lead_as_their_expansions<R: Rule>()
    ensures { (board after : Board) (moves : List RunMove) → IsWellFormed R.game board
        → Plays R.game board (Runs moves) after
        → Plays R.game board (OneCard (expansions R.game board moves)) after }
{}

/// Over helper columns the first of them takes the least of reach, twice reach, four times reach
/// and so on that is half of the count or more, if there are helpers enough.
pub fn half_is_the_least_of_its_kind()
    ensures kind { (reach count : ℕ) (helpers : List ℕ) → (times : ℕ)
        × (times ≤ length helpers) × (half reach count helpers ≡ reach * 2 ^ times) }
    ensures half { (reach count : ℕ) (helpers : List ℕ)
        → count ≤ 2 * (reach * 2 ^ length helpers) → count ≤ 2 * half reach count helpers }
    ensures least { (reach count times : ℕ) (helpers : List ℕ)
        → count ≤ 2 * (reach * 2 ^ times) → half reach count helpers ≤ reach * 2 ^ times }
{}
