//! Laws of the capacity: no more cards than it says can go over, and as many can.
ghost use Rattle.std.specs.Prelude.{◌++◌, ◌<◌, ◌↔◌, ◌∷◌, ◌≡◌, ◌≢◌, ◌⊎◌, length, List, None, Option};
ghost use Rattle.std.specs.Prelude.{Some, true, ℕ};
ghost use Rattle.fc_card.specs.Types.{Pile};
ghost use Rattle.fc_board.specs.{Boards.{Board, IsWellFormed}, Games.{Builds}};
ghost use Rattle.fc_board.specs.{Moves.{OneCard, RunFits}, Play.{Plays}, Steps.{capacity}};
ghost use Rattle.fc_board.specs.Steps.{column_at, Confined, is_run, last_card, last_cards};
ghost use Rattle.fc_board.specs.Steps.{moved_count, run_moved, run_refusal};
ghost use Rattle.fc_board.specs.declared.fault.StepFault.TheVariants.{OverCapacity};
ghost use Rattle.fc_board.specs.declared.{moves.Move.{Move}, run_move.RunMove.TheVariants.{Run}};

use fc_board::Rule;

/// Where a run is to go to a column with cards, and nothing but the capacity can be a reason
/// against it, it is refused exactly if no confined list of moves does the same.
pub fn over_capacity_is_exact<R: Rule>()
    ensures { (board : Board) (from to last : ℕ) (said : Option ℕ) → IsWellFormed R.game board
        → RunFits R.game (Run from to said) → last_card (column_at board to) ≡ Some last
        → ((run_refusal R.game board (Run from to said) ≡ None)
        ⊎ (run_refusal R.game board (Run from to said) ≡ Some OverCapacity))
        → (run_refusal R.game board (Run from to said) ≡ Some OverCapacity)
        ↔ (¬ ((moves : List Move)
        × Confined board from to
        (last_cards (moved_count R.game board from to said) (column_at board from)) board moves
        × Plays R.game board (OneCard moves)
        (run_moved board from to (moved_count R.game board from to said)))) }
{}

/// Where a run goes to a column with cards, it has more cards than the capacity exactly if no
/// confined list of moves takes it over.
pub fn capacity_is_exact<R: Rule>()
    ensures { (board : Board) (from to first last : ℕ) (under later : Pile)
        → IsWellFormed R.game board → from ≢ to → from < 8 → to < 8
        → column_at board from ≡ under ++ first ∷ later → is_run R.game (first ∷ later) ≡ true
        → last_card (column_at board to) ≡ Some last → Builds R.game first last
        → (capacity R.game board to < length (first ∷ later))
        ↔ (¬ ((moves : List Move) × Confined board from to (first ∷ later) board moves
        × Plays R.game board (OneCard moves)
        (run_moved board from to (length (first ∷ later))))) }
{}

/// Where a run that goes to a column with cards has more cards than the capacity, no confined list
/// of moves takes its first card away.
pub fn first_cards_stay<R: Rule>()
    ensures { (board after : Board) (from to first last : ℕ) (under later : Pile)
        (moves : List Move)
        → IsWellFormed R.game board → column_at board from ≡ under ++ first ∷ later
        → is_run R.game (first ∷ later) ≡ true → last_card (column_at board to) ≡ Some last
        → Builds R.game first last → capacity R.game board to < length (first ∷ later)
        → Confined board from to (first ∷ later) board moves
        → Plays R.game board (OneCard moves) after
        → (rest : Pile) × (column_at after from ≡ under ++ first ∷ rest) }
{}

/// Where a run towards a column with cards is refused for the capacity, no confined list of moves
/// takes its first card away.
pub fn refused_first_cards_stay<R: Rule>()
    ensures { (board after : Board) (from to last : ℕ) (said : Option ℕ) (moves : List Move)
        → IsWellFormed R.game board → RunFits R.game (Run from to said)
        → last_card (column_at board to) ≡ Some last
        → run_refusal R.game board (Run from to said) ≡ Some OverCapacity
        → Confined board from to
        (last_cards (moved_count R.game board from to said) (column_at board from)) board moves
        → Plays R.game board (OneCard moves) after
        → (under : Pile) × (first : ℕ) × (later : Pile) × (rest : Pile)
        × (column_at board from ≡ under ++ first ∷ later)
        × (length (first ∷ later) ≡ moved_count R.game board from to said)
        × (column_at after from ≡ under ++ first ∷ rest) }
{}
