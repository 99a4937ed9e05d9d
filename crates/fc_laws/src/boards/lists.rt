//! Laws of lists: of their verdicts, and of moves of several cards.
ghost use Rattle.std.specs.Prelude.{◌↔◌, ◌≡◌, ◌≤◌, length, List, None, ℕ};
ghost use Rattle.fc_board.specs.{Boards.{Board, IsWellFormed}, Games.{Game}};
ghost use Rattle.fc_board.specs.{Moves.{ListFits, MoveList, RunFits, Runs}, Play.{Legal}};
ghost use Rattle.fc_board.specs.Play.{list_verdict, OnlyLegal, Plays, Refused, RefusedAt, Wins};
ghost use Rattle.fc_board.specs.Play.{Won};
ghost use Rattle.fc_board.specs.Steps.{after_run_move, height_of, run_refusal, RunStep};
ghost use Rattle.fc_board.specs.declared.{fault.StepFault.{StepFault}, run_move.RunMove.{RunMove}};

use fc_board::Rule;

/// The verdict on a list is `Won` exactly if the list wins, `OnlyLegal` exactly if it is legal and
/// does not win, and `Refused` exactly if the game refuses its move at that index for that reason.
/// A won board has four foundations, so the first two speak of boards that do.
pub fn verdicts_are_true()
    ensures won { (game : Game) (board : Board) (moves : MoveList) → ListFits game moves
        → length board.heights ≡ 4 → list_verdict game board moves ≡ Won ↔ Wins game board moves }
    ensures allowed { (game : Game) (board : Board) (moves : MoveList) → ListFits game moves
        → length board.heights ≡ 4 → list_verdict game board moves ≡ OnlyLegal
        ↔ (Legal game board moves × ¬ Wins game board moves) }
    ensures refused { (game : Game) (board : Board) (moves : MoveList)
        (index : ℕ) (fault : StepFault) → ListFits game moves
        → list_verdict game board moves ≡ Refused index fault
        ↔ RefusedAt game board moves index fault }
{}

/// The game allows a move of several cards exactly where the move fits it and nothing refuses it,
/// and the move leads to the board after it alone.
pub fn runs_are_what_is_not_refused()
    ensures exactly { (game : Game) (board after : Board) (mv : RunMove)
        → RunStep game board mv after
        ↔ (RunFits game mv × (run_refusal game board mv ≡ None)
        × (after ≡ after_run_move game board mv)) }
    ensures exists { (game : Game) (board : Board) (mv : RunMove) → RunFits game mv
        → (run_refusal game board mv ≡ None)
        ↔ ((after : Board) × RunStep game board mv after) }
    ensures only_one { (game : Game) (board after other : Board) (mv : RunMove)
        → RunStep game board mv after → RunStep game board mv other → after ≡ other }
{}

/// What holds of a list of one-card moves holds of one of several cards too: the deck stays whole,
/// and no foundation gets lower.
pub fn lists_of_runs_keep_the_deck<R: Rule>()
    ensures well_formed { (board after : Board) (moves : List RunMove) → IsWellFormed R.game board
        → Plays R.game board (Runs moves) after → IsWellFormed R.game after }
    ensures heights { (board after : Board) (moves : List RunMove) (suit : ℕ)
        → IsWellFormed R.game board → Plays R.game board (Runs moves) after
        → height_of board suit ≤ height_of after suit }
{}
