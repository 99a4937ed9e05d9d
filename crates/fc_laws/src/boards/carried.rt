//! Laws of play on carried boards, for every game: a move and its image, a list and its images go
//! alike.
ghost use Rattle.std.specs.Prelude.{◌↔◌, ◌≡◌, None, Some, ℕ};
ghost use Rattle.fc_board.specs.{Boards.{Board, IsWellFormed}, Games.{freecell}};
ghost use Rattle.fc_board.specs.{Moves.{Fits, list_image, MoveList, RunFits}, Passages.{carried}};
ghost use Rattle.fc_board.specs.Passages.{carried_move, carried_run, Carries, identity_passage};
ghost use Rattle.fc_board.specs.Passages.{IsPassage, Passage};
ghost use Rattle.fc_board.specs.Play.{Legal, Plays, PlaysAlike, RefusedAt, Wins};
ghost use Rattle.fc_board.specs.Steps.{refusal, run_refusal, RunStep, Step};
ghost use Rattle.fc_board.specs.declared.fault.StepFault.{StepFault, TheVariants.{EmptySource}};
ghost use Rattle.fc_board.specs.declared.fault.StepFault.TheVariants.{NotBuilding, SamePile};
ghost use Rattle.fc_board.specs.declared.{moves.Move.{Move}, run_move.RunMove.{RunMove}};
ghost use Rattle.fc_laws.specs.BoardExamples.{deal_1, deal_1_after_one, mixed_colours, move_32};
ghost use Rattle.fc_laws.specs.BoardExamples.{move_outside};

use fc_board::Rule;

/// A game refuses the image of a move on the carried board exactly where it refuses the move, and
/// for the same reason.
pub fn refusals_are_carried<R: Rule>()
    ensures { (passage : Passage) (board : Board) (move : Move)
        → IsPassage R.game passage → IsWellFormed R.game board → Fits R.game move
        → refusal R.game (carried passage board) (carried_move passage move)
        ≡ refusal R.game board move }
{}

/// The image of a step is a step of the carried board to the carried board after it, and each step
/// of the carried board is such an image.
pub fn steps_are_carried<R: Rule>()
    ensures { (passage : Passage) (board other : Board) (move : Move)
        → IsPassage R.game passage → IsWellFormed R.game board
        → Step R.game (carried passage board) (carried_move passage move) other
        ↔ ((after : Board) × Step R.game board move after × (other ≡ carried passage after)) }
{}

/// A list of moves and its image play alike: they lead to a board and to the carried one, they are
/// legal, win or are refused together, and are refused at one index and for one reason.
pub fn lists_are_carried<R: Rule>()
    ensures plays { (passage : Passage) (board other : Board) (moves : MoveList)
        → IsPassage R.game passage → IsWellFormed R.game board
        → Plays R.game (carried passage board) (list_image passage moves) other
        ↔ ((after : Board) × Plays R.game board moves after × (other ≡ carried passage after)) }
    ensures legal { (passage : Passage) (board : Board) (moves : MoveList)
        → IsPassage R.game passage → IsWellFormed R.game board
        → Legal R.game (carried passage board) (list_image passage moves)
        ↔ Legal R.game board moves }
    ensures wins { (passage : Passage) (board : Board) (moves : MoveList)
        → IsPassage R.game passage → IsWellFormed R.game board
        → Wins R.game (carried passage board) (list_image passage moves)
        ↔ Wins R.game board moves }
    ensures refused { (passage : Passage) (board : Board) (moves : MoveList)
        (index : ℕ) (fault : StepFault)
        → IsPassage R.game passage → IsWellFormed R.game board
        → RefusedAt R.game (carried passage board) (list_image passage moves) index fault
        ↔ RefusedAt R.game board moves index fault }
{}

/// Lists of moves play from a board as their images from each board that a passage leads to.
pub fn boards_play_alike<R: Rule>()
    ensures { (board other : Board) (passage : Passage)
        → IsWellFormed R.game board → Carries R.game passage board other
        → PlaysAlike R.game passage board other }
{}

/// A game refuses the image of a move of several cards on the carried board exactly where it
/// refuses the move, and for the same reason.
pub fn run_refusals_are_carried<R: Rule>()
    ensures { (passage : Passage) (board : Board) (mv : RunMove)
        → IsPassage R.game passage → IsWellFormed R.game board → RunFits R.game mv
        → run_refusal R.game (carried passage board) (carried_run passage mv)
        ≡ run_refusal R.game board mv }
{}

/// The image of a step of several cards is a step of the carried board to the carried board after
/// it, and each such step of the carried board is an image.
pub fn run_steps_are_carried<R: Rule>()
    ensures { (passage : Passage) (board other : Board) (mv : RunMove)
        → IsPassage R.game passage → IsWellFormed R.game board
        → RunStep R.game (carried passage board) (carried_run passage mv) other
        ↔ ((after : Board) × RunStep R.game board mv after × (other ≡ carried passage after)) }
{}

/// The premises on moves and on passages are needed: with places past the eight columns two piles
/// become one, and with a renaming that mixes the colours a card no longer goes where it went.
pub fn premises_are_needed()
    ensures outside_is_empty { refusal freecell deal_1 move_outside ≡ Some EmptySource }
    ensures outside_is_one { refusal freecell (carried (identity_passage freecell) deal_1)
        (carried_move (identity_passage freecell) move_outside) ≡ Some SamePile }
    ensures goes { refusal freecell deal_1_after_one move_32 ≡ None }
    ensures mixed { refusal freecell (carried mixed_colours deal_1_after_one)
        (carried_move mixed_colours move_32) ≡ Some NotBuilding }
{}
