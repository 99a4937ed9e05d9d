//! Laws of what is read of a text of moves.
ghost use Rattle.std.specs.Prelude.{◌↔◌, ◌≡◌, ◌≤◌, Err, List, Ok, ℕ};
ghost use Rattle.{fc_board.specs.Games.{Game}, fc_card.specs.Types.{Text}};
ghost use Rattle.fc_board.specs.declared.{moves.Move.{Move}, run_move.RunMove.{RunMove}};
ghost use Rattle.fc_text.specs.Notation.{BadToken, BadTokenAt, IsRunToken, IsToken, Listed};
ghost use Rattle.fc_text.specs.{Notation.{TooMany, TooManyAt}, Readings.{moves_read, runs_read}};

/// What is read of a text is the moves that it lists, or its bad token, or its first word too many,
/// and in each case exactly then.
pub fn lists_are_read()
    ensures listed { (game : Game) (text : Text) (moves : List Move) → game.cells ≤ 8
        → moves_read game text ≡ Ok moves ↔ Listed (IsToken game) text moves }
    ensures bad_token { (game : Game) (text : Text) (place : ℕ) → game.cells ≤ 8
        → moves_read game text ≡ Err (BadToken place) ↔ BadTokenAt (IsToken game) text place }
    ensures too_many { (game : Game) (text : Text) (place : ℕ) → game.cells ≤ 8
        → moves_read game text ≡ Err (TooMany place) ↔ TooManyAt (IsToken game) text place }
{}

/// What is read of a text as moves of several cards is, likewise, what it lists or its fault.
pub fn lists_of_runs_are_read()
    ensures listed { (game : Game) (text : Text) (moves : List RunMove) → game.cells ≤ 8
        → runs_read game text ≡ Ok moves ↔ Listed (IsRunToken game) text moves }
    ensures bad_token { (game : Game) (text : Text) (place : ℕ) → game.cells ≤ 8
        → runs_read game text ≡ Err (BadToken place) ↔ BadTokenAt (IsRunToken game) text place }
    ensures too_many { (game : Game) (text : Text) (place : ℕ) → game.cells ≤ 8
        → runs_read game text ≡ Err (TooMany place) ↔ TooManyAt (IsRunToken game) text place }
{}
