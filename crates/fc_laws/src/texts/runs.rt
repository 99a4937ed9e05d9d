//! Laws of the notation of moves of several cards.
ghost use Rattle.std.specs.{List.{sum_by}, Prelude.{◌++◌, ◌+◌, ◌<◌, ◌↔◌, ◌∷◌, ◌≡◌, ◌≤◌, ◌⊎◌, []}};
ghost use Rattle.std.specs.Prelude.{All, codes, IsFalse, length, List, map, None, Some, take, ℕ};
ghost use Rattle.fc_card.specs.Types.{Order, Text};
ghost use Rattle.fc_board.specs.{Games.{eight_off, freecell, Game}, Moves.{is_column_to_column}};
ghost use Rattle.fc_board.specs.Moves.{ListFits, move_between, MoveList, OneCard, RunFits, Runs};
ghost use Rattle.fc_board.specs.Passages.{AreOrders, run_image};
ghost use Rattle.fc_board.specs.declared.moves.Move.{Move};
ghost use Rattle.fc_board.specs.declared.moves.Place.TheVariants.{Column as ToColumn};
ghost use Rattle.fc_board.specs.declared.moves.Source.TheVariants.{Column as FromColumn};
ghost use Rattle.fc_board.specs.declared.run_move.RunMove.{RunMove, TheVariants.{One, Run}};
ghost use Rattle.fc_text.specs.Notation.{BadTokenAt, count_suffix, IsRunToken, IsToken, Listed};
ghost use Rattle.fc_text.specs.{Notation.{print, run_token, TooManyAt}, reader.{as_run, run_named}};
ghost use Rattle.fc_laws.specs.BoardExamples.{cell_a_to_itself, cells_to_columns, each_count};
ghost use Rattle.fc_laws.specs.BoardExamples.{run_of_three_home, three_cards_and_two_more};

/// A word is a token of just the move of several cards that its characters name, and so of one at
/// most.
pub fn words_name_runs()
    ensures named { (game : Game) (word : Text) (move : RunMove) → game.cells ≤ 8
        → IsRunToken game word move ↔ run_named game word ≡ Some move }
    ensures one_move { (game : Game) (word : Text) (move other : RunMove) → game.cells ≤ 8
        → IsRunToken game word move → IsRunToken game word other → move ≡ other }
{}

/// A text does exactly one of three: it lists moves of several cards, or it has a bad token at some
/// place, or it has too many words from some place on.
pub fn texts_list_runs_or_fail()
    ensures one_of_three { (game : Game) (text : Text) → game.cells ≤ 8
        → ((moves : List RunMove) × Listed (IsRunToken game) text moves)
        ⊎ ((place : ℕ) × BadTokenAt (IsRunToken game) text place)
        ⊎ ((place : ℕ) × TooManyAt (IsRunToken game) text place) }
    ensures listed_or_bad { (game : Game) (text : Text) (moves : List RunMove) (place : ℕ)
        → Listed (IsRunToken game) text moves → ¬ BadTokenAt (IsRunToken game) text place }
    ensures listed_or_too_many { (game : Game) (text : Text) (moves : List RunMove) (place : ℕ)
        → Listed (IsRunToken game) text moves → ¬ TooManyAt (IsRunToken game) text place }
    ensures bad_or_too_many { (game : Game) (text : Text) (place other : ℕ)
        → BadTokenAt (IsRunToken game) text place → ¬ TooManyAt (IsRunToken game) text other }
{}

/// A text lists one list of moves of several cards at most, has its bad token at one place, and its
/// first word too many at one place.
pub fn texts_of_runs_have_one_reading()
    ensures one_list { (game : Game) (text : Text) (moves other : List RunMove) → game.cells ≤ 8
        → Listed (IsRunToken game) text moves → Listed (IsRunToken game) text other
        → moves ≡ other }
    ensures one_bad_token { (game : Game) (text : Text) (place other : ℕ)
        → BadTokenAt (IsRunToken game) text place → BadTokenAt (IsRunToken game) text other
        → place ≡ other }
    ensures one_word_too_many { (game : Game) (text : Text) (place other : ℕ)
        → TooManyAt (IsRunToken game) text place → TooManyAt (IsRunToken game) text other
        → place ≡ other }
{}

/// A game has the columns and cells of the moves of several cards that a text lists, and their
/// numbers of cards are those of runs.
pub fn listed_runs_fit()
    ensures { (game : Game) (text : Text) (moves : List RunMove)
        → Listed (IsRunToken game) text moves → All (RunFits game) moves }
{}

/// The print of moves of several cards of a game lists these moves, up to 4,096 of them; with more
/// it has a word too many, after the print of the first 4,096 and a blank.
pub fn prints_list_their_runs()
    ensures listed { (game : Game) (moves : List RunMove) → game.cells ≤ 8
        → All (RunFits game) moves → length moves ≤ 4096
        → Listed (IsRunToken game) (print (Runs moves)) moves }
    ensures too_many { (game : Game) (moves : List RunMove) → game.cells ≤ 8
        → All (RunFits game) moves → 4096 < length moves
        → TooManyAt (IsRunToken game) (print (Runs moves))
        (length (print (Runs (take 4096 moves))) + 1) }
{}

/// A bad token and a first word too many are within the text, of moves of several cards too.
pub fn faults_of_runs_are_in_the_text()
    ensures bad_token { (game : Game) (text : Text) (place : ℕ)
        → BadTokenAt (IsRunToken game) text place → place < length text }
    ensures too_many { (game : Game) (text : Text) (place : ℕ)
        → TooManyAt (IsRunToken game) text place → place < length text }
{}

/// Moves of several cards print their tokens and a byte between two: two bytes a token, and four
/// where it says a number of cards.
pub fn sizes_of_printed_runs()
    ensures some { (moves : List RunMove) → 0 < length moves
        → length (print (Runs moves)) + 1 ≡ sum_by (λ move. length (run_token move) + 1) moves }
    ensures of_one_card { (move : Move) → length (run_token (One move)) ≡ 2 }
    ensures without_number { (from to : ℕ) → length (run_token (Run from to None)) ≡ 2 }
    ensures with_number { (from to count : ℕ) → length (run_token (Run from to (Some count))) ≡ 4 }
{}

/// The image of what a text lists as moves of several cards may be printed and read again.
pub fn images_of_runs_are_read_again()
    ensures { (game : Game) (text : Text) (columns cells : Order) (moves : List RunMove) → game.cells ≤ 8
        → AreOrders game columns cells → Listed (IsRunToken game) text moves
        → Listed (IsRunToken game) (print (Runs (map (run_image columns cells) moves)))
        (map (run_image columns cells) moves) }
{}

/// No two lists of moves of several cards of a game are printed alike.
pub fn prints_spell_one_list_of_runs()
    ensures { (game : Game) (moves other : List RunMove) → game.cells ≤ 8
        → All (RunFits game) moves → All (RunFits game) other
        → print (Runs moves) ≡ print (Runs other) → moves ≡ other }
{}

/// A text that lists moves of one card lists the same moves as moves of several cards, where those
/// from column to column are runs of no stated number, and is printed alike.
pub fn moves_are_runs()
    ensures listed { (game : Game) (text : Text) (moves : List Move)
        → Listed (IsToken game) text moves
        → Listed (IsRunToken game) text (map as_run moves) }
    ensures printed { (moves : List Move)
        → print (Runs (map as_run moves)) ≡ print (OneCard moves) }
    ensures of_one_card { (game : Game) (word : Text) (move : Move)
        → IsRunToken game word (One move)
        ↔ (IsToken game word move × IsFalse (is_column_to_column move)) }
    ensures of_columns { (game : Game) (word : Text) (from to : ℕ)
        → IsRunToken game word (Run from to None)
        ↔ IsToken game word (move_between (FromColumn from) (ToColumn to)) }
{}

/// A token of a run of no stated number, and `v` with the digit of 1 to 13 cards after it, is a
/// token of the same run with that number of cards.
pub fn runs_take_each_count()
    ensures { (game : Game) (word : Text) (from to count : ℕ) → 1 ≤ count → count ≤ 13
        → IsRunToken game word (Run from to None)
        → IsRunToken game (word ++ count_suffix (Some count)) (Run from to (Some count)) }
{}

/// `12V3 1a 2h` is read and printed `12v3 1a 2h`, and a run of three is listed and printed.
pub fn runs_are_read_and_printed()
    ensures read { Listed (IsRunToken freecell) (codes "12V3 1a 2h") three_cards_and_two_more }
    ensures printed { print (Runs three_cards_and_two_more) ≡ codes "12v3 1a 2h" }
    ensures three_read { Listed (IsRunToken freecell) (codes "23 1h 3h 3h 1h 1h 3h")
        run_of_three_home }
    ensures three_printed { print (Runs run_of_three_home) ≡ codes "23 1h 3h 3h 1h 1h 3h" }
    ensures to_itself { Listed (IsRunToken freecell) (codes "11v2 aa")
        (Run 0 0 (Some 2) ∷ One cell_a_to_itself ∷ []) }
    ensures none { print (Runs []) ≡ [] }
{}

/// The numbers of cards are 1 to 13, in either case, and are printed as hexadecimal digits in lower
/// case.
pub fn each_count_is_read()
    ensures lower { Listed (IsRunToken freecell)
        (codes "12v1 12v2 12v3 12v4 12v5 12v6 12v7 12v8 12v9 12va 12vb 12vc 12vd") each_count }
    ensures upper { Listed (IsRunToken freecell)
        (codes "12V1 12V2 12V3 12V4 12V5 12V6 12V7 12V8 12V9 12VA 12VB 12VC 12VD") each_count }
    ensures printed { print (Runs each_count)
        ≡ codes "12v1 12v2 12v3 12v4 12v5 12v6 12v7 12v8 12v9 12va 12vb 12vc 12vd" }
{}

/// Each column and each cell has its letter in moves of several cards too, and FreeCell has no cell
/// e.
pub fn each_letter_is_read_in_runs()
    ensures cells { Listed (IsRunToken eight_off) (codes "a1 b2 c3 d4 e5 f6 g7 k8")
        (map as_run cells_to_columns) }
    ensures columns { Listed (IsRunToken freecell) (codes "81 12 23 34 45 56 67 78")
        (Run 7 0 None ∷ map (λ from. Run from (from + 1) None) (0 ∷ 1 ∷ 2 ∷ 3 ∷ 4 ∷ 5 ∷ 6 ∷ [])) }
    ensures no_cell { BadTokenAt (IsRunToken freecell) (codes "1e") 0 }
{}

/// No suffix but `v` and a digit from 1 to d is read, and none on a move that is not from column to
/// column.
pub fn bad_suffixes()
    ensures zero { BadTokenAt (IsRunToken freecell) (codes "12v0") 0 }
    ensures fourteen { BadTokenAt (IsRunToken freecell) (codes "12ve") 0 }
    ensures to_a_cell { BadTokenAt (IsRunToken freecell) (codes "1av1") 0 }
    ensures home { BadTokenAt (IsRunToken freecell) (codes "2hv1") 0 }
    ensures from_a_cell { BadTokenAt (IsRunToken freecell) (codes "a1v1") 0 }
    ensures no_digit { BadTokenAt (IsRunToken freecell) (codes "12v") 0 }
    ensures two_digits { BadTokenAt (IsRunToken freecell) (codes "12v12") 0 }
    ensures another_letter { BadTokenAt (IsRunToken freecell) (codes "12x3") 0 }
    ensures no_letter { BadTokenAt (IsRunToken freecell) (codes "1213") 0 }
    ensures of_no_column { BadTokenAt (IsRunToken freecell) (codes "92v1") 0 }
    ensures of_one_card { BadTokenAt (IsToken freecell) (codes "12v3") 0 }
{}

/// A list that fits a game fits Eight Off, which has the most cells: what the images of its moves
/// are printed for, whichever game they are of.
pub fn lists_fit_eight_off()
    ensures { (game : Game) (list : MoveList) → game.cells ≤ 8 → ListFits game list
        → ListFits eight_off list }
{}
