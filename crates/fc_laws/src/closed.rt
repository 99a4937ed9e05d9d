//! Laws of unsolvable boards and of closed lists.
ghost use Rattle.std.specs.{List.{Contains}, Prelude.{◌++◌, ◌↔◌, ◌∷◌, ◌≡◌, [], All, List, ℕ}};
ghost use Rattle.fc_board.specs.{Boards.{Board, IsWellFormed}, Games.{freecell}};
ghost use Rattle.fc_board.specs.{Moves.{MoveList, OneCard, Runs}, Play.{IsWon, Plays, Wins}};
ghost use Rattle.fc_board.specs.Steps.{Step};
ghost use Rattle.fc_board.specs.declared.{moves.Move.{Move}, run_move.RunMove.{RunMove}};
ghost use Rattle.{fc_bytes.specs.{legal_moves}, fc_canon.specs.{Equivalent}};
ghost use Rattle.fc_bytes.specs.declared.board.BoardBytes.{BoardBytes};
ghost use Rattle.fc_closed.specs.{AreClosedKeys, IsAmong, IsClosed, IsDoubted, IsFirstFlaw};
ghost use Rattle.fc_closed.specs.{IsUnsolvable, ShowUnsolvable};
ghost use Rattle.fc_closed.specs.declared.check.{Doubt.{Doubt}, Flaw.{Flaw}};
ghost use Rattle.fc_laws.specs.ClosedExamples.{ace_home, ace_to_go, nothing_to_go, queen_on_king};
ghost use Rattle.fc_laws.specs.ClosedExamples.{queen_to_go};

use fc_board::Rule;

/// Where no board of a list is won, and each move of one card leads to a board that is equivalent
/// to one of the list, no list of moves, of one card or of several, wins from any of them.
pub fn closed_boards_are_unsolvable<R: Rule>()
    ensures { (boards : List Board) (board : Board) → All (IsWellFormed R.game) boards
        → IsClosed R.game boards → Contains boards board → IsUnsolvable R.game board }
{}

/// Play does not leave a closed list: what a legal list of moves leads to from one of its boards is
/// equivalent to one of them, and is not won.
pub fn play_stays_in_closed_lists<R: Rule>()
    ensures stays { (boards : List Board) (board after : Board) (moves : MoveList)
        → All (IsWellFormed R.game) boards → IsClosed R.game boards → Contains boards board
        → Plays R.game board moves after → IsAmong R.game boards after }
    ensures not_won { (boards : List Board) (board after : Board) (moves : MoveList)
        → All (IsWellFormed R.game) boards → IsClosed R.game boards → Contains boards board
        → Plays R.game board moves after → ¬ IsWon after }
{}

/// Equivalent boards are unsolvable together.
pub fn equivalent_boards_are_unsolvable_together<R: Rule>()
    ensures { (board other : Board) → IsWellFormed R.game board → Equivalent R.game board other
        → IsUnsolvable R.game board ↔ IsUnsolvable R.game other }
{}

/// A board from which a list of moves wins, in either form, is not unsolvable, and is in no closed
/// list; nor is one that is won.
pub fn boards_that_win_are_in_no_closed_list<R: Rule>()
    ensures won { (board : Board) → IsWon board → ¬ IsUnsolvable R.game board }
    ensures by_one_card { (board : Board) (moves : List Move) → Wins R.game board (OneCard moves)
        → ¬ IsUnsolvable R.game board }
    ensures by_runs { (board : Board) (moves : List RunMove) → Wins R.game board (Runs moves)
        → ¬ IsUnsolvable R.game board }
    ensures listed { (boards : List Board) (board : Board) (moves : MoveList)
        → All (IsWellFormed R.game) boards → Contains boards board → Wins R.game board moves
        → ¬ IsClosed R.game boards }
{}

/// A list without a board is closed, and so are the boards of two closed lists together.
pub fn closed_lists_are_joined<R: Rule>()
    ensures none { IsClosed R.game [] }
    ensures both { (boards others : List Board) → IsClosed R.game boards → IsClosed R.game others
        → IsClosed R.game (boards ++ others) }
{}

/// Lists of boards that are equivalent each to one of the other are closed together.
pub fn equivalent_lists_are_closed_together<R: Rule>()
    ensures { (boards others : List Board) → All (IsWellFormed R.game) boards
        → All (IsWellFormed R.game) others → All (IsAmong R.game others) boards
        → All (IsAmong R.game boards) others → IsClosed R.game boards → IsClosed R.game others }
{}

/// From three boards an ace goes home, a queen on a king, and nothing goes: so they are closed, and
/// nothing wins from the first. Without the last of them they are not.
pub fn three_boards_are_closed()
    ensures well_formed { All (IsWellFormed freecell)
        (ace_to_go ∷ queen_to_go ∷ nothing_to_go ∷ []) }
    ensures first_move { legal_moves freecell ace_to_go ≡ ace_home ∷ [] }
    ensures next_move { legal_moves freecell queen_to_go ≡ queen_on_king ∷ [] }
    ensures no_move { legal_moves freecell nothing_to_go ≡ [] }
    ensures first { Step freecell ace_to_go ace_home queen_to_go }
    ensures next { Step freecell queen_to_go queen_on_king nothing_to_go }
    ensures three { IsClosed freecell (ace_to_go ∷ queen_to_go ∷ nothing_to_go ∷ []) }
    ensures last_alone { IsClosed freecell (nothing_to_go ∷ []) }
    ensures without_last { ¬ IsClosed freecell (ace_to_go ∷ queen_to_go ∷ []) }
    ensures unsolvable { IsUnsolvable freecell ace_to_go }
{}

/// Keys are those of a closed list, or one thing is wrong with them first, at one place; not both.
/// Likewise they show a board unsolvable, or one thing is lacking.
pub fn one_flaw_is_the_first<R: Rule>()
    ensures not_closed { (keys : List BoardBytes) (place : ℕ) (flaw : Flaw)
        → IsFirstFlaw R.game R.renamings keys place flaw
        → ¬ AreClosedKeys R.game R.renamings keys }
    ensures one_place { (keys : List BoardBytes) (place other : ℕ) (flaw next : Flaw)
        → IsFirstFlaw R.game R.renamings keys place flaw
        → IsFirstFlaw R.game R.renamings keys other next → place ≡ other }
    ensures one_flaw { (keys : List BoardBytes) (place other : ℕ) (flaw next : Flaw)
        → IsFirstFlaw R.game R.renamings keys place flaw
        → IsFirstFlaw R.game R.renamings keys other next → flaw ≡ next }
    ensures not_shown { (board : BoardBytes) (keys : List BoardBytes) (doubt : Doubt)
        → IsDoubted R.game R.renamings board keys doubt
        → ¬ ShowUnsolvable R.game R.renamings board keys }
    ensures one_doubt { (board : BoardBytes) (keys : List BoardBytes) (doubt other : Doubt)
        → IsDoubted R.game R.renamings board keys doubt
        → IsDoubted R.game R.renamings board keys other → doubt ≡ other }
{}
