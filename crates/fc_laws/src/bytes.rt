//! Laws of boards, passages and moves as plain bytes.
ghost use Rattle.std.specs.List.{Contains, Sorted.{IsStrictlyIncreasing}};
ghost use Rattle.std.specs.Prelude.{◌↔◌, ◌∷◌, ◌≡◌, ◌≤◌, [], map, replicate, Some, ℕ};
ghost use Rattle.fc_card.specs.declared.suit.Suit.TheVariants.{C, D, H, S};
ghost use Rattle.fc_board.specs.{Boards.{Board, IsWellFormed}, Games.{word}};
ghost use Rattle.fc_board.specs.{Passages.{carried, IsPassage, Passage}, Steps.{RunStep, Step}};
ghost use Rattle.fc_board.specs.declared.{moves.Move.{Move}, run_move.RunMove.{RunMove}};
ghost use Rattle.fc_board.specs.declared.run_move.RunMove.TheVariants.{One, Run};
ghost use Rattle.fc_canon.specs.{Chosen, Equivalent};
ghost use Rattle.fc_bytes.specs.{board_bytes, board_hash, HoldsBoard, HoldsMove, HoldsPassage};
ghost use Rattle.fc_bytes.specs.{HoldsRun, legal_moves, legal_runs, move_bytes, passage_bytes};
ghost use Rattle.fc_bytes.specs.{run_bytes};
ghost use Rattle.fc_bytes.specs.declared.board.BoardBytes.{BoardBytes};
ghost use Rattle.fc_bytes.specs.declared.moves.MoveBytes.{MoveBytes};
ghost use Rattle.fc_bytes.specs.declared.passage.PassageBytes.{PassageBytes};
ghost use Rattle.fc_bytes.specs.declared.runs.RunBytes.{RunBytes};
ghost use Rattle.fc_laws.specs.BoardExamples.{move_3a, move_kh, run, run_of_count, two_spades_left};
ghost use Rattle.fc_laws.specs.CanonicalExamples.{clubs_king_left};
ghost use Rattle.fc_laws.specs.Listings.{move_order, run_order};

use fc_board::Rule;

/// Equal bytes hold equal boards, and equal boards have equal bytes: so to compare bytes is to
/// compare boards, and a hash of the bytes is a hash of the board. The same holds of passages and
/// of moves, of one card and of several.
pub fn bytes_hold_one_value<R: Rule>()
    ensures one_board { (bytes : BoardBytes) (board other : Board) → HoldsBoard R.game bytes board
        → HoldsBoard R.game bytes other → board ≡ other }
    ensures boards { (board other : Board) → IsWellFormed R.game board → IsWellFormed R.game other
        → (board_bytes board ≡ board_bytes other) ↔ (board ≡ other) }
    ensures one_passage { (bytes : PassageBytes) (passage other : Passage)
        → HoldsPassage R.game bytes passage → HoldsPassage R.game bytes other → passage ≡ other }
    ensures passages { (passage other : Passage) → IsPassage R.game passage → IsPassage R.game other
        → (passage_bytes passage ≡ passage_bytes other) ↔ (passage ≡ other) }
    ensures one_move { (bytes : MoveBytes) (move other : Move) → HoldsMove R.game bytes move
        → HoldsMove R.game bytes other → move ≡ other }
    ensures one_run { (bytes : RunBytes) (run other : RunMove) → HoldsRun R.game bytes run
        → HoldsRun R.game bytes other → run ≡ other }
{}

/// The bytes of the canonical boards of two boards are equal exactly if the boards are equivalent.
pub fn canonical_bytes_represent_their_classes<R: Rule>()
    ensures { (board other : Board) (first next : Passage)
        → IsWellFormed R.game board → IsWellFormed R.game other
        → Chosen R.game R.renamings board first → Chosen R.game R.renamings other next
        → (board_bytes (carried first board) ≡ board_bytes (carried next other))
        ↔ Equivalent R.game board other }
{}

/// Equivalent boards have one hash: that of the bytes of their canonical boards.
pub fn equivalent_boards_have_one_hash<R: Rule>()
    ensures { (board other : Board) (first next : Passage)
        → IsWellFormed R.game board → IsWellFormed R.game other
        → Chosen R.game R.renamings board first → Chosen R.game R.renamings other next
        → Equivalent R.game board other
        → board_hash (board_bytes (carried first board))
        ≡ board_hash (board_bytes (carried next other)) }
{}

/// The hashes of the boards of `bytes_of_boards`, as another program computes SipHash-1-3.
#[rattlefmt::skip]
pub fn hashes_of_boards()
    ensures clubs_king_left { board_hash (board_bytes clubs_king_left)
        ≡ 96 ∷ 205 ∷ 30 ∷ 40 ∷ 217 ∷ 250 ∷ 55 ∷ 116
        ∷ 149 ∷ 0 ∷ 244 ∷ 227 ∷ 21 ∷ 194 ∷ 251 ∷ 21 ∷ [] }
    ensures two_spades_left { board_hash (board_bytes two_spades_left)
        ≡ 142 ∷ 249 ∷ 53 ∷ 104 ∷ 207 ∷ 54 ∷ 123 ∷ 94
        ∷ 102 ∷ 179 ∷ 46 ∷ 182 ∷ 201 ∷ 250 ∷ 29 ∷ 41 ∷ [] }
{}

/// Where all cards but KC are home, KC is the one card of the third column: 49, one more than its
/// number. Where QS and KS are left, in the first and the last of eight cells, these are 48 and 52.
pub fn bytes_of_boards()
    ensures clubs_king_left { board_bytes clubs_king_left ≡ record {
      heights = 12 ∷ 13 ∷ 13 ∷ 13 ∷ [];
      cells = replicate 8 0;
      lengths = 0 ∷ 0 ∷ 1 ∷ 0 ∷ 0 ∷ 0 ∷ 0 ∷ 0 ∷ [];
      cards = 49 ∷ replicate 51 0;
    } }
    ensures two_spades_left { board_bytes two_spades_left ≡ record {
      heights = 13 ∷ 13 ∷ 13 ∷ 11 ∷ [];
      cells = 48 ∷ 0 ∷ 0 ∷ 0 ∷ 0 ∷ 0 ∷ 0 ∷ 52 ∷ [];
      lengths = replicate 8 0;
      cards = replicate 52 0;
    } }
{}

/// C become D, D become S, H become C and S become H, the last column comes first, and the first of
/// four cells last: the places of cells past the game's are 0.
pub fn bytes_of_a_passage()
    ensures { passage_bytes (record {
      renaming = word D S C H;
      columns = 7 ∷ 0 ∷ 1 ∷ 2 ∷ 3 ∷ 4 ∷ 5 ∷ 6 ∷ [];
      cells = 1 ∷ 2 ∷ 3 ∷ 0 ∷ [];
    }) ≡ record {
      suits = 1 ∷ 3 ∷ 0 ∷ 2 ∷ [];
      columns = 7 ∷ 0 ∷ 1 ∷ 2 ∷ 3 ∷ 4 ∷ 5 ∷ 6 ∷ [];
      cells = 1 ∷ 2 ∷ 3 ∷ 0 ∷ 0 ∷ 0 ∷ 0 ∷ 0 ∷ [];
    } }
{}

/// The moves 3a, kh, 31 and 31vd are these characters; a move of one card and one that says no
/// number have the number 0.
pub fn bytes_of_moves()
    ensures to_a_cell { move_bytes move_3a ≡ record { from = 51; to = 97 } }
    ensures home { move_bytes move_kh ≡ record { from = 107; to = 104 } }
    ensures one_card { run_bytes (One move_3a) ≡ record { from = 51; to = 97; count = 0 } }
    ensures no_number { run_bytes (run 2 0) ≡ record { from = 51; to = 49; count = 0 } }
    ensures thirteen { run_bytes (run_of_count 13 2 0) ≡ record { from = 51; to = 49; count = 13 } }
{}

/// The moves that are listed of a board are those that the rules allow, each once, in the order of
/// piles: of one card by where it is from and then by where it goes, of several by their columns
/// and then by how many they are, which each of them says.
pub fn each_legal_move_is_listed_once<R: Rule>()
    ensures one_card { (board : Board) (move : Move) → Contains (legal_moves R.game board) move
        ↔ ((after : Board) × Step R.game board move after) }
    ensures in_order { (board : Board)
        → IsStrictlyIncreasing (map (move_order R.game) (legal_moves R.game board)) }
    ensures runs { (board : Board) (run : RunMove) → Contains (legal_runs R.game board) run
        ↔ ((from to count : ℕ) × (run ≡ Run from to (Some count)) × (2 ≤ count)
        × ((after : Board) × RunStep R.game board run after)) }
    ensures runs_in_order { (board : Board)
        → IsStrictlyIncreasing (map run_order (legal_runs R.game board)) }
{}
