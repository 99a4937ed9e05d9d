//! Moves in standard FreeCell notation, of one card and of several.
ghost use Rattle.std.specs.Prelude.{◌++◌, ◌<◌, ◌∷◌, ◌≡◌, ◌≤◌, [], All, Err, IfOk, IfSome, IsOk};
ghost use Rattle.std.specs.Prelude.{IsOkAnd, None, OnOk, ℕ};
ghost use Rattle.fc_card.specs.Types.{Text};
ghost use Rattle.fc_board.proofs.EightOffLemmas.{move_fits, run_fits};
ghost use Rattle.fc_board.specs.{Games.{eight_off, Game}, Moves.{Fits, OneCard, RunFits, Runs}};
ghost use Rattle.fc_text.specs.{Bytes.{blank}, Lines.{words_from}, Notation.{BadTokenAt}};
ghost use Rattle.fc_text.specs.Notation.{IsRunToken, IsToken, Listed, print, run_token};
ghost use Rattle.fc_text.specs.Notation.{separates_tokens, source_character, target_character};
ghost use Rattle.fc_text.specs.Notation.{token, TooManyAt};
ghost use Rattle.fc_text.specs.reader.{IsInOnePiece, move_named, run_named};
ghost use Rattle.fc_text.specs.declared.fault.MovesFault.TheVariants.{BadToken, TooMany};

use crate::{MovesFault, move_named, run_named};
use fc_board::{Move, Playable, Rule, RunMove};
use std::alloc::{AllocError, Global};

mod read;
mod write;

pub use read::read_list;
pub use write::{source_character, target_character};
use write::{column_digit, push_count, push_list, write_list};

/// The most moves that a list may have.
pub const MOST_MOVES: usize = 4096;

/// What a list is made of, as text: each item is one token. Moves of every game are moves of
/// Eight Off.
pub trait Notated: Playable {
    ghost is_token: { Game → Text → Self → Type 0 };

    ghost token_of: { Self → Text };

    /// The item of `R` that a word is a token of.
    fn from_word<R: Rule>(word: &[u8]) -> Option<Self>
        ensures token { IfSome result (is_token R.game word.now) }
        ensures no_token { result ≡ None → (item : Self) → ¬ is_token R.game word.now item }
        ensures in_one_piece { IfSome result (λ _. IsInOnePiece word.now) };

    /// The token, after the text.
    fn push_token(&self, text: &mut Vec<u8>) -> Result<(), AllocError>
        requires { Self.fits_game eight_off self.now }
        ensures { OnOk result (text.new.items ≡ text.old.items ++ token_of self.now) };

    /// A blank and the token, after the text.
    fn push_next(&self, text: &mut Vec<u8>) -> Result<(), AllocError>
        requires { Self.fits_game eight_off self.now }
        ensures { OnOk result (text.new.items ≡ text.old.items ++ (blank ∷ token_of self.now)) };

    ghost tokens_fit: { (game : Game) (word : Text) (item : Self)
        → is_token game word item → Self.fits_game game item };

    ghost fits_eight_off: { (game : Game) → game.cells ≤ 8
        → (item : Self) → Self.fits_game game item → Self.fits_game eight_off item };
}

impl Notated for Move {
    ghost is_token = { IsToken };

    ghost token_of = { token };

    ghost tokens_fit = { λ game word item is. is.0 };

    ghost fits_eight_off = { move_fits };

    fn from_word<R: Rule>(word: &[u8]) -> Option<Move> {
        move_named::<R>(word)
    }

    fn push_token(&self, text: &mut Vec<u8>) -> Result<(), AllocError> {
        text.extend_from_slice(&[source_character(self.from), target_character(self.to)])
    }

    fn push_next(&self, text: &mut Vec<u8>) -> Result<(), AllocError> {
        text.extend_from_slice(&[b' ', source_character(self.from), target_character(self.to)])
    }
}

impl Notated for RunMove {
    ghost is_token = { IsRunToken };

    ghost token_of = { run_token };

    ghost tokens_fit = { λ game word item is. is.0 };

    ghost fits_eight_off = { run_fits };

    fn from_word<R: Rule>(word: &[u8]) -> Option<RunMove> {
        run_named::<R>(word)
    }

    fn push_token(&self, text: &mut Vec<u8>) -> Result<(), AllocError> {
        match *self {
            RunMove::One(mv) => mv.push_token(text),
            RunMove::Run { from, to, count } => {
                text.push(column_digit(from))?;
                text.push(column_digit(to))?;
                push_count(count, text)
            }
        }
    }

    fn push_next(&self, text: &mut Vec<u8>) -> Result<(), AllocError> {
        text.push(b' ')?;
        self.push_token(text)
    }
}

/// The moves of `R` that a text lists, or the first fault of the text in reading order. That a list
/// has 4,096 moves at most is this project's profile. A bad token among the first 4,096 words is
/// answered whatever memory there is.
pub fn read_moves<R: Rule>(alloc: Global, text: &[u8]) -> Result<Vec<Move>, MovesFault>
    ensures listed { IfOk result (λ moves. Listed (IsToken R.game) text.now moves.items) }
    ensures fits { IfOk result (λ moves. All (Fits R.game) moves.items) }
    ensures fits_eight_off { IfOk result (λ moves. All (Fits eight_off) moves.items) }
    ensures bad_token { (place : ℕ) → result ≡ Err (BadToken place)
        → BadTokenAt (IsToken R.game) text.now place }
    ensures too_many { (place : ℕ) → result ≡ Err (TooMany place)
        → TooManyAt (IsToken R.game) text.now place }
    ensures no_words { words_from separates_tokens 0 text.now ≡ []
        → IsOkAnd result (λ moves. moves.items ≡ []) }
    ensures found { (place : ℕ) → BadTokenAt (IsToken R.game) text.now place
        → result ≡ Err (BadToken place) }
{
    read_list::<R, Move>(alloc, text)
}

/// The moves, each in two characters, in lower case, with one blank between two. The game needs no
/// name: moves of every game are moves of Eight Off.
pub fn write_moves(alloc: Global, moves: &[Move]) -> Result<Vec<u8>, AllocError>
    requires fits { All (Fits eight_off) moves.now }
    ensures printed { IfOk result (λ text. text.items ≡ print (OneCard moves.now)) }
    ensures no_moves { moves.now ≡ [] → IsOkAnd result (λ text. text.items ≡ []) }
{
    write_list(alloc, moves)
}

/// The moves after the text, as `write_moves` prints them.
pub fn push_moves(text: &mut Vec<u8>, moves: &[Move]) -> Result<(), AllocError>
    requires fits { All (Fits eight_off) moves.now }
    ensures printed { OnOk result (text.new.items
        ≡ text.old.items ++ print (OneCard moves.now)) }
    ensures no_moves { moves.now ≡ [] → IsOk result }
{
    push_list(text, moves)
}

/// The moves of several cards of `R` that a text lists, or the first fault of the text in reading
/// order: a move from column to column carries as many cards as its suffix says, `v` and a
/// hexadecimal digit, or, without one, as the board allows. A bad token among the first 4,096 words
/// is answered whatever memory there is.
pub fn read_runs<R: Rule>(alloc: Global, text: &[u8]) -> Result<Vec<RunMove>, MovesFault>
    ensures listed { IfOk result (λ moves. Listed (IsRunToken R.game) text.now moves.items) }
    ensures fits { IfOk result (λ moves. All (RunFits R.game) moves.items) }
    ensures fits_eight_off { IfOk result (λ moves. All (RunFits eight_off) moves.items) }
    ensures bad_token { (place : ℕ) → result ≡ Err (BadToken place)
        → BadTokenAt (IsRunToken R.game) text.now place }
    ensures too_many { (place : ℕ) → result ≡ Err (TooMany place)
        → TooManyAt (IsRunToken R.game) text.now place }
    ensures no_words { words_from separates_tokens 0 text.now ≡ []
        → IsOkAnd result (λ moves. moves.items ≡ []) }
    ensures found { (place : ℕ) → BadTokenAt (IsRunToken R.game) text.now place
        → result ≡ Err (BadToken place) }
{
    read_list::<R, RunMove>(alloc, text)
}

/// The moves of several cards in lower case, each with its number of cards where it has one, with
/// one blank between two.
pub fn write_runs(alloc: Global, moves: &[RunMove]) -> Result<Vec<u8>, AllocError>
    requires fits { All (RunFits eight_off) moves.now }
    ensures printed { IfOk result (λ text. text.items ≡ print (Runs moves.now)) }
    ensures no_moves { moves.now ≡ [] → IsOkAnd result (λ text. text.items ≡ []) }
{
    write_list(alloc, moves)
}

/// The moves of several cards after the text, as `write_runs` prints them.
pub fn push_runs(text: &mut Vec<u8>, moves: &[RunMove]) -> Result<(), AllocError>
    requires fits { All (RunFits eight_off) moves.now }
    ensures printed { OnOk result (text.new.items
        ≡ text.old.items ++ print (Runs moves.now)) }
    ensures no_moves { moves.now ≡ [] → IsOk result }
{
    push_list(text, moves)
}
