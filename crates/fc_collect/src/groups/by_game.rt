//! Values by game, where the game is known only as the program runs.
ghost use Rattle.std.specs.Prelude.{◌++◌, ◌≡◌, ◌≢◌, IfSome, None, OnOk};
ghost use Rattle.{fc_board.specs.Passages.{inverse_passage}, fc_text.specs.Printed.{text_of}};
ghost use Rattle.fc_canon.specs.{HasCanonText};
ghost use Rattle.fc_collect.specs.inside.{Held.{held, variant_of}, passage_held, text_held};

use fc_board::{BakersGame, Board, EightOff, FreeCell, Rule, Variant};
use fc_canon::{CanonText, Passage, canon_text};
use fc_card::Group;
use fc_text::BoardView;
use std::alloc::AllocError;

/// A value for one of the three games, of a type that goes by the game.
#[derive(Drop)]
pub enum ByGame<F, B, E> {
    FreeCell(F),
    BakersGame(B),
    EightOff(E),
}

/// A board of one of the three games.
pub type AnyBoard = ByGame<Board<FreeCell>, Board<BakersGame>, Board<EightOff>>;

/// A passage of one of the three games.
pub type AnyPassage = ByGame<Passage<FreeCell>, Passage<BakersGame>, Passage<EightOff>>;

/// A canonical text of one of the three games, with the passage to it.
pub type AnyCanon = ByGame<CanonText<FreeCell>, CanonText<BakersGame>, CanonText<EightOff>>;

impl<F, B, E> ByGame<F, B, E> {
    /// The variant that names the game.
    pub fn variant(&self) -> Variant
        ensures { result ≡ variant_of self.now }
    {
        match self {
            ByGame::FreeCell(_) => Variant::FreeCell,
            ByGame::BakersGame(_) => Variant::BakersGame,
            ByGame::EightOff(_) => Variant::EightOff,
        }
    }
}

impl AnyBoard {
    /// Prints it after the text.
    pub fn push_text(&self, text: &mut Vec<u8>) -> Result<(), AllocError>
        ensures printed { OnOk result
            (text.new.items ≡ text.old.items ++ text_of (held self.now)) }
    {
        match self {
            AnyBoard::FreeCell(board) => BoardView::of(board).push_to(text),
            AnyBoard::BakersGame(board) => BoardView::of(board).push_to(text),
            AnyBoard::EightOff(board) => BoardView::of(board).push_to(text),
        }
    }
}

/// One of the three games, whose boards are kept beside those of the others.
pub trait AnyGame: Rule + Sized {
    /// The same board, as one of the three games.
    fn any_board(board: &Board<Self>) -> AnyBoard
        ensures variant { variant_of result ≡ Self.VARIANT }
        ensures board { held result ≡ board.now };

    /// The same passage, as that of one of the three games.
    fn any_passage(passage: &Passage<Self>) -> AnyPassage
        ensures variant { variant_of result ≡ Self.VARIANT }
        ensures passage { held result ≡ passage.now };

    /// The inverse passage, as that of one of the three games.
    fn any_inverse(passage: &Passage<Self>) -> AnyPassage
        ensures variant { variant_of result ≡ Self.VARIANT }
        ensures inverse { held result ≡ inverse_passage passage.now };

    /// The canonical text of the board and the passage to it, as those of one of the three games.
    fn any_canon(board: &Board<Self>) -> AnyCanon
        ensures variant { variant_of result ≡ Self.VARIANT }
        ensures canon { HasCanonText Self.game Self.renamings board.now
            (text_held result) (passage_held result) };

    /// The canonical text and the passage, if they are those of this game.
    fn own_canon(canon: &AnyCanon) -> Option<&CanonText<Self>>
        ensures variant { IfSome result (λ own. variant_of canon.now ≡ Self.VARIANT) }
        ensures text { IfSome result (λ own. own.now.text.items ≡ text_held canon.now) }
        ensures passage { IfSome result (λ own. own.now.passage ≡ passage_held canon.now) }
        ensures other { result ≡ None → variant_of canon.now ≢ Self.VARIANT };
}

impl AnyGame for FreeCell {
    fn any_board(board: &Board<FreeCell>) -> AnyBoard {
        AnyBoard::FreeCell(board.copy())
    }

    fn any_passage(passage: &Passage<FreeCell>) -> AnyPassage {
        AnyPassage::FreeCell(passage.copy())
    }

    fn any_inverse(passage: &Passage<FreeCell>) -> AnyPassage {
        AnyPassage::FreeCell(passage.inverse())
    }

    fn any_canon(board: &Board<FreeCell>) -> AnyCanon {
        AnyCanon::FreeCell(canon_text(board))
    }

    fn own_canon(canon: &AnyCanon) -> Option<&CanonText<FreeCell>> {
        match canon {
            AnyCanon::FreeCell(canon) => Some(canon),
            _ => None,
        }
    }
}

impl AnyGame for BakersGame {
    fn any_board(board: &Board<BakersGame>) -> AnyBoard {
        AnyBoard::BakersGame(board.copy())
    }

    fn any_passage(passage: &Passage<BakersGame>) -> AnyPassage {
        AnyPassage::BakersGame(passage.copy())
    }

    fn any_inverse(passage: &Passage<BakersGame>) -> AnyPassage {
        AnyPassage::BakersGame(passage.inverse())
    }

    fn any_canon(board: &Board<BakersGame>) -> AnyCanon {
        AnyCanon::BakersGame(canon_text(board))
    }

    fn own_canon(canon: &AnyCanon) -> Option<&CanonText<BakersGame>> {
        match canon {
            AnyCanon::BakersGame(canon) => Some(canon),
            _ => None,
        }
    }
}

impl AnyGame for EightOff {
    fn any_board(board: &Board<EightOff>) -> AnyBoard {
        AnyBoard::EightOff(board.copy())
    }

    fn any_passage(passage: &Passage<EightOff>) -> AnyPassage {
        AnyPassage::EightOff(passage.copy())
    }

    fn any_inverse(passage: &Passage<EightOff>) -> AnyPassage {
        AnyPassage::EightOff(passage.inverse())
    }

    fn any_canon(board: &Board<EightOff>) -> AnyCanon {
        AnyCanon::EightOff(canon_text(board))
    }

    fn own_canon(canon: &AnyCanon) -> Option<&CanonText<EightOff>> {
        match canon {
            AnyCanon::EightOff(canon) => Some(canon),
            _ => None,
        }
    }
}
