//! The rules that a game of this kind has.
ghost use Rattle.std.specs.Prelude.{◌<◌, ◌≡◌, Bool, List, slice_get, Some, ℕ};
ghost use Rattle.fc_board.specs.{declared.rule.Variant.{Variant}, Games.{Game, Names, RuleLaws}};

use fc_card::{Card, Renaming};

/// A game: how many cells it has, which card goes on which, which card may fill an empty column,
/// and which renamings of the suits keep that.
///
/// The listed renamings are exactly those that keep `builds` both ways, each once, in the ascending
/// order of their words.
pub trait Rule {
    ghost game: { Game };

    ghost renamings: { List (List ℕ) };

    ghost VARIANT: { Variant };

    ghost CELLS: { ℕ };

    ghost RENAMINGS: { ℕ };

    ghost KINGS_ONLY: { Bool };

    /// The value that names the game.
    const VARIANT: Variant;

    /// How many cells there are, eight at most.
    const CELLS: usize;

    /// How many renamings are listed.
    const RENAMINGS: usize;

    /// Whether an empty column takes kings alone.
    const KINGS_ONLY: bool;

    /// Whether the upper card may go on the lower one.
    fn builds(upper: Card, lower: Card) -> bool
        ensures { result ≡ game.builds upper lower };

    /// Whether the card may go to an empty column.
    fn fills_empty(card: Card) -> bool
        ensures { result ≡ game.fills card };

    /// The listed renaming at this place.
    fn renaming(i: usize) -> Renaming
        requires { i < RENAMINGS }
        ensures { slice_get renamings i ≡ Some result };

    ghost named: { Names VARIANT game renamings };

    ghost rule_laws: { RuleLaws game renamings CELLS RENAMINGS KINGS_ONLY };
}

/// A game, as a value.
#[derive(Clone, Copy, Debug, PartialEq, Eq, Hash)]
pub enum Variant {
    FreeCell,
    BakersGame,
    EightOff,
}

/// The words for the games in headers and options, in the order of their numbers.
pub static VARIANT_WORDS: [&str; 3] = ["freecell", "bakers_game", "eight_off"];

impl Variant {
    ghost use Rattle.std.specs.{List.{find}, Prelude.{◌<◌, ◌≡◌, ◌≤◌, IfSome, None}, Str.{bytes_eq}};
    ghost use Rattle.fc_board.specs.Games.{variant_at, variant_word, variants};

    /// The game of this number: 0 is FreeCell, 1 Baker's Game and 2 Eight Off.
    pub fn numbered(number: u32) -> Option<Variant>
        ensures some { IfSome result (λ variant. (number < 3) × (variant ≡ variant_at number)) }
        ensures none { result ≡ None → 3 ≤ number }
    {
        match number {
            0 => Some(Variant::FreeCell),
            1 => Some(Variant::BakersGame),
            2 => Some(Variant::EightOff),
            _ => None,
        }
    }

    /// The game of this word, letter by letter.
    pub fn named(word: &str) -> Option<Variant>
        ensures { result ≡ find (λ variant. bytes_eq word.now (variant_word variant)) variants }
    {
        if word == Variant::FreeCell.word() {
            Some(Variant::FreeCell)
        } else if word == Variant::BakersGame.word() {
            Some(Variant::BakersGame)
        } else if word == Variant::EightOff.word() {
            Some(Variant::EightOff)
        } else {
            None
        }
    }

    /// The word for the game in headers and options.
    pub fn word(self) -> &'static str
        ensures { result.now ≡ variant_word self }
    {
        VARIANT_WORDS[self as usize]
    }
}

mod bakers_game;
mod eight_off;
mod freecell;
mod renamings;

pub use bakers_game::BakersGame;
pub use eight_off::EightOff;
pub use freecell::FreeCell;
pub use renamings::relabelling;
