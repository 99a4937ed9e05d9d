//! Baker's Game.

use crate::rule::renamings::{ALL, renaming_at};
use crate::{Rule, Variant};
use fc_card::{Card, Renaming};

/// Four cells, down by one rank in the same suit; every card may fill an empty column.
#[derive(Clone, Copy, Debug)]
pub struct BakersGame;

impl Rule for BakersGame {
    ghost use Rattle.std.specs.Prelude.{false, true};
    ghost use Rattle.fc_board.specs.Games.{all_renamings, bakers_game};
    ghost use Rattle.fc_board.specs.laws.{RenamingTests.{bakers_game_laws}, VariantNames.{names}};
    ghost use Rattle.fc_board.specs.declared.rule.Variant.TheVariants as variant;

    ghost game = { bakers_game };

    ghost renamings = { all_renamings };

    ghost VARIANT = { variant.BakersGame };

    ghost CELLS = { 4 };

    ghost RENAMINGS = { 24 };

    ghost KINGS_ONLY = { false };

    ghost named = { names variant.BakersGame };

    ghost rule_laws = { bakers_game_laws };

    const VARIANT: Variant = Variant::BakersGame;

    const CELLS: usize = 4;

    const RENAMINGS: usize = 24;

    const KINGS_ONLY: bool = false;

    fn builds(upper: Card, lower: Card) -> bool {
        upper.rank().number() + 1 == lower.rank().number() && upper.suit() == lower.suit()
    }

    fn fills_empty(_card: Card) -> bool {
        true
    }

    fn renaming(i: usize) -> Renaming {
        renaming_at(&ALL, i)
    }
}
