//! FreeCell.

use crate::rule::renamings::{BY_COLOUR, renaming_at};
use crate::{Rule, Variant};
use fc_card::{Card, Renaming};

/// Four cells, down by one rank in the other colour; every card may fill an empty column.
#[derive(Clone, Copy, Debug)]
pub struct FreeCell;

impl Rule for FreeCell {
    ghost use Rattle.std.specs.Prelude.{false, true};
    ghost use Rattle.fc_board.specs.Games.{colour_renamings, freecell};
    ghost use Rattle.fc_board.specs.laws.{RenamingTests.{freecell_laws}, VariantNames.{names}};
    ghost use Rattle.fc_board.specs.declared.rule.Variant.TheVariants as variant;

    ghost game = { freecell };

    ghost renamings = { colour_renamings };

    ghost VARIANT = { variant.FreeCell };

    ghost CELLS = { 4 };

    ghost RENAMINGS = { 8 };

    ghost KINGS_ONLY = { false };

    ghost named = { names variant.FreeCell };

    ghost rule_laws = { freecell_laws };

    const VARIANT: Variant = Variant::FreeCell;

    const CELLS: usize = 4;

    const RENAMINGS: usize = 8;

    const KINGS_ONLY: bool = false;

    fn builds(upper: Card, lower: Card) -> bool {
        upper.rank().number() + 1 == lower.rank().number() && upper.is_red() != lower.is_red()
    }

    fn fills_empty(_card: Card) -> bool {
        true
    }

    fn renaming(i: usize) -> Renaming {
        renaming_at(&BY_COLOUR, i)
    }
}
