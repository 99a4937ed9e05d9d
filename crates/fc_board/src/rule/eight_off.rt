//! Eight Off.

use crate::rule::renamings::{ALL, renaming_at};
use crate::{Rule, Variant};
use fc_card::{Card, Rank, Renaming};

/// Eight cells, down by one rank in the same suit; a king alone may fill an empty column.
#[derive(Clone, Copy, Debug)]
pub struct EightOff;

impl Rule for EightOff {
    ghost use Rattle.std.specs.Prelude.{true};
    ghost use Rattle.fc_board.specs.Games.{all_renamings, eight_off};
    ghost use Rattle.fc_board.specs.laws.{RenamingTests.{eight_off_laws}, VariantNames.{names}};
    ghost use Rattle.fc_board.specs.declared.rule.Variant.TheVariants as variant;

    ghost game = { eight_off };

    ghost renamings = { all_renamings };

    ghost VARIANT = { variant.EightOff };

    ghost CELLS = { 8 };

    ghost RENAMINGS = { 24 };

    ghost KINGS_ONLY = { true };

    ghost named = { names variant.EightOff };

    ghost rule_laws = { eight_off_laws };

    const VARIANT: Variant = Variant::EightOff;

    const CELLS: usize = 8;

    const RENAMINGS: usize = 24;

    const KINGS_ONLY: bool = true;

    fn builds(upper: Card, lower: Card) -> bool {
        upper.rank().number() + 1 == lower.rank().number() && upper.suit() == lower.suit()
    }

    fn fills_empty(card: Card) -> bool {
        card.rank() == Rank::King
    }

    fn renaming(i: usize) -> Renaming {
        renaming_at(&ALL, i)
    }
}
