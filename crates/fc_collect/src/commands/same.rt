//! The lines of `same`: the passage from the first board to that of each later record.
ghost use Rattle.std.specs.Prelude.{◌++◌, ◌≡◌, [], false, OnOk};
ghost use Rattle.fc_collect.specs.{Groups.{Member}, inside.{IsCanonOf, KeepsFirst}};
ghost use Rattle.fc_collect.specs.Runs.{passage_found, passage_to, same_lines};

use crate::{Accepted, AnyCanon, AnyGame, Command, Counted, RunFault, Seed, Summary};
use fc_board::{Board, Rule};
use fc_canon::{Passage, passage_from};
use fc_record::{RefusalLine, push_name, push_passage_words};
use std::alloc::{AllocError, Global};
use std::io::Write;

/// Prints the passage from the board of the first record to that of each later one, and keeps the
/// canonical text of the first board and the passage to it.
#[derive(Drop)]
pub(crate) struct SameLines;

impl Command for SameLines {
    type Refusal = RefusalLine;

    type Kept = Option<AnyCanon>;

    ghost lines = { same_lines };

    ghost ending = { λ _ _. [] };

    ghost fails = { λ _. false };

    ghost keeps = { KeepsFirst };

    fn start(_alloc: Global, _seed: Seed) -> Option<AnyCanon> {
        None
    }

    fn accept<R: AnyGame>(
        _alloc: Global,
        kept: &mut Option<AnyCanon>,
        accepted: Accepted<'_, R>,
        out: &mut Vec<u8>,
    ) -> Result<(), AllocError> {
        match kept {
            Some(first) => {
                push_name(accepted.number, accepted.heading.name, out)?;
                push_found(&passage_to::<R>(first, &accepted.contents.board), out)
            }
            None => {
                *kept = Some(R::any_canon(&accepted.contents.board));
                Ok(())
            }
        }
    }

    fn end<Wr: Write>(
        _alloc: Global,
        _kept: &Option<AnyCanon>,
        _summary: Summary,
        _pending: &mut Vec<u8>,
        _output: &mut Counted<Wr>,
    ) -> Result<bool, RunFault> {
        Ok(false)
    }
}

// The passage from the first board to this one, or `None` where they are of two games or not
// equivalent.
fn passage_to<R: AnyGame>(first: &AnyCanon, board: &Board<R>) -> Option<Passage<R>>
    ensures { (said member : Member) → IsCanonOf first.now said → member.heading.variant ≡ R.VARIANT
        → member.contents.board ≡ board.now → result ≡ passage_to said member }
{
    passage_from(R::own_canon(first)?, board)
}

// Prints a passage in the words of `canon`, or that there is none.
fn push_found<R: Rule>(passage: &Option<Passage<R>>, out: &mut Vec<u8>) -> Result<(), AllocError>
    ensures printed { OnOk result (out.new.items ≡ out.old.items ++ passage_found passage.now) }
{
    match passage {
        Some(passage) => push_passage_words(passage, out),
        None => out.extend_from_slice(b" apart\n"),
    }
}
