//! The commands that print lines for each record alone.

ghost use Rattle.std.specs.Prelude.{[], false};

use crate::{Accepted, AnyGame, Command, Counted, RunFault, Seed, Summary};
use fc_record::PrintsRecord;
use std::alloc::{AllocError, Global};
use std::io::Write;
use std::marker::PhantomData;

/// A command that prints lines for each record alone, keeps nothing, and prints nothing at the end.
#[derive(Drop)]
pub(crate) struct EachRecord<P: PrintsRecord> {
    lines: PhantomData<P>,
}

impl<P: PrintsRecord> Command for EachRecord<P> {
    type Refusal = P::Refusal;

    type Kept = ();

    ghost lines = { λ members. P.lines };

    ghost ending = { λ _ _. [] };

    ghost fails = { λ _. false };

    ghost keeps = { λ _ _. Unit {0} };

    fn start(_alloc: Global, _seed: Seed) {}

    fn accept<R: AnyGame>(
        alloc: Global,
        _kept: &mut (),
        accepted: Accepted<'_, R>,
        out: &mut Vec<u8>,
    ) -> Result<(), AllocError> {
        let Accepted {
            number,
            heading,
            contents,
        } = accepted;
        P::print::<R>(alloc, number, heading, contents, out)
    }

    fn end<Wr: Write>(
        _alloc: Global,
        _kept: &(),
        _summary: Summary,
        _pending: &mut Vec<u8>,
        _output: &mut Counted<Wr>,
    ) -> Result<bool, RunFault> {
        Ok(false)
    }
}
