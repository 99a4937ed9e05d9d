//! The records of `unique`: of each group the first member, as it comes.
ghost use Rattle.indexmap.specs.IndexSet.{insert_key};
ghost use Rattle.std.specs.{List.{list_any}, Prelude.{◌≡◌, [], false, IfOk, not, OnOk}};
ghost use Rattle.fc_collect.specs.{Groups.{unique_lines}, inside.{AreKeys, same_key}};

use crate::{
    Accepted, AnyGame, Command, Counted, GroupKey, KeyHasher, RunFault, Seed, Summary,
    key_and_passage,
};
use fc_record::{PrintsRecord, RefusalLine, ShowLines};
use indexmap::IndexSet;
use std::alloc::{AllocError, Global};
use std::io::Write;

/// Prints each record that begins a group, and keeps what distinguishes the groups.
#[derive(Drop)]
pub(crate) struct UniqueLines;

impl Command for UniqueLines {
    type Refusal = RefusalLine;

    type Kept = IndexSet<GroupKey, KeyHasher>;

    ghost lines = { unique_lines };

    ghost ending = { λ _ _. [] };

    ghost fails = { λ _. false };

    ghost keeps = { λ keys members. AreKeys keys.keys members };

    fn start(alloc: Global, seed: Seed) -> IndexSet<GroupKey, KeyHasher> {
        IndexSet::with_hasher(alloc, KeyHasher::new(seed))
    }

    fn accept<R: AnyGame>(
        alloc: Global,
        keys: &mut IndexSet<GroupKey, KeyHasher>,
        accepted: Accepted<'_, R>,
        out: &mut Vec<u8>,
    ) -> Result<(), AllocError> {
        let (key, _) = key_and_passage(&accepted.contents.board);
        let is_new = keep_key(keys, key)?;
        if !is_new {
            return Ok(());
        }
        let Accepted {
            number,
            heading,
            contents,
        } = accepted;
        ShowLines::print::<R>(alloc, number, heading, contents, out)
    }

    fn end<Wr: Write>(
        _alloc: Global,
        _keys: &IndexSet<GroupKey, KeyHasher>,
        _summary: Summary,
        _pending: &mut Vec<u8>,
        _output: &mut Counted<Wr>,
    ) -> Result<bool, RunFault> {
        Ok(false)
    }
}

/// Keeps the key, and returns whether it was new.
pub(crate) fn keep_key(
    keys: &mut IndexSet<GroupKey, KeyHasher>,
    key: GroupKey,
) -> Result<bool, AllocError>
    ensures added { IfOk result (λ is_new. is_new
        ≡ not (list_any (same_key key) keys.old.keys)) }
    ensures keys { OnOk result (keys.new.keys ≡ insert_key same_key keys.old.keys key) }
{
    match keys.insert(key) {
        Ok(is_new) => Ok(is_new),
        Err(_) => Err(AllocError),
    }
}
