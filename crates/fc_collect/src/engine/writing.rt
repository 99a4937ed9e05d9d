//! Writing of whole texts, without a second try.
ghost use Rattle.std.specs.Prelude.{◌≡◌, [], OnOk};
ghost use Rattle.fc_collect.specs.inside.{output_counts, SendingFits};
ghost use Rattle.fc_collect.specs.Promises.{WritesAsCounted, WritesText};
ghost use Rattle.fc_collect.specs.Streams.{GrowsBy, HasRoom, inner_of};

use crate::{Counted, RunFault};
use std::io::Write;

/// Once so many bytes are pending, they are written.
pub(crate) const FULL: usize = 65_536;

/// Writes the whole text, and flushes the output. A call that fails is not tried again.
pub fn write_text<Wr: Write>(output: &mut Counted<Wr>, text: &[u8]) -> Result<(), RunFault>
    requires { HasRoom output.old }
    ensures counted { WritesAsCounted output.old output.new result }
    ensures bytes { WritesText text.now
        (Wr.contents (inner_of output.old)) (Wr.contents (inner_of output.new)) result }
{
    write_bytes(output, text)?;
    match output.flush() {
        Ok(()) => Ok(()),
        Err(_) => Err(RunFault::Write),
    }
}

/// Writes the whole text. A call that fails is not tried again.
pub fn write_bytes<Wr: Write>(output: &mut Counted<Wr>, text: &[u8]) -> Result<(), RunFault>
    requires { HasRoom output.old }
    ensures counted { GrowsBy output.old output.new (output_counts result) }
    ensures bytes { WritesText text.now
        (Wr.contents (inner_of output.old)) (Wr.contents (inner_of output.new)) result }
{
    let mut at = 0;
    while at < text.len() {
        let Ok(taken) = output.write(&text[at..]) else {
            return Err(RunFault::Write);
        };
        if taken == 0 {
            return Err(RunFault::Write);
        }
        at += taken;
    }
    Ok(())
}

/// Writes what is pending, once that is much.
pub fn write_full<Wr: Write>(out: &mut Vec<u8>, output: &mut Counted<Wr>) -> Result<(), RunFault>
    requires { HasRoom output.old }
    ensures counted { GrowsBy output.old output.new (output_counts result) }
    ensures bytes { SendingFits [] out.old.items out.new.items
        (Wr.contents (inner_of output.old)) (Wr.contents (inner_of output.new)) result }
{
    if out.len() < FULL {
        return Ok(());
    }
    write_out(out, output)
}

/// Writes what is pending.
pub(crate) fn write_out<Wr: Write>(
    out: &mut Vec<u8>,
    output: &mut Counted<Wr>,
) -> Result<(), RunFault>
    requires { HasRoom output.old }
    ensures counted { GrowsBy output.old output.new (output_counts result) }
    ensures none { OnOk result (out.new.items ≡ []) }
    ensures bytes { SendingFits [] out.old.items out.new.items
        (Wr.contents (inner_of output.old)) (Wr.contents (inner_of output.new)) result }
{
    write_bytes(output, out.as_slice())?;
    out.clear();
    Ok(())
}
