//! A reader or a writer that counts how its calls went.
ghost use Rattle.std.specs.Io.KnownBytes.{Keeps, ReadConsumes, WriteAppends};
ghost use Rattle.std.specs.Io.{ReadsAtMost, WritesAtMost};
ghost use Rattle.std.specs.Prelude.{◌&&◌, ◌||◌, ◌≡◌, false, is_err, is_ok, nat_lt, true};
ghost use Rattle.fc_collect.specs.Streams.{counts_of, inner_of, is_flushed, moved_by, moves_none};
ghost use Rattle.fc_collect.specs.Streams.{one_more_if};

use std::io::{self, Read, Write};

/// A reader or a writer, how often its calls failed, gave bytes, found the end or flushed, and
/// whether it is flushed.
///
/// Each count stays at the greatest `u64` once it is there.
#[derive(Debug, Drop)]
pub struct Counted<T> {
    inner: T,
    failures: u64,
    fills: u64,
    ends: u64,
    flushes: u64,
    is_flushed: bool,
}

impl<T> Counted<T> {
    /// The reader or writer, of which no call is counted yet.
    pub fn new(inner: T) -> Self
        ensures inner { inner_of result ≡ inner }
        ensures failures { (counts_of result).failures ≡ 0 }
        ensures fills { (counts_of result).fills ≡ 0 }
        ensures ends { (counts_of result).ends ≡ 0 }
        ensures flushes { (counts_of result).flushes ≡ 0 }
        ensures flushed { is_flushed result ≡ false }
    {
        Counted {
            inner,
            failures: 0,
            fills: 0,
            ends: 0,
            flushes: 0,
            is_flushed: false,
        }
    }

    /// The reader or writer, as its calls left it.
    pub fn into_inner(self) -> T
        ensures { result ≡ inner_of self }
    {
        self.inner
    }

    /// How many reads, writes and flushes failed, with the writes that took no byte of some.
    pub fn failures(&self) -> u64
        ensures { result ≡ (counts_of self.now).failures }
    {
        self.failures
    }

    /// How many reads gave at least one byte.
    pub fn fills(&self) -> u64
        ensures { result ≡ (counts_of self.now).fills }
    {
        self.fills
    }

    /// How many reads found the end: they had room, and gave no byte.
    pub fn ends(&self) -> u64
        ensures { result ≡ (counts_of self.now).ends }
    {
        self.ends
    }

    /// How many flushes succeeded.
    pub fn flushes(&self) -> u64
        ensures { result ≡ (counts_of self.now).flushes }
    {
        self.flushes
    }

    /// Whether a flush succeeded, and no write was called after the last one that did.
    pub fn is_flushed(&self) -> bool
        ensures { result ≡ is_flushed self.now }
    {
        self.is_flushed
    }
}

impl<T: Read> Read for Counted<T> {
    ghost remaining = { λ counted. T.remaining (inner_of counted) };

    fn read(&mut self, buf: &mut [u8]) -> io::Result<usize>
        ensures bound { ReadsAtMost result buf.new }
        ensures bytes { ReadConsumes (T.remaining (inner_of self.old))
            (T.remaining (inner_of self.new)) result buf.new }
        ensures failures { (counts_of self.new).failures
            ≡ one_more_if (is_err result) (counts_of self.old).failures }
        ensures fills { (counts_of self.new).fills
            ≡ one_more_if (nat_lt 0 (moved_by result)) (counts_of self.old).fills }
        ensures ends { (counts_of self.new).ends ≡ one_more_if
            (is_ok result && moves_none (moved_by result) buf.new) (counts_of self.old).ends }
        ensures flushes { (counts_of self.new).flushes ≡ (counts_of self.old).flushes }
        ensures flushed { is_flushed self.new ≡ is_flushed self.old }
    {
        let outcome = self.inner.read(buf);
        match &outcome {
            Ok(0) if buf.is_empty() => {}
            Ok(0) => self.ends = self.ends.saturating_add(1),
            Ok(_) => self.fills = self.fills.saturating_add(1),
            Err(_) => self.failures = self.failures.saturating_add(1),
        }
        outcome
    }
}

impl<T: Write> Write for Counted<T> {
    ghost contents = { λ counted. T.contents (inner_of counted) };

    fn write(&mut self, buf: &[u8]) -> io::Result<usize>
        ensures bound { WritesAtMost result buf.now }
        ensures bytes { WriteAppends (T.contents (inner_of self.old))
            (T.contents (inner_of self.new)) result buf.now }
        ensures failures { (counts_of self.new).failures ≡ one_more_if
            (is_err result || moves_none (moved_by result) buf.now) (counts_of self.old).failures }
        ensures fills { (counts_of self.new).fills ≡ (counts_of self.old).fills }
        ensures ends { (counts_of self.new).ends ≡ (counts_of self.old).ends }
        ensures flushes { (counts_of self.new).flushes ≡ (counts_of self.old).flushes }
        ensures flushed { is_flushed self.new ≡ false }
    {
        self.is_flushed = false;
        let outcome = self.inner.write(buf);
        match &outcome {
            Ok(_) if buf.is_empty() => {}
            Ok(0) | Err(_) => self.failures = self.failures.saturating_add(1),
            Ok(_) => {}
        }
        outcome
    }

    fn flush(&mut self) -> io::Result<()>
        ensures bytes { Keeps (T.contents (inner_of self.old)) (T.contents (inner_of self.new)) }
        ensures failures { (counts_of self.new).failures
            ≡ one_more_if (is_err result) (counts_of self.old).failures }
        ensures fills { (counts_of self.new).fills ≡ (counts_of self.old).fills }
        ensures ends { (counts_of self.new).ends ≡ (counts_of self.old).ends }
        ensures flushes { (counts_of self.new).flushes
            ≡ one_more_if (is_ok result) (counts_of self.old).flushes }
        ensures flushed { is_flushed self.new ≡ (is_ok result || is_flushed self.old) }
    {
        let outcome = self.inner.flush();
        match &outcome {
            Ok(()) => {
                self.flushes = self.flushes.saturating_add(1);
                self.is_flushed = true;
            }
            Err(_) => self.failures = self.failures.saturating_add(1),
        }
        outcome
    }
}
