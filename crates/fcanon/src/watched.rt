//! Standard input, watched for someone who waits at a terminal.

use fc_collect::{MOST_BYTES, MOST_RECORDS};
use std::io::{self, Read};
use std::time::Instant;

/// A run says nothing of its progress before so many milliseconds have passed.
const QUIET: u64 = 2000;

/// How many milliseconds pass between two lines.
const PAUSE: u64 = 500;

/// A reader of which it is counted what it gives.
#[derive(Drop)]
pub struct Watched<'a, R> {
    inner: R,
    progress: Progress<'a>,
}

impl<'a, R: Read> Watched<'a, R> {
    /// The reader, whose reads the progress follows.
    pub fn new(inner: R, progress: Progress<'a>) -> Self {
        Watched { inner, progress }
    }

    /// How far the reader is read.
    pub fn progress(&self) -> &Progress<'a> {
        &self.progress
    }
}

impl<R: Read> Read for Watched<'_, R> {
    ghost remaining = { λ watched. R.remaining watched.inner };

    fn read(&mut self, buf: &mut [u8]) -> io::Result<usize> {
        let outcome = self.inner.read(buf);
        if let Ok(many) = &outcome {
            self.progress.take(&buf[..*many]);
        }
        outcome
    }
}

/// How many bytes and headers were read, and since when that is shown.
#[derive(Drop)]
pub struct Progress<'a> {
    host: &'a HostRuntime,
    is_counted: bool,
    shown_since: Option<Instant>,
    /// After how many milliseconds the next line is shown.
    next_line: u64,
    bytes: u64,
    headers: u64,
    begins_line: bool,
}

impl<'a> Progress<'a> {
    /// Nothing was read. What will be is counted, or not, and shown on a line of standard error, or
    /// not.
    pub fn new(host: &'a HostRuntime, is_counted: bool, is_shown: bool) -> Self {
        Progress {
            host,
            is_counted,
            shown_since: if is_shown {
                Instant::now(host).ok()
            } else {
                None
            },
            next_line: QUIET,
            bytes: 0,
            headers: 0,
            begins_line: true,
        }
    }

    /// Whether more was read than a run without `--any-size` takes.
    pub fn is_past_one_run(&self) -> bool {
        self.bytes > MOST_BYTES as u64 || self.headers > MOST_RECORDS as u64
    }

    // Takes what a read gave, which is nothing at the end.
    fn take(&mut self, bytes: &[u8]) {
        if self.is_counted {
            self.count(bytes);
            self.show(bytes.is_empty());
        }
    }

    fn count(&mut self, bytes: &[u8]) {
        self.bytes = self.bytes.saturating_add(bytes.len() as u64);
        for byte in bytes {
            if self.begins_line && *byte == b'@' {
                self.headers = self.headers.saturating_add(1);
            }
            self.begins_line = *byte == b'\n';
        }
    }

    // Shows what was counted, once enough time has passed; at the end the line is taken away.
    fn show(&mut self, is_end: bool) {
        let Some(passed) = self.elapsed_ms() else {
            return;
        };
        if is_end && self.next_line != QUIET {
            let _ = eprint!(self.host; "\r\x1b[K");
        } else if !is_end && passed >= self.next_line {
            self.next_line = passed.saturating_add(PAUSE);
            let (records, mebibytes) = (self.headers, self.bytes >> 20);
            let a_second = records.saturating_mul(1000) / passed.max(1);
            let _ = eprint!(self.host;
                "\rfcanon: {records} records, {mebibytes} MiB, {a_second} records a second\x1b[K"
            );
        }
    }

    // How many milliseconds have passed, where it is shown.
    fn elapsed_ms(&self) -> Option<u64> {
        let passed = self.shown_since.as_ref()?.elapsed(self.host).ok()?;
        u64::try_from(passed.as_millis()).ok()
    }
}
