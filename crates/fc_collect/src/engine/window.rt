//! The bytes of an input that are read and not yet taken up.
ghost use Rattle.std.specs.Prelude.{◌&&◌, ◌+◌, ◌==◌, ◌≡◌, ◌≤◌, [], drop, IfOk, is_err, is_ok};
ghost use Rattle.std.specs.Prelude.{length, List, nat_lt, take, ℕ};
ghost use Rattle.fc_collect.specs.{inside.{FillFits, window_room}, Limits.{most_record_bytes}};
ghost use Rattle.fc_collect.specs.Streams.{counts_of, inner_of, moved_by, one_more_if};

use crate::{Counted, MOST_RECORD_BYTES};
use std::alloc::{AllocError, Global};
use std::io::{self, Read};
use std::marker::Model;

/// The most bytes that a read is asked for.
const MOST_ASKED: usize = MOST_RECORD_BYTES;

/// How many bytes a window has room for: those of a record that is begun, and what a read gives.
const ROOM: usize = MOST_RECORD_BYTES + MOST_ASKED;

/// Bytes that were read and not yet dropped, in a buffer that is taken once and stays as large.
#[derive(Drop)]
pub(crate) struct Window {
    bytes: Vec<u8>,
    count: usize,
}

impl Model for Window {
    ghost Value = { List ℕ };

    ghost view = { λ window. take window.count window.bytes.items };

    ghost invariant = { λ window. (length window.bytes.items ≡ window_room)
        × (window.count ≤ window_room) };
}

impl Window {
    /// A window that holds nothing.
    pub(crate) fn new(alloc: Global) -> Result<Self, AllocError>
        ensures { IfOk result (λ window. window ≡ []) }
    {
        let bytes = vec![in alloc; 0u8; ROOM]?;
        Ok(Window { bytes, count: 0 })
    }

    /// The bytes that it holds.
    pub(crate) fn as_slice(&self) -> &[u8]
        ensures { result.now ≡ self.now }
    {
        &self.bytes[..self.count]
    }

    /// Reads once, after what it holds, and returns how many bytes that gave.
    pub(crate) fn fill<Rd: Read>(&mut self, input: &mut Counted<Rd>) -> io::Result<usize>
        requires { length self.old ≤ most_record_bytes }
        ensures bytes { FillFits self.old self.new
            (Rd.remaining (inner_of input.old)) (Rd.remaining (inner_of input.new)) result }
        ensures failures { (counts_of input.new).failures
            ≡ one_more_if (is_err result) (counts_of input.old).failures }
        ensures fills { (counts_of input.new).fills
            ≡ one_more_if (nat_lt 0 (moved_by result)) (counts_of input.old).fills }
        ensures ends { (counts_of input.new).ends
            ≡ one_more_if (is_ok result && moved_by result == 0) (counts_of input.old).ends }
        ensures flushes { (counts_of input.new).flushes ≡ (counts_of input.old).flushes }
    {
        let room = &mut self.bytes[self.count..self.count + MOST_ASKED];
        let given = input.read(room)?;
        self.count += given;
        Ok(given)
    }

    /// Drops that many bytes from the front.
    pub(crate) fn drop_front(&mut self, front: usize)
        requires { front ≤ length self.old }
        ensures { self.new ≡ drop front self.old }
    {
        if front == 0 {
            return;
        }
        self.bytes.copy_within(front..self.count, 0);
        self.count -= front;
    }
}
