//! A sink that gathers small writes.
ghost use Rattle.std.specs.Prelude.{◌≡◌, ◌+◌, ◌-◌, ◌<◌, ◌≤◌, [], length, drop, IfOk, OnOk, vec_len, vec_capacity};
ghost use Rattle.std.specs.Io.KnownBytes.{Keeps, WriteAppends, append_known};
ghost use Rattle.cmwq_io.specs.Counts.{CountsTrouble};
ghost use Rattle.cmwq_io.specs.Moves.{TakesPart};

use crate::memory::fill;
use crate::outcomes::Outcomes;
use crate::sink::Sink;
use crate::trouble::Trouble;
use std::alloc::{AllocError, Global};

/// How many bytes are gathered at most.
const BUFFER: usize = 65_536;

/// Gathers what is written and hands it on in large pieces: when there is no more room, and at a flush.
/// What is gathered counts as written. It is lost if the sink is dropped before a flush.
#[derive(Drop)]
pub struct BufferedSink<W> {
    inner: W,
    buffer: Vec<u8>,
    outcomes: Outcomes,
    ghost room: { 0 < vec_capacity buffer },
}

impl<W> BufferedSink<W> {
    ghost use Rattle.cmwq_io.specs.Buffered.{buffered_inner, buffered_bytes};

    /// Writes to `inner`. Takes 65,536 bytes, and fails where memory runs out.
    pub fn new(alloc: Global, inner: W) -> Result<BufferedSink<W>, AllocError>
    where
        W: Drop,
        ensures inner { IfOk result (λ s. buffered_inner s ≡ inner) }
        ensures empty { IfOk result (λ s. buffered_bytes s ≡ []) }
    {
        let buffer = Vec::with_capacity(alloc, BUFFER)?;
        Ok(BufferedSink {
            inner,
            buffer,
            outcomes: Outcomes::new(),
        })
    }

    /// What it writes to.
    pub fn inner(&self) -> &W
        ensures { result.now ≡ buffered_inner self.now }
    {
        &self.inner
    }
}

impl<W: Sink> BufferedSink<W> {
    ghost use Rattle.cmwq_io.specs.Buffered.{buffered_inner, buffered_bytes, all_written};

    /// Hands on some of what is gathered, in one write.
    fn hand_on(&mut self) -> Result<(), Trouble>
        requires { 0 < vec_len self.old.buffer }
        ensures bytes { Keeps (all_written W.written self.old) (all_written W.written self.new) }
        ensures less { OnOk result (vec_len self.new.buffer < vec_len self.old.buffer) }
        ensures room { vec_capacity self.new.buffer ≡ vec_capacity self.old.buffer }
        ensures count { CountsTrouble (W.troubles self.old.inner) (W.troubles self.new.inner) result }
        ensures outcomes { self.new.outcomes ≡ self.old.outcomes }
    {
        let count = self.inner.write(self.buffer.as_slice())?;
        remove_front(&mut self.buffer, count);
        Ok(())
    }

    /// Sees that at least one more byte can be gathered, by at most one write.
    fn make_room(&mut self) -> Result<(), Trouble>
        ensures bytes { Keeps (all_written W.written self.old) (all_written W.written self.new) }
        ensures room { OnOk result (vec_len self.new.buffer < vec_capacity self.new.buffer) }
        ensures count { CountsTrouble (W.troubles self.old.inner) (W.troubles self.new.inner) result }
        ensures outcomes { self.new.outcomes ≡ self.old.outcomes }
    {
        if self.buffer.len() == self.buffer.capacity() {
            self.hand_on()
        } else {
            Ok(())
        }
    }

    /// Gathers a front of `buf`, at least one byte.
    fn gather(&mut self, buf: &[u8]) -> Result<usize, Trouble>
        requires { 0 < length buf.now }
        ensures bound { TakesPart result buf.now }
        ensures bytes { WriteAppends (all_written W.written self.old) (all_written W.written self.new) result buf.now }
        ensures count { CountsTrouble (W.troubles self.old.inner) (W.troubles self.new.inner) result }
        ensures outcomes { self.new.outcomes ≡ self.old.outcomes }
    {
        self.make_room()?;
        fill(&mut self.buffer, buf)
    }

    /// Hands on all that is gathered, and has the inner sink hand on all.
    fn hand_all_on(&mut self) -> Result<(), Trouble>
        ensures bytes { Keeps (all_written W.written self.old) (all_written W.written self.new) }
        ensures empty { OnOk result (length (buffered_bytes self.new) + W.held self.new.inner ≡ 0) }
        ensures count { CountsTrouble (W.troubles self.old.inner) (W.troubles self.new.inner) result }
        ensures outcomes { self.new.outcomes ≡ self.old.outcomes }
    {
        while !self.buffer.is_empty() {
            self.hand_on()?;
        }
        self.inner.flush()
    }
}

impl<W: Sink> Sink for BufferedSink<W> {
    ghost written = { λ s. append_known (W.written s.inner) s.buffer.items };

    ghost held = { λ s. length s.buffer.items + W.held s.inner };

    ghost troubles = { λ s. W.troubles s.inner };

    ghost outcomes = { λ s. s.outcomes };

    fn write(&mut self, buf: &[u8]) -> Result<usize, Trouble> {
        let answer = self.gather(buf);
        self.outcomes.add(&answer);
        answer
    }

    fn flush(&mut self) -> Result<(), Trouble> {
        let answer = self.hand_all_on();
        self.outcomes.add(&answer);
        answer
    }
}

fn remove_front(buffer: &mut Vec<u8>, count: usize)
    requires { count ≤ vec_len buffer.old }
    ensures items { buffer.new.items ≡ drop count buffer.old.items }
    ensures len { vec_len buffer.new ≡ vec_len buffer.old - count }
    ensures room { vec_capacity buffer.new ≡ vec_capacity buffer.old }
{
    let len = buffer.len();
    buffer.as_mut_slice().copy_within(count..len, 0);
    buffer.truncate(len - count);
}
