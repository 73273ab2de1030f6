//! Bytes in memory as a source or a sink.
ghost use Rattle.std.specs.Prelude.{◌≡◌, ◌↔◌, ◌<◌, ◌≤◌, [], ◌++◌, length, take, Some, IsErr, IfOk, OnErr, vec_len};
ghost use Rattle.std.specs.Prelude.{vec_capacity};
ghost use Rattle.cmwq_io.specs.Moves.{TakesPart};

use crate::outcomes::Outcomes;
use crate::sink::Sink;
use crate::source::Source;
use crate::trouble::{Trouble, count_after};
use std::alloc::{AllocError, Global};

/// Bytes in memory: a slice to read, which never fails, or a vector to write, whose room is made beforehand.
/// When that is full, a write answers `Failed`.
#[derive(Drop)]
pub struct Memory<T> {
    bytes: T,
    troubles: u64,
    outcomes: Outcomes,
}

impl<T> Memory<T> {
    ghost use Rattle.cmwq_io.specs.Memory.{bytes_of, memory_troubles, memory_outcomes};

    /// Over these bytes. No call yet.
    fn over(bytes: T) -> Memory<T>
        ensures bytes { bytes_of result ≡ bytes }
        ensures troubles { memory_troubles result ≡ 0 }
        ensures outcomes { memory_outcomes result ≡ [] }
    {
        Memory {
            bytes,
            troubles: 0,
            outcomes: Outcomes::new(),
        }
    }
}

impl<'a> Memory<&'a [u8]> {
    ghost use Rattle.cmwq_io.specs.Memory.{bytes_of, memory_troubles, memory_outcomes};

    /// Reads these bytes.
    pub fn reader(bytes: &'a [u8]) -> Memory<&'a [u8]>
        ensures bytes { (bytes_of result).now ≡ bytes.entry.now }
        ensures troubles { memory_troubles result ≡ 0 }
        ensures outcomes { memory_outcomes result ≡ [] }
    {
        Memory::over(bytes)
    }
}

impl Memory<Vec<u8>> {
    ghost use Rattle.cmwq_io.specs.Memory.{bytes_of, memory_troubles, memory_outcomes};

    /// Takes `room` bytes. Fails where memory runs out.
    pub fn writer(alloc: Global, room: usize) -> Result<Memory<Vec<u8>>, AllocError>
        ensures bytes { IfOk result (λ m. (bytes_of m).items ≡ []) }
        ensures room { IfOk result (λ m. vec_capacity (bytes_of m) ≡ room) }
        ensures troubles { IfOk result (λ m. memory_troubles m ≡ 0) }
        ensures outcomes { IfOk result (λ m. memory_outcomes m ≡ []) }
    {
        let bytes = Vec::with_capacity(alloc, room)?;
        Ok(Memory::over(bytes))
    }

    /// What was written.
    pub fn as_slice(&self) -> &[u8]
        ensures { result.now ≡ (bytes_of self.now).items }
    {
        self.bytes.as_slice()
    }
}

impl<'a> Source for Memory<&'a [u8]> {
    ghost left = { λ m. Some m.bytes.now };

    ghost troubles = { λ m. m.troubles };

    ghost outcomes = { λ m. m.outcomes };

    fn read(&mut self, buf: &mut [u8]) -> Result<usize, Trouble> {
        let all = self.bytes;
        let count = all.len().min(buf.len());
        buf[..count].copy_from_slice(&all[..count]);
        self.bytes = &all[count..];
        let answer = Ok(count);
        self.outcomes.add(&answer);
        answer
    }
}

impl Sink for Memory<Vec<u8>> {
    ghost written = { λ m. Some m.bytes.items };

    ghost held = { λ _. 0 };

    ghost troubles = { λ m. m.troubles };

    ghost outcomes = { λ m. m.outcomes };

    fn write(&mut self, buf: &[u8]) -> Result<usize, Trouble> {
        let answer = fill(&mut self.bytes, buf);
        self.troubles = count_after(self.troubles, &answer);
        self.outcomes.add(&answer);
        answer
    }

    fn flush(&mut self) -> Result<(), Trouble> {
        let answer = Ok(());
        self.outcomes.add(&answer);
        answer
    }
}

/// Puts as much of `bytes` after those of `buffer` as it has room for, or answers `Failed` if it has none.
pub(crate) fn fill(buffer: &mut Vec<u8>, bytes: &[u8]) -> Result<usize, Trouble>
    requires { 0 < length bytes.now }
    ensures bound { TakesPart result bytes.now }
    ensures ok { IfOk result (λ n. buffer.new.items ≡ buffer.old.items ++ take n bytes.now) }
    ensures err { OnErr result (buffer.new.items ≡ buffer.old.items) }
    ensures full { IsErr result ↔ (vec_capacity buffer.old ≤ vec_len buffer.old) }
    ensures room { vec_capacity buffer.old ≤ vec_capacity buffer.new }
{
    let count = bytes.len().min(buffer.capacity() - buffer.len());
    if count == 0 {
        return Err(Trouble::Failed);
    }
    let Ok(()) = buffer.extend_from_slice(&bytes[..count]) else {
        unreachable!()
    };
    Ok(count)
}
