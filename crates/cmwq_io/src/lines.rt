//! The lines of a source, one after the other.
ghost use Rattle.std.specs.Prelude.{◌≡◌, ◌+◌, ◌-◌, ◌<◌, ◌≤◌, ℕ, List, [], ◌++◌, length, take, drop, slice_range};
ghost use Rattle.std.specs.Prelude.{position, vec_len, true, false, MatchBool, None, IfSome, IfOk, OnErr};
ghost use Rattle.std.specs.Io.KnownBytes.{Keeps, ReadConsumes, IsAtEnd, prepend_known};
ghost use Rattle.cmwq_io.specs.Counts.{Rises};
ghost use Rattle.cmwq_io.specs.Outcomes.{EndsAtFault};
ghost use Rattle.cmwq_io.specs.Feeds.{is_feed, near_feed};

use crate::patient::read_some;
use crate::source::Source;
use crate::trouble::ReadFault;
use memchr::memchr;
use std::alloc::{AllocError, Global};
use std::marker::Model;

/// The greatest length of a line in bytes, without its line feed.
pub const LINE_LIMIT: usize = 120;

/// How many bytes are read ahead at most.
const BUFFER: usize = 65_536;

/// How the next line was found.
#[derive(Clone, Copy, Debug, PartialEq, Eq)]
pub enum Found {
    /// A line that ends with a line feed.
    Whole,
    /// The last bytes of the input, which no line feed follows.
    Cut,
    /// More bytes than a line may have come before the next line feed or the end of the input.
    Long,
    /// Nothing is left.
    End,
}

/// One line, of at most 120 bytes.
#[derive(Drop)]
pub struct Line {
    bytes: [u8; LINE_LIMIT],
    len: usize,
}

impl Model for Line {
    ghost Value = { List ℕ };

    ghost view = { λ a. take a.len a.bytes };

    ghost invariant = { λ a. a.len ≤ 120 };
}

impl Line {
    /// An empty line.
    pub fn new() -> Line
        ensures { result ≡ [] }
    {
        Line {
            bytes: [0; LINE_LIMIT],
            len: 0,
        }
    }

    /// Its bytes, without a line feed.
    pub fn as_slice(&self) -> &[u8]
        ensures value { result.now ≡ self.now }
        ensures limit { length result.now ≤ 120 }
    {
        &self.bytes[..self.len]
    }

    fn set(&mut self, bytes: &[u8])
        requires { length bytes.now ≤ 120 }
        ensures { self.new ≡ bytes.now }
    {
        self.bytes[..bytes.len()].copy_from_slice(bytes);
        self.len = bytes.len();
    }

    fn clear(&mut self)
        ensures { self.new ≡ [] }
    {
        self.len = 0;
    }
}

/// Reads a source by lines. Contracts see the bytes that it has read from the source and not yet given out.
#[derive(Drop)]
pub struct Lines {
    bytes: Vec<u8>,
    start: usize,
    end: usize,
}

impl Model for Lines {
    ghost use Rattle.std.specs.Prelude.{ℕ, List};

    ghost Value = { List ℕ };

    ghost use Rattle.cmwq_io.specs.ReadAhead.{ahead_in, IsReadAhead};

    ghost view = { ahead_in };

    ghost invariant = { IsReadAhead };
}

impl Lines {
    ghost use Rattle.cmwq_io.specs.FirstLine.{is_line_short, TakesLine, TakesKnownLine};

    /// Has read nothing yet. Takes 65,536 bytes, and fails where memory runs out.
    pub fn new(alloc: Global) -> Result<Lines, AllocError>
        ensures { IfOk result (λ lines. lines ≡ []) }
    {
        let mut bytes = Vec::with_capacity(alloc, BUFFER)?;
        bytes.resize(BUFFER, 0)?;
        Ok(Lines {
            bytes,
            start: 0,
            end: 0,
        })
    }

    /// Takes the next line off what is left: the bytes read ahead and those of the source after them, which
    /// must be one and the same source at each call. `line` gets the line where it is `Whole` or `Cut`, and
    /// is empty otherwise. A `Long` line stays where it is. On `Err` nothing is lost, and the next call goes on
    /// where this one stood.
    pub fn next_line<S: Source>(
        &mut self,
        source: &mut S,
        line: &mut Line,
    ) -> Result<Found, ReadFault>
        ensures ok { IfOk result (λ how. TakesKnownLine (prepend_known self.old (S.left source.old))
            (prepend_known self.new (S.left source.new)) how line.new) }
        ensures err { OnErr result (Keeps (prepend_known self.old (S.left source.old))
            (prepend_known self.new (S.left source.new))) }
        ensures grown { S.troubles source.old ≤ S.troubles source.new }
        ensures fault { OnErr result (Rises (S.troubles source.old) (S.troubles source.new)) }
        ensures calls { EndsAtFault (S.outcomes source.old) (S.outcomes source.new) result }
    {
        if self.take_near(line) {
            Ok(Found::Whole)
        } else {
            self.next_far_line(source, line)
        }
    }

    /// As `next_line`, where the bytes read ahead may leave open how the line ends.
    #[tactic(auto, using(crate::proofs::Calls::none_made, crate::proofs::Calls::made_on))]
    fn next_far_line<S: Source>(
        &mut self,
        source: &mut S,
        line: &mut Line,
    ) -> Result<Found, ReadFault>
        ensures ok { IfOk result (λ how. TakesKnownLine (prepend_known self.old (S.left source.old))
            (prepend_known self.new (S.left source.new)) how line.new) }
        ensures err { OnErr result (Keeps (prepend_known self.old (S.left source.old))
            (prepend_known self.new (S.left source.new))) }
        ensures grown { S.troubles source.old ≤ S.troubles source.new }
        ensures fault { OnErr result (Rises (S.troubles source.old) (S.troubles source.new)) }
        ensures calls { EndsAtFault (S.outcomes source.old) (S.outcomes source.new) result }
    {
        while self.is_short() {
            if !self.read_more(source)? {
                return Ok(self.take_last(line));
            }
        }
        Ok(self.take_first(line))
    }

    /// Takes the first line off the bytes read ahead, if it ends among them and is not too long.
    fn take_near(&mut self, line: &mut Line) -> bool
        ensures { MatchBool result ((more : List ℕ)
            → TakesLine (self.old ++ more) (self.new ++ more) Found.Whole line.new)
            ((self.new ≡ self.old) × (near_feed self.old ≡ None)) }
    {
        let ahead = self.ahead();
        match feed_in(ahead) {
            Some(at) => {
                line.set(&ahead[..at]);
                self.consume(at + 1);
                true
            }
            None => false,
        }
    }

    /// The bytes that it has read from the source and not yet given out, at most 65,536. They may end inside a line.
    #[inline(always)]
    pub fn ahead(&self) -> &[u8]
        ensures value { result.now ≡ self.now }
        ensures size { length result.now ≤ 65536 }
    {
        &self.bytes[self.start..self.end]
    }

    /// Takes so many of the bytes read ahead off what is left, as when their line was read where it stands.
    #[inline(always)]
    pub fn consume(&mut self, count: usize)
        requires { count ≤ length self.old }
        ensures { self.new ≡ drop count self.old }
    {
        self.start += count;
    }

    /// Whether the bytes read ahead leave open how the next line ends: there is no line feed among them, and
    /// they are no more than a line may have.
    fn is_short(&self) -> bool
        ensures { result ≡ is_line_short self.now }
    {
        let ahead = self.ahead();
        ahead.len() <= LINE_LIMIT && feed_in(ahead).is_none()
    }

    /// Reads more after what was read ahead. False at the end of the source.
    fn read_more<S: Source>(&mut self, source: &mut S) -> Result<bool, ReadFault>
        requires { length self.old ≤ 120 }
        ensures bytes { Keeps (prepend_known self.old (S.left source.old))
            (prepend_known self.new (S.left source.new)) }
        ensures ok { IfOk result (λ more. MatchBool more (length self.old < length self.new)
            ((self.new ≡ self.old) × IsAtEnd (S.left source.new))) }
        ensures grown { S.troubles source.old ≤ S.troubles source.new }
        ensures fault { OnErr result (Rises (S.troubles source.old) (S.troubles source.new)) }
        ensures calls { EndsAtFault (S.outcomes source.old) (S.outcomes source.new) result }
    {
        let kept = move_to_front(&mut self.bytes, self.start, self.end);
        self.start = 0;
        self.end = kept;
        let count = read_behind(source, &mut self.bytes, kept)?;
        self.end = kept + count;
        Ok(count > 0)
    }

    /// Takes the first line off the bytes read ahead, whatever stands after them.
    fn take_first(&mut self, line: &mut Line) -> Found
        requires { is_line_short self.old ≡ false }
        ensures { (more : List ℕ) → TakesLine (self.old ++ more) (self.new ++ more) result line.new }
    {
        if self.take_near(line) {
            Found::Whole
        } else {
            line.clear();
            Found::Long
        }
    }

    /// Takes the bytes read ahead as the last line, after which nothing stands.
    fn take_last(&mut self, line: &mut Line) -> Found
        requires { is_line_short self.old ≡ true }
        ensures taken { TakesLine self.old [] result line.new }
        ensures rest { self.new ≡ [] }
    {
        let ahead = self.ahead();
        line.set(ahead);
        let count = ahead.len();
        self.consume(count);
        if count == 0 { Found::End } else { Found::Cut }
    }
}

/// Where the first line feed is, if it is not after more bytes than a line may have.
fn feed_in(bytes: &[u8]) -> Option<usize>
    ensures place { result ≡ near_feed bytes.now }
    ensures within { IfSome result (λ at. at < length bytes.now) }
    ensures limit { IfSome result (λ at. at ≤ 120) }
{
    first_feed(&bytes[..(LINE_LIMIT + 1).min(bytes.len())])
}

fn first_feed(bytes: &[u8]) -> Option<usize>
    ensures { result ≡ position is_feed bytes.now }
{
    memchr(b'\n', bytes)
}

/// Moves `bytes[start..end]` to the front, and answers how many they are.
fn move_to_front(bytes: &mut Vec<u8>, start: usize, end: usize) -> usize
    requires ordered { start ≤ end }
    requires within { end ≤ vec_len bytes.old }
    ensures count { result ≡ end - start }
    ensures moved { take result bytes.new.items ≡ slice_range bytes.old.items start end }
    ensures len { vec_len bytes.new ≡ vec_len bytes.old }
{
    bytes.as_mut_slice().copy_within(start..end, 0);
    end - start
}

/// Reads into `bytes[at..]`, and leaves what stands before it.
fn read_behind<S: Source>(
    source: &mut S,
    bytes: &mut Vec<u8>,
    at: usize,
) -> Result<usize, ReadFault>
    requires { at < vec_len bytes.old }
    ensures front { take at bytes.new.items ≡ take at bytes.old.items }
    ensures fits { IfOk result (λ n. at + n ≤ vec_len bytes.new) }
    ensures bytes { ReadConsumes (S.left source.old) (S.left source.new) result (drop at bytes.new.items) }
    ensures len { vec_len bytes.new ≡ vec_len bytes.old }
    ensures grown { S.troubles source.old ≤ S.troubles source.new }
    ensures fault { OnErr result (Rises (S.troubles source.old) (S.troubles source.new)) }
    ensures calls { EndsAtFault (S.outcomes source.old) (S.outcomes source.new) result }
{
    read_some(source, &mut bytes[at..])
}
