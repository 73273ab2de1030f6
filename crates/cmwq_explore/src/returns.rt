//! Whether a schedule comes to a state again: then it may go round for ever, if there is room for that.

use crate::finding::copy_of;
use cmwq_key::{Key, KeyWriter};
use cmwq_play::{Play, Setup};
use indexmap::IndexMap;
use std::alloc::{AllocError, Global};

/// The states after so many moves and after so many more are the same, but for the length of the history.
#[derive(Clone, Copy, Debug, PartialEq, Eq)]
pub struct Return {
    pub first: usize,
    pub again: usize,
}

/// The states of a path so far, by their keys without the length of the history, and after how many moves each came.
type States = IndexMap<Key, usize>;

/// A walk along a path.
#[derive(Drop)]
struct Walk<'a> {
    play: Play<'a>,
    states: States,
    writer: KeyWriter,
    key: Key,
}

impl<'a> Walk<'a> {
    /// Before the first move.
    fn new(alloc: Global, setup: &'a Setup<'a>) -> Result<Walk<'a>, AllocError> {
        let play = Play::new(alloc, setup)?;
        Ok(Walk {
            play,
            states: IndexMap::new(alloc),
            writer: KeyWriter::new(alloc),
            key: Vec::new(alloc),
        })
    }

    /// Notes the state after so many moves. Returns after how many it came first, if it came before.
    fn note(&mut self, alloc: Global, moves: usize) -> Result<Option<usize>, AllocError> {
        self.writer.write(&mut self.key, &self.play)?;
        let key = without_length(&self.key);
        if let Some(first) = self.states.get(key) {
            return Ok(Some(*first));
        }
        self.states.insert(copy_of(alloc, key)?, moves)?;
        Ok(None)
    }

    /// Walks along the path to the first state that comes again.
    fn go_along(&mut self, alloc: Global, path: &[usize]) -> Result<Option<Return>, AllocError> {
        for (again, party) in path.iter().enumerate() {
            if let Some(first) = self.note(alloc, again)? {
                return Ok(Some(Return { first, again }));
            }
            self.play.make_move(*party)?;
        }
        Ok(None)
    }
}

/// The first state to which this path of a script comes again, if there is one.
///
/// # Errors
/// Want of memory.
pub fn first_return<'a>(
    alloc: Global,
    setup: &'a Setup<'a>,
    path: &[usize],
) -> Result<Option<Return>, AllocError> {
    let mut walk = Walk::new(alloc, setup)?;
    let found = walk.go_along(alloc, path);
    drop(walk);
    found
}

/// A key without the length of the history, which stands first in it: by one number, or by a mark and four.
fn without_length(key: &[u16]) -> &[u16] {
    let len = match key.first() {
        Some(&u16::MAX) => 5,
        _ => 1,
    };
    match key.get(len..) {
        Some(rest) => rest,
        None => key,
    }
}
