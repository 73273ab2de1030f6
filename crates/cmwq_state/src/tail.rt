ghost use Rattle.std.specs.Prelude.{◌≡◌, ◌+◌, ◌<◌, ◌≤◌, [], length, IfOk};
ghost use Rattle.std.specs.Vec.{vec_capacity};
ghost use Rattle.cmwq_state.specs.Tails.{all_given, kept_of, with_item};

use crate::trail::Trail;
use std::alloc::{AllocError, Global};
use std::marker::Model;
use std::mem::swap;

/// A list that only grows. Its items are kept until they are given away; contracts see it whole.
#[derive(Drop)]
pub struct Tail<T> {
    all: Trail<T>,
    first: u64,
    room: u32,
    kept: Vec<T>,
}

impl<T> Model for Tail<T> {
    ghost use Rattle.std.specs.Vec.{vec_capacity};
    ghost use Rattle.cmwq_state.specs.Tails.{Tailed, IsTail};

    ghost Value = { Tailed T };

    ghost view = { λ t. record { all = t.all; given = t.first; room = t.room } };

    ghost invariant = { λ t. IsTail t.all t.first t.room t.kept.items (vec_capacity t.kept) };
}

impl<T: Copy> Tail<T> {
    /// A list without items, of which so many may be kept. No later call takes memory. The error says that it ran out.
    pub fn new(alloc: Global, room: u32) -> Result<Tail<T>, AllocError>
        ensures { IfOk result (λ tail. tail ≡ record { all = []; given = 0; room = room }) }
    {
        Ok(Tail {
            all: Trail::new(),
            first: 0,
            room,
            kept: Vec::with_capacity(alloc, room as usize)?,
        })
    }

    /// How many items it has, the given ones too.
    pub fn len(&self) -> u64
        ensures len { result ≡ length self.now.all }
        ensures most { length self.now.all ≤ 4611686018427387904 }
    {
        self.all.len()
    }

    /// How many of them were given away.
    pub fn first(&self) -> u64
        ensures given { result ≡ self.now.given }
        ensures within { self.now.given ≤ length self.now.all }
    {
        self.first
    }

    /// As many may be kept.
    pub fn room(&self) -> u32
        ensures { result ≡ self.now.room }
    {
        self.room
    }

    /// How many more may be kept.
    pub fn space(&self) -> u32
        ensures { result + length self.now.all ≡ self.now.room + self.now.given }
    {
        self.room - self.kept.len() as u32
    }

    /// What was not given away, the oldest first.
    pub fn kept(&self) -> &[T]
        ensures kept { result.now ≡ kept_of self.now }
        ensures many { self.now.given + length result.now ≡ length self.now.all }
        ensures few { length result.now ≤ self.now.room }
    {
        &self.kept
    }

    /// One item more, for which there is space.
    pub fn push(&mut self, item: T)
        requires space { length self.old.all < self.old.room + self.old.given }
        requires most { length self.old.all < 4611686018427387904 }
        ensures { self.new ≡ with_item self.old item }
    {
        self.all.push(&item);
        self.kept.push_reserved(item);
    }

    /// Gives away all that is kept: `out` has it then, and the tail keeps what `out` was, an empty buffer that is large
    /// enough. Nothing is copied.
    pub fn give(&mut self, out: &mut Vec<T>)
        requires empty { out.old.items ≡ [] }
        requires large { self.old.room ≤ vec_capacity out.old }
        ensures given { out.new.items ≡ kept_of self.old }
        ensures large { self.old.room ≤ vec_capacity out.new }
        ensures tail { self.new ≡ all_given self.old }
    {
        self.first = self.all.len();
        swap(&mut self.kept, out);
    }

    /// Drops all that is kept.
    pub fn forget(&mut self)
        ensures { self.new ≡ all_given self.old }
    {
        self.first = self.all.len();
        self.kept.clear();
    }

    /// What was not given away, the oldest first.
    pub fn into_kept(self) -> Vec<T>
        ensures { result.items ≡ kept_of self }
    {
        self.kept
    }
}
