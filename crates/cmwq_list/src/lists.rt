ghost use Rattle.std.specs.Prelude.{◌≡◌, ℕ, ◌+◌, ◌^◌, ◌<◌, ◌≤◌, [], Some, None, IfOk, length, replicate, slice_get};
ghost use Rattle.cmwq_list.specs.Lists.{list_at, list_of, lists_with, lists_without, AreListedOnce};

use crate::links::{NONE, link, link_back, unlink};
use std::alloc::{AllocError, Global};
use std::marker::Model;

/// Lists of items, by their numbers. An item is in one of them at most. Only `new` takes memory: 10 bytes an item, and
/// 12 a list.
#[derive(Drop)]
pub struct Lists {
    /// What follows each item, and then what follows the sentinel of each list.
    next: Vec<u32>,
    /// What is before each of them.
    prev: Vec<u32>,
    /// The list that each item is in.
    owners: Vec<u16>,
    /// How many items each list has.
    lens: Vec<u32>,
}

impl Model for Lists {
    ghost use Rattle.std.specs.Prelude.{length};
    ghost use Rattle.cmwq_list.specs.Lists.{Listed};
    ghost use Rattle.cmwq_list.specs.Links.{AreLinked, lists_of};

    ghost Value = { Listed };

    ghost view = { λ t. record {
      items = length t.owners.items;
      lists = lists_of t.next.items t.owners.items t.lens.items;
    } };

    ghost invariant = { λ t. AreLinked t.next.items t.prev.items t.owners.items t.lens.items };
}

impl Lists {
    /// So many empty lists, for items of the numbers below `items`. The error says that memory ran out.
    pub fn new(alloc: Global, lists: u16, items: u32) -> Result<Lists, AllocError>
        requires { items + lists < 2 ^ 32 }
        ensures { IfOk result (λ made. made ≡ record { items = items; lists = replicate lists [] }) }
    {
        let links = items + u32::from(lists);
        let mut next = vec![in alloc; 0; links as usize]?;
        let mut prev = vec![in alloc; 0; links as usize]?;
        for sentinel in items..links {
            link(&mut next, &mut prev, sentinel, sentinel);
        }
        Ok(Lists {
            next,
            prev,
            owners: vec![in alloc; NONE; items as usize]?,
            lens: vec![in alloc; 0; usize::from(lists)]?,
        })
    }

    /// Makes these lists a copy of the others. There are as many lists and items of both, so that no memory is taken.
    pub fn copy_from(&mut self, other: &Lists)
        requires items { self.old.items ≡ other.now.items }
        requires lists { length self.old.lists ≡ length other.now.lists }
        ensures { self.new ≡ other.now }
    {
        self.next.copy_from_slice(&other.next);
        self.prev.copy_from_slice(&other.prev);
        self.owners.copy_from_slice(&other.owners);
        self.lens.copy_from_slice(&other.lens);
    }

    /// How many items are in a list: at most as many as there are. No item is twice in a list, or in two.
    pub fn len(&self, list: u16) -> u32
        requires { list < length self.now.lists }
        ensures len { result ≡ length (list_at self.now.lists list) }
        ensures few { result ≤ self.now.items }
        ensures once { AreListedOnce self.now }
    {
        self.lens[usize::from(list)]
    }

    /// The list that an item is in.
    pub fn list_of(&self, item: u32) -> Option<u16>
        requires { item < self.now.items }
        ensures { result ≡ list_of self.now.lists item }
    {
        let owner = self.owners[item as usize];
        if owner == NONE { None } else { Some(owner) }
    }

    /// The first item of a list.
    pub fn first(&self, list: u16) -> Option<u32>
        requires { list < length self.now.lists }
        ensures { result ≡ slice_get (list_at self.now.lists list) 0 }
    {
        let first = self.next[self.owners.len() + usize::from(list)];
        if (first as usize) < self.owners.len() {
            Some(first)
        } else {
            None
        }
    }

    /// What follows an item in the list that it is in. Of an item that is in none, any item or none.
    pub fn next(&self, item: u32) -> Option<u32>
        requires { item < self.now.items }
        ensures { (l k : ℕ) → slice_get (list_at self.now.lists l) k ≡ Some item
            → result ≡ slice_get (list_at self.now.lists l) (k + 1) }
    {
        let behind = self.next[item as usize];
        if (behind as usize) < self.owners.len() {
            Some(behind)
        } else {
            None
        }
    }

    /// Adds an item that is in no list after all others of a list.
    pub fn push_back(&mut self, list: u16, item: u32)
        requires list { list < length self.old.lists }
        requires item { item < self.old.items }
        requires free { list_of self.old.lists item ≡ None }
        ensures { self.new ≡ lists_with self.old list item }
    {
        link_back(
            &mut self.next,
            &mut self.prev,
            &mut self.owners,
            &mut self.lens,
            list,
            item,
        );
    }

    /// Takes an item out of the list that it is in. One that is in none stays so. No item was twice in a list, or in
    /// two.
    pub fn remove(&mut self, item: u32)
        requires { item < self.old.items }
        ensures rest { self.new ≡ lists_without self.old item }
        ensures once { AreListedOnce self.old }
    {
        let owner = self.owners[item as usize];
        if owner != NONE {
            unlink(
                &mut self.next,
                &mut self.prev,
                &mut self.owners,
                &mut self.lens,
                item,
            );
        }
    }
}
