ghost use Rattle.std.specs.Prelude.{◌≡◌, ◌<◌, length, replicate, slice_set, IfOk};
ghost use Rattle.cmwq_pool.specs.Upkeep.{no_note, note_at};

use crate::note::Note;
use cmwq_model::Number;
use std::alloc::{AllocError, Global};
use std::marker::Model;

/// What is noted of each item. It takes nine bytes an item, where notes beside one another would take sixteen.
#[derive(Drop)]
pub(crate) struct Notes {
    numbers: Vec<Number>,
    intensive: Vec<bool>,
}

impl Model for Notes {
    ghost use Rattle.std.specs.Prelude.{◌≡◌, List, length};
    ghost use Rattle.cmwq_pool.specs.declared.note.Note.{Note};
    ghost use Rattle.cmwq_pool.specs.Notes.{notes_of};

    ghost Value = { List Note };

    ghost view = { λ n. notes_of n.numbers.items n.intensive.items };

    ghost invariant = { λ n. length n.intensive.items ≡ length n.numbers.items };
}

impl Notes {
    /// Nothing is noted yet. No later call takes memory.
    pub(crate) fn new(alloc: Global, items: u16) -> Result<Notes, AllocError>
        ensures { IfOk result (λ made. made ≡ replicate items no_note) }
    {
        let items = usize::from(items);
        Ok(Notes {
            numbers: vec![in alloc; 0; items]?,
            intensive: vec![in alloc; false; items]?,
        })
    }

    /// Makes these notes a copy of the others, which are of as many items.
    pub(crate) fn copy_from(&mut self, other: &Notes)
        requires { length self.old ≡ length other.now }
        ensures { self.new ≡ other.now }
    {
        self.numbers.copy_from_slice(&other.numbers);
        self.intensive.copy_from_slice(&other.intensive);
    }

    /// How many items there are.
    pub(crate) fn len(&self) -> usize
        ensures { result ≡ length self.now }
    {
        self.numbers.len()
    }

    pub(crate) fn get(&self, item: usize) -> Note
        requires { item < length self.now }
        ensures { result ≡ note_at self.now item }
    {
        Note {
            number: self.numbers[item],
            intensive: self.intensive[item],
        }
    }

    pub(crate) fn set(&mut self, item: usize, note: Note)
        requires { item < length self.old }
        ensures { self.new ≡ slice_set self.old item note }
    {
        self.numbers[item] = note.number;
        self.intensive[item] = note.intensive;
    }
}
