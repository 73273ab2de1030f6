//! What C holds of the heap, by a pointer of no type: a book, a board or lines.
ghost use Rattle.std.specs.Prelude.{◌≡◌, true, false, Bool};
ghost use Rattle.cmwq_core.specs.Lasting.{Lasting};
ghost use Rattle.cmwq_board.specs.Boarded.{Boarded};
ghost use Rattle.cmwq_c.specs.Lined.{Lined};
ghost use Rattle.cmwq_c.specs.Owned.{owns_board, owns_book, owns_lines};

use crate::apart::Apart;
use crate::board_session::BoardSession;
use crate::lines::Lines;
use crate::session::Session;
use std::alloc::Global;
use std::marker::Model;
use std::ptr;

/// A book by its pointer, which owns it, or nothing.
#[repr(C)]
#[derive(Drop)]
pub struct Held {
    at: *mut u8,
    pub ghost full: { Bool },
    pub ghost book: { Lasting },
}

impl Model for Held {
    ghost also_owns = { λ h. owns_book h.full h.at h.book };
}

impl Held {
    /// Nothing.
    pub fn none() -> Held
        ensures { result.full ≡ false }
    {
        Held {
            at: ptr::null_mut(),
        }
    }

    /// The book of these parts.
    pub fn of(parts: Apart<Session, Global>) -> Held
        ensures { (result.full ≡ true) × (result.book ≡ parts.value) }
    {
        let Apart { at, alloc: _ } = parts;
        Held { at: at as *mut u8 }
    }

    /// The parts of the book.
    pub fn into_apart(self, alloc: Global) -> Apart<Session, Global>
        requires { self.full ≡ true }
        ensures { result.value ≡ self.book }
    {
        let Held { at } = self;
        Apart {
            at: at as *mut Session,
            alloc,
        }
    }
}

/// A board by its pointer, which owns it, or nothing.
#[repr(C)]
#[derive(Drop)]
pub struct HeldBoard {
    at: *mut u8,
    pub ghost full: { Bool },
    pub ghost board: { Boarded },
}

impl Model for HeldBoard {
    ghost also_owns = { λ h. owns_board h.full h.at h.board };
}

impl HeldBoard {
    /// Nothing.
    pub fn none() -> HeldBoard
        ensures { result.full ≡ false }
    {
        HeldBoard {
            at: ptr::null_mut(),
        }
    }

    /// The board of these parts.
    pub fn of(parts: Apart<BoardSession, Global>) -> HeldBoard
        ensures { (result.full ≡ true) × (result.board ≡ parts.value) }
    {
        let Apart { at, alloc: _ } = parts;
        HeldBoard { at: at as *mut u8 }
    }

    /// The parts of the board.
    pub fn into_apart(self, alloc: Global) -> Apart<BoardSession, Global>
        requires { self.full ≡ true }
        ensures { result.value ≡ self.board }
    {
        let HeldBoard { at } = self;
        Apart {
            at: at as *mut BoardSession,
            alloc,
        }
    }
}

/// Lines by their pointer, which owns them, or nothing.
#[repr(C)]
#[derive(Drop)]
pub struct HeldLines {
    at: *mut u8,
    pub ghost full: { Bool },
    pub ghost lines: { Lined },
}

impl Model for HeldLines {
    ghost also_owns = { λ h. owns_lines h.full h.at h.lines };
}

impl HeldLines {
    /// Nothing.
    pub fn none() -> HeldLines
        ensures { result.full ≡ false }
    {
        HeldLines {
            at: ptr::null_mut(),
        }
    }

    /// The lines of these parts.
    pub fn of(parts: Apart<Lines, Global>) -> HeldLines
        ensures { (result.full ≡ true) × (result.lines ≡ parts.value) }
    {
        let Apart { at, alloc: _ } = parts;
        HeldLines { at: at as *mut u8 }
    }

    /// The parts of the lines.
    pub fn into_apart(self, alloc: Global) -> Apart<Lines, Global>
        requires { self.full ≡ true }
        ensures { result.value ≡ self.lines }
    {
        let HeldLines { at } = self;
        Apart {
            at: at as *mut Lines,
            alloc,
        }
    }
}
