//! What C has of a book, of a board and of lines.
ghost use Rattle.std.specs.Prelude.{◌≡◌, true, false, IfSome, is_some};

use crate::apart::Apart;
use crate::board_session::BoardSession;
use crate::held::{Held, HeldBoard, HeldLines};
use crate::lines::Lines;
use crate::session::Session;
use std::alloc::Global;
use std::mem::size_of;

/// A book, or none. All zeros is none.
#[repr(C)]
#[derive(Drop)]
pub struct Handle {
    pub held: Held,
    pub live: bool,
    pub ghost same: { held.full ≡ live },
}

/// A board, or none. All zeros is none.
#[repr(C)]
#[derive(Drop)]
pub struct BoardHandle {
    pub held: HeldBoard,
    pub live: bool,
    pub ghost same: { held.full ≡ live },
}

/// Lines, or none. All zeros is none.
#[repr(C)]
#[derive(Drop)]
pub struct LinesHandle {
    pub held: HeldLines,
    pub live: bool,
    pub ghost same: { held.full ≡ live },
}

// the sizes that cmwq.h asserts too
const _: () = prove!(size_of::<Handle>() == 16);

const _: () = prove!(size_of::<BoardHandle>() == 16);

const _: () = prove!(size_of::<LinesHandle>() == 16);

impl Handle {
    /// None.
    pub fn none() -> Handle
        ensures { result.live ≡ false }
    {
        Handle {
            held: Held::none(),
            live: false,
        }
    }

    /// This book.
    pub fn of(book: Box<Session, Global>) -> Handle
        ensures live { result.live ≡ true }
        ensures book { result.held.book ≡ book.value }
    {
        Handle {
            held: Held::of(Apart::of(book)),
            live: true,
        }
    }

    /// The book, if there is one.
    pub fn into_box(self, alloc: Global) -> Option<Box<Session, Global>>
        ensures live { is_some result ≡ self.live }
        ensures book { IfSome result (λ b. b.value ≡ self.held.book) }
    {
        if self.live {
            Some(self.held.into_apart(alloc).into_box())
        } else {
            None
        }
    }
}

impl BoardHandle {
    /// None.
    pub fn none() -> BoardHandle
        ensures { result.live ≡ false }
    {
        BoardHandle {
            held: HeldBoard::none(),
            live: false,
        }
    }

    /// This board.
    pub fn of(board: Box<BoardSession, Global>) -> BoardHandle
        ensures live { result.live ≡ true }
        ensures board { result.held.board ≡ board.value }
    {
        BoardHandle {
            held: HeldBoard::of(Apart::of(board)),
            live: true,
        }
    }

    /// The board, if there is one.
    pub fn into_box(self, alloc: Global) -> Option<Box<BoardSession, Global>>
        ensures live { is_some result ≡ self.live }
        ensures board { IfSome result (λ b. b.value ≡ self.held.board) }
    {
        if self.live {
            Some(self.held.into_apart(alloc).into_box())
        } else {
            None
        }
    }
}

impl LinesHandle {
    /// None.
    pub fn none() -> LinesHandle
        ensures { result.live ≡ false }
    {
        LinesHandle {
            held: HeldLines::none(),
            live: false,
        }
    }

    /// These lines.
    pub fn of(lines: Box<Lines, Global>) -> LinesHandle
        ensures live { result.live ≡ true }
        ensures lines { result.held.lines ≡ lines.value }
    {
        LinesHandle {
            held: HeldLines::of(Apart::of(lines)),
            live: true,
        }
    }

    /// The lines, if there are any.
    pub fn into_box(self, alloc: Global) -> Option<Box<Lines, Global>>
        ensures live { is_some result ≡ self.live }
        ensures lines { IfSome result (λ b. b.value ≡ self.held.lines) }
    {
        if self.live {
            Some(self.held.into_apart(alloc).into_box())
        } else {
            None
        }
    }
}
