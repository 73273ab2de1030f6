//! The lines of an input: where one stands, and how far the file was read before it.

use cmwq_base::{FileLine, Listed, Memory, Stage};
use cmwq_io::{Found, Line, Lines};
use std::alloc::Global;

/// A line of an input: its bytes, where it begins, and whether a line feed ends it.
#[derive(Clone, Copy)]
pub struct InputLine<'a> {
    pub number: u64,
    pub start: usize,
    pub bytes: &'a [u8],
    pub is_ended: bool,
}

/// The bytes of a line that begins here.
fn line_from(number: u64, bytes: &[u8], start: usize) -> Option<InputLine<'_>> {
    let rest = bytes.get(start..)?;
    match rest.iter().position(|byte| *byte == b'\n') {
        Some(end) => Some(InputLine {
            number,
            start,
            bytes: rest.get(..end)?,
            is_ended: true,
        }),
        None if rest.is_empty() => None,
        None => Some(InputLine {
            number,
            start,
            bytes: rest,
            is_ended: false,
        }),
    }
}

/// The line of an input with this number, from 1. None: it ends before that.
pub fn line_of(bytes: &[u8], number: u64) -> Option<InputLine<'_>> {
    let mut count = 1u64;
    let mut start = 0usize;
    for (at, byte) in bytes.iter().enumerate() {
        if count == number {
            break;
        }
        if *byte == b'\n' {
            count = count.saturating_add(1);
            start = at.saturating_add(1);
        }
    }
    if count == number {
        line_from(number, bytes, start)
    } else {
        None
    }
}

/// How far a file is read before the line with this number. None: memory ran out.
pub fn stage_before<T: FileLine + Drop>(
    alloc: Global,
    bytes: &[u8],
    number: u64,
) -> Option<Stage<Listed<T>>> {
    let mut source = Memory::reader(bytes);
    let mut lines = Lines::new(alloc).ok()?;
    let mut line = Line::new();
    let mut stage = Stage::Begin;
    for before in 1..number {
        match lines.next_line(&mut source, &mut line).ok()? {
            Found::Whole => stage = stage.take(alloc, before, line.as_slice()).ok()?,
            Found::Cut | Found::Long | Found::End => return None,
        }
    }
    Some(stage)
}
