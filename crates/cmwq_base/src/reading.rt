//! Reads a whole file from a source.

ghost use Rattle.std.specs.Prelude.{◌≡◌, length, IfSome, IfOk, IsErrOf};
ghost use Rattle.cmwq_io.specs.Counts.{Rises};
ghost use Rattle.cmwq_base.specs.Files.{as_front, file_of, IsVersionOf, IsSound};
ghost use Rattle.cmwq_base.specs.Gives.{Gives};
ghost use Rattle.cmwq_base.specs.Pieces.{cut_line};
ghost use Rattle.cmwq_base.specs.Stages.{contents_of};

use crate::gather::Gather;
use crate::refusal::Refusal;
use crate::stage::{Contents, Stage};
use cmwq_io::{Found, Line, Lines, Source};
use std::alloc::Global;

/// One more than the lines that a file may have: the one that says its format, its shape line, as many queues
/// and as many others as any format allows, and the last line.
pub const TOO_MANY_LINES: u64 = 4_611_686_018_426_388_163;

/// Reads a file of lines of this kind, to the end of the source, and hands on what each line says. Beside what gathers
/// that it takes memory for one line and for what is read ahead. Where `is_front` says that more was to be written
/// after what is there, a rest without a line feed is left out, and the last line of the format may be missing; else
/// these are refused.
pub fn read_file<G: Gather + Drop, S: Source>(
    alloc: Global,
    source: &mut S,
    is_front: bool,
) -> Result<Contents<G>, Refusal>
    ensures exact { IfSome (S.left source.old)
        (λ text. Gives (contents_of G.layout G.items) result (file_of (as_front is_front G.Item.kind) text)) }
    ensures left_out { IfSome (S.left source.old)
        (λ text. IfOk result (λ file. file.left_out ≡ length (cut_line text))) }
    ensures version { IfOk result (λ file. IsVersionOf G.Item.kind file.version) }
    ensures sound { IfOk result (λ file. IsSound G.Item.kind (contents_of G.layout G.items file)) }
    ensures fault { IsErrOf result Refusal.ReadFault → Rises (S.troubles source.old) (S.troubles source.new) }
    ensures nothing_written { IsErrOf result Refusal.WriteFault → ⊥ }
{
    let mut lines = Lines::new(alloc)?;
    let mut line = Line::new();
    let mut stage = Stage::Begin;
    for number in 1..=TOO_MANY_LINES {
        if let Some(count) = stage.advance_usual(lines.ahead())? {
            lines.consume(count);
            continue;
        }
        match lines.next_line(source, &mut line)? {
            Found::Whole => stage.advance(alloc, number, line.as_slice())?,
            Found::Long => return Err(Refusal::TooLong),
            Found::Cut if stage.leaves_cut(is_front) => {
                return stage.finish(alloc, number, is_front, line.as_slice().len());
            }
            Found::Cut => return Err(stage.cut(number)),
            Found::End => return stage.finish(alloc, number, is_front, 0),
        }
    }
    Err(Refusal::TooLong)
}
