//! How far a file has been read, and what each of its lines adds.

ghost use Rattle.std.specs.Prelude.{◌≡◌, ◌<◌, ◌&&◌, not, length, IfOk};
ghost use Rattle.cmwq_text.specs.Formats.{counts_of_format, line_limit as limit_of_lines, most_lines};
ghost use Rattle.cmwq_base.specs.Files.{body, shape_made, after_shape_line, after_first_line, queue_line, item_line};
ghost use Rattle.cmwq_base.specs.Files.{end_of_format, body_line, first_body_line, after_head as after_head_by};
ghost use Rattle.cmwq_base.specs.Usual.{MayGoOn};

use crate::gather::Gather;
use crate::refusal::Refusal;
use cmwq_model::{Counts, NoMemory, QueueShape, Shape};
use cmwq_text::{begins_queue, line_limit, queue_limit, read_counts_of_format, read_end};
use std::alloc::Global;
use std::mem;

/// What the lines of a kind of file say, by its format, which is 1, 2 or 3.
pub trait FileLine: Sized {
    ghost use Rattle.std.specs.Prelude.{IfSome};
    ghost use Rattle.cmwq_base.specs.Files.{Kind};
    ghost use Rattle.cmwq_base.specs.Usual.{BeginsLine};

    /// How the lines are read.
    ghost kind: { Kind Self };

    /// Whether a first line says that the format is this one.
    fn says_format(version: u8, line: &[u8]) -> bool
        ensures { result ≡ kind.says_format version line.now };

    /// The queue of a queue's line.
    fn read_queue(version: u8, line: &[u8]) -> Option<QueueShape>
        ensures { result ≡ kind.queue_of version line.now };

    /// What any other line says.
    fn read(version: u8, line: &[u8]) -> Option<Self>
        ensures { result ≡ kind.item_of version line.now };

    /// What the line says that the bytes begin with, and the bytes after its line feed. `None` says nothing of the
    /// line: `read` decides. It is for lines that come often, which it reads faster.
    fn read_usual(version: u8, bytes: &[u8]) -> Option<(Self, &[u8])>
        ensures { IfSome result (λ x. BeginsLine kind version bytes.now x.0 x.1.now) };

    /// Whether the format has a last line, which says how many of these lines stand before it.
    fn needs_end(version: u8) -> bool
        ensures { result ≡ kind.needs_end version };

    /// Whether its numbers are inside the shape.
    fn fits(&self, shape: &Shape) -> bool
        ensures { result ≡ kind.fits_in shape.now self.now };
}

/// How far a file has been read.
#[derive(Drop)]
pub enum Stage<G> {
    /// The first line comes next: the one that says the format, or the shape line.
    Begin,
    /// This is the format, and the shape line comes next.
    Opened {
        version: u8,
    },
    /// The shape line, and the queues so far.
    Head {
        version: u8,
        counts: Counts,
        queues: Vec<QueueShape>,
    },
    /// The shape, and what the lines after it say.
    Body {
        version: u8,
        all: G,
    },
    /// The same, with the last line.
    Ended {
        version: u8,
        all: G,
    },
}

impl<G: Gather + Drop> Stage<G> {
    ghost use Rattle.std.specs.Prelude.{IfOk};
    ghost use Rattle.cmwq_base.specs.Files.{as_front, after_whole_line, after_cut, is_file_ended, at_end};
    ghost use Rattle.cmwq_base.specs.Gives.{GivesAs};
    ghost use Rattle.cmwq_base.specs.Stages.{stage_of, contents_of};
    ghost use Rattle.cmwq_base.specs.Usual.{MayGoOn};

    /// Takes one whole line, without its line feed, the `number`-th of the file.
    #[tactic(auto, unfolding(crate::specs::Files::after_whole_line))]
    pub fn take(self, alloc: Global, number: u64, line: &[u8]) -> Result<Stage<G>, Refusal>
        ensures { GivesAs (stage_of G.layout G.items) result
            (after_whole_line G.Item.kind number (stage_of G.layout G.items self) line.now) }
    {
        match self {
            Stage::Begin => first_line(alloc, number, line),
            Stage::Opened { version } => begun(alloc, number, version, line),
            Stage::Head {
                version,
                counts,
                queues,
            } => after_head(alloc, number, version, counts, queues, line),
            Stage::Body { version, all } => with_line(number, version, all, line),
            Stage::Ended { .. } => Err(Refusal::BadLine(number)),
        }
    }

    /// Takes one whole line as `take` does, and leaves what gathers where it is, since that may be large. What is read
    /// after an error is not said.
    #[tactic(auto, unfolding(crate::specs::Files::after_whole_line, crate::specs::Files::body_line))]
    #[inline]
    pub(crate) fn advance(&mut self, alloc: Global, number: u64, line: &[u8]) -> Result<(), Refusal>
        ensures { GivesAs (λ _. stage_of G.layout G.items self.new) result
            (after_whole_line G.Item.kind number (stage_of G.layout G.items self.old) line.now) }
    {
        match self {
            Stage::Body { version, all } if end_in::<G::Item>(*version, line).is_none() => {
                add_item(number, *version, all, line)
            }
            _ => {
                *self = mem::replace(self, Stage::Begin).take(alloc, number, line)?;
                Ok(())
            }
        }
    }

    /// Takes the line that the bytes begin with, if it is a usual one that the format and the shape allow, and returns
    /// how many bytes it has with its line feed. After `None` nothing has changed, and the line is left to `advance`.
    /// What is read after an error is not said.
    #[inline(always)]
    pub(crate) fn advance_usual(&mut self, bytes: &[u8]) -> Result<Option<usize>, NoMemory>
        ensures { IfOk result (MayGoOn G.Item.kind (stage_of G.layout G.items self.old)
            (stage_of G.layout G.items self.new) bytes.now) }
    {
        match self {
            Stage::Body { version, all } if all.len() < line_limit(*version) => {
                add_usual(*version, all, bytes)
            }
            _ => Ok(None),
        }
    }

    /// Whether a rest without a line feed is left out here: of a front, but not after the last line.
    pub fn leaves_cut(&self, is_front: bool) -> bool
        ensures { result ≡ (is_front && not (is_file_ended (stage_of G.layout G.items self.now))) }
    {
        is_front && !matches!(self, Stage::Ended { .. })
    }

    /// Why a last line without its line feed is refused, the `number`-th of the file.
    #[tactic(auto, unfolding(crate::specs::Files::after_cut))]
    pub fn cut(&self, number: u64) -> Refusal
        ensures { result ≡ after_cut number (stage_of G.layout G.items self.now) }
    {
        match self {
            Stage::Body { version, all } if all.len() >= line_limit(*version) => Refusal::TooLong,
            _ => Refusal::BadLine(number),
        }
    }

    /// The end of the file, where its `number`-th line would be, and after which so many bytes were left out. A last
    /// line that is missing is refused there, but in a front.
    #[tactic(auto, unfolding(crate::specs::Files::at_end))]
    pub fn finish(
        self,
        alloc: Global,
        number: u64,
        is_front: bool,
        left_out: usize,
    ) -> Result<Contents<G>, Refusal>
        ensures gives { GivesAs (contents_of G.layout G.items) result
            (at_end (as_front is_front G.Item.kind) number (stage_of G.layout G.items self)) }
        ensures left_out { IfOk result (λ contents. contents.left_out ≡ left_out) }
    {
        match self {
            Stage::Begin | Stage::Opened { .. } => Err(Refusal::BadShape(number)),
            Stage::Head {
                version,
                counts,
                queues,
            } => match shape_of(counts, queues) {
                Some(_) if lacks_end::<G::Item>(version, is_front) => {
                    Err(Refusal::BadLine(number))
                }
                Some(shape) => Ok(Contents {
                    version,
                    all: G::begin(alloc, shape)?,
                    left_out,
                }),
                None => Err(Refusal::BadShape(number)),
            },
            Stage::Body { version, .. } if lacks_end::<G::Item>(version, is_front) => {
                Err(Refusal::BadLine(number))
            }
            Stage::Body { version, all } | Stage::Ended { version, all } => {
                Ok(Contents {
                    version,
                    all,
                    left_out,
                })
            }
        }
    }
}

/// What a file says: its format, what was gathered of its shape and of what the lines after it say, and how many bytes
/// of an unfinished last line were left out.
#[derive(Drop)]
pub struct Contents<G> {
    pub version: u8,
    pub all: G,
    pub left_out: usize,
}

ghost use Rattle.cmwq_base.specs.Gives.{GivesAs};
ghost use Rattle.cmwq_base.specs.Stages.{stage_of};

fn first_line<G: Gather>(alloc: Global, number: u64, line: &[u8]) -> Result<Stage<G>, Refusal>
    ensures { GivesAs (stage_of G.layout G.items) result (after_first_line G.Item.kind number line.now) }
{
    if G::Item::says_format(2, line) {
        Ok(Stage::Opened { version: 2 })
    } else if G::Item::says_format(3, line) {
        Ok(Stage::Opened { version: 3 })
    } else {
        begun(alloc, number, 1, line)
    }
}

fn begun<G: Gather>(
    alloc: Global,
    number: u64,
    version: u8,
    line: &[u8],
) -> Result<Stage<G>, Refusal>
    ensures { GivesAs (stage_of G.layout G.items) result
        (after_shape_line number version (counts_of_format version line.now)) }
{
    match read_counts_of_format(version, line) {
        Some(counts) => Ok(Stage::Head {
            version,
            counts,
            queues: Vec::new(alloc),
        }),
        None => Err(Refusal::BadShape(number)),
    }
}

fn with_queue<G: Gather>(
    number: u64,
    version: u8,
    counts: Counts,
    mut queues: Vec<QueueShape>,
    line: &[u8],
) -> Result<Stage<G>, Refusal>
    ensures { GivesAs (stage_of G.layout G.items) result
        (queue_line G.Item.kind number version counts queues.items line.now) }
{
    if queues.len() >= queue_limit(version) {
        return Err(Refusal::BadShape(number));
    }
    match G::Item::read_queue(version, line) {
        Some(queue) => {
            queues.push(queue)?;
            Ok(Stage::Head {
                version,
                counts,
                queues,
            })
        }
        None => Err(Refusal::BadShape(number)),
    }
}

/// Takes one line of the kind.
#[tactic(auto, unfolding(crate::specs::Files::item_line))]
#[inline]
fn add_item<G: Gather>(number: u64, version: u8, all: &mut G, line: &[u8]) -> Result<(), Refusal>
    ensures { GivesAs (λ _. body version (G.layout all.new) (G.items all.new)) result
        (item_line G.Item.kind number version (G.layout all.old) (G.items all.old) line.now) }
{
    if all.len() >= line_limit(version) {
        return Err(Refusal::TooLong);
    }
    match G::Item::read(version, line) {
        Some(item) if item.fits(all.shape()) => {
            all.take(item)?;
            Ok(())
        }
        Some(_) => Err(Refusal::NoSuchId(number)),
        None => Err(Refusal::BadLine(number)),
    }
}

/// Takes the usual line of the kind that the bytes begin with, if it fits the shape.
#[inline(always)]
fn add_usual<G: Gather>(version: u8, all: &mut G, bytes: &[u8]) -> Result<Option<usize>, NoMemory>
    requires room { length (G.items all.old) < limit_of_lines version }
    requires few { length (G.items all.old) < most_lines }
    ensures { IfOk result (MayGoOn G.Item.kind (body version (G.layout all.old) (G.items all.old))
        (body version (G.layout all.new) (G.items all.new)) bytes.now) }
{
    match G::Item::read_usual(version, bytes) {
        Some((item, left)) if item.fits(all.shape()) => {
            all.take(item)?;
            Ok(Some(bytes.len() - left.len()))
        }
        _ => Ok(None),
    }
}

fn with_item<G: Gather + Drop>(
    number: u64,
    version: u8,
    mut all: G,
    line: &[u8],
) -> Result<Stage<G>, Refusal>
    ensures { GivesAs (stage_of G.layout G.items) result
        (item_line G.Item.kind number version (G.layout all) (G.items all) line.now) }
{
    add_item(number, version, &mut all, line)?;
    Ok(Stage::Body { version, all })
}

/// Whether a file of this format that ends without its last line is refused.
fn lacks_end<T: FileLine>(version: u8, is_front: bool) -> bool
    ensures { result ≡ (T.kind.needs_end version && not is_front) }
{
    T::needs_end(version) && !is_front
}

/// How many lines the last line says that stand before it, of a line that is one in this format.
#[inline]
fn end_in<T: FileLine>(version: u8, line: &[u8]) -> Option<u64>
    ensures { result ≡ end_of_format T.kind version line.now }
{
    if T::needs_end(version) {
        read_end(line)
    } else {
        None
    }
}

#[tactic(auto, unfolding(crate::specs::Files::body_line))]
fn with_line<G: Gather + Drop>(
    number: u64,
    version: u8,
    all: G,
    line: &[u8],
) -> Result<Stage<G>, Refusal>
    ensures { GivesAs (stage_of G.layout G.items) result
        (body_line G.Item.kind number version (G.layout all) (G.items all) line.now) }
{
    match end_in::<G::Item>(version, line) {
        Some(entries) if entries == all.len() => Ok(Stage::Ended { version, all }),
        Some(_) => Err(Refusal::BadLine(number)),
        None => with_item(number, version, all, line),
    }
}

fn first_item<G: Gather + Drop>(
    alloc: Global,
    number: u64,
    version: u8,
    counts: Counts,
    queues: Vec<QueueShape>,
    line: &[u8],
) -> Result<Stage<G>, Refusal>
    ensures { GivesAs (stage_of G.layout G.items) result
        (first_body_line G.Item.kind number version (shape_made counts queues.items) line.now) }
{
    match shape_of(counts, queues) {
        Some(shape) => with_line(number, version, G::begin(alloc, shape)?, line),
        None => Err(Refusal::BadShape(number)),
    }
}

/// The shape, if there is a queue and all is inside the limits.
fn shape_of(counts: Counts, queues: Vec<QueueShape>) -> Option<Shape>
    ensures { result ≡ shape_made counts queues.items }
{
    Shape::new(counts, queues)
}

#[tactic(auto, unfolding(crate::specs::Files::after_head))]
fn after_head<G: Gather + Drop>(
    alloc: Global,
    number: u64,
    version: u8,
    counts: Counts,
    queues: Vec<QueueShape>,
    line: &[u8],
) -> Result<Stage<G>, Refusal>
    ensures { GivesAs (stage_of G.layout G.items) result
        (after_head_by G.Item.kind number version counts queues.items line.now) }
{
    if begins_queue(line) {
        with_queue(number, version, counts, queues, line)
    } else {
        first_item(alloc, number, version, counts, queues, line)
    }
}
