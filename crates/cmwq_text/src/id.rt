//! Items, queues, CPUs, callers and workers in a text.
ghost use Rattle.std.specs.Prelude.{◌≡◌, position};
ghost use Rattle.cmwq_text.specs.Words.{with_left, word_read};
ghost use Rattle.cmwq_text.specs.IdText.{is_pool_letter, item_in, queue_in, cpu_in, caller_read, worker_read, who_read};
ghost use Rattle.cmwq_text.specs.IdText.{who_in};

use crate::expected::{Expected, NumberOf};
use crate::number::byte_of;
use crate::word::{Words, byte_in, short_in};
use cmwq_model::{CallerId, CpuId, ItemId, PoolId, QueueId, Who, WorkerId};

/// An item. One that no `ItemId` can hold is read as the greatest, which no shape has.
#[inline(always)]
pub fn item_in(words: &mut Words<'_>) -> Option<ItemId>
    ensures { with_left result words.new ≡ item_in words.old }
{
    words.note(Expected::Number(NumberOf::Item));
    Some(ItemId(short_in(words)?))
}

/// A queue. One that no `QueueId` can hold is read as the greatest, which no shape has.
#[inline(always)]
pub fn queue_in(words: &mut Words<'_>) -> Option<QueueId>
    ensures { with_left result words.new ≡ queue_in words.old }
{
    words.note(Expected::Number(NumberOf::Queue));
    Some(QueueId(byte_in(words)?))
}

/// A CPU. One that no `CpuId` can hold is read as the greatest, which no shape has.
#[inline(always)]
pub fn cpu_in(words: &mut Words<'_>) -> Option<CpuId>
    ensures { with_left result words.new ≡ cpu_in words.old }
{
    words.note(Expected::Number(NumberOf::Cpu));
    Some(CpuId(byte_in(words)?))
}

/// The caller whose number the first word is.
#[inline(always)]
fn caller_in(words: &mut Words<'_>) -> Option<Who>
    ensures { with_left result words.new ≡ word_read caller_read words.old }
{
    Some(Who::Caller(CallerId(byte_in(words)?)))
}

#[inline(always)]
fn pool_letter(name: &[u8]) -> Option<usize>
    ensures { result ≡ position is_pool_letter name.now }
{
    name.iter().position(|byte| matches!(*byte, b'n' | b'h'))
}

#[tactic(auto, unfolding(crate::specs::IdText::worker_read), using(std::proofs::lemmas::List::take_rest))]
#[inline(always)]
fn worker_of(name: &[u8]) -> Option<Who>
    ensures { result ≡ worker_read name.now }
{
    let letter = pool_letter(name)?;
    let cpu = CpuId(byte_of(&name[..letter])?);
    let index = byte_of(&name[letter + 1..])?;
    let pool = PoolId {
        cpu,
        high: name[letter] == b'h',
    };
    Some(Who::Worker(WorkerId { pool, index }))
}

/// A caller or a worker.
#[tactic(auto, unfolding(crate::specs::IdText::who_read))]
#[inline(always)]
pub fn who_in(words: &mut Words<'_>) -> Option<Who>
    ensures { with_left result words.new ≡ who_in words.old }
{
    words.note(Expected::Who);
    match words.letter()? {
        b'c' => caller_in(words),
        b'w' => worker_of(words.first()?),
        _ => None,
    }
}
