//! The lines that stand before the entries of a history.
ghost use Rattle.std.specs.Prelude.{◌≡◌, ◌≢◌, ◌⊎◌, ◌<◌, false, true, IfOk, length};
ghost use Rattle.cmwq_io.specs.Memory.{bytes_of};
ghost use Rattle.cmwq_model.specs.Prelude.{is_layout};
ghost use Rattle.cmwq_text.specs.HistoryText.{head_text};
ghost use Rattle.cmwq_c.specs.Numbers.{shape_of};
ghost use Rattle.cmwq_c.specs.Statuses.{IsTextWritten};

use crate::numbers::{QueueNumbers, ShapeNumbers, queues_of};
use crate::status::{DONE, NO_MEMORY, REFUSED, SHORT};
use crate::taken::put;
use cmwq_base::write_shape;
use cmwq_io::Memory;
use cmwq_model::{NoMemory, Shape};
use std::alloc::Global;

/// The format of the history.
const FORMAT: u8 = 3;

/// As many bytes as the longest line has, and more.
const LINE: usize = 256;

/// The lines of this shape. The error says that memory ran out.
fn head_of(alloc: Global, shape: &Shape) -> Result<Memory<Vec<u8>>, NoMemory>
    ensures { IfOk result (λ text. (bytes_of text).items ≡ head_text 3 shape.now) }
{
    let lines = shape.queues().len().saturating_add(2);
    let room = lines.saturating_mul(LINE);
    let mut text = Memory::writer(alloc, room)?;
    match write_shape(&mut text, FORMAT, shape) {
        Ok(()) => Ok(text),
        Err(_) => Err(NoMemory),
    }
}

/// Writes the lines that begin a history of this shape.
pub fn head(
    alloc: Global,
    shape: &ShapeNumbers,
    queues: &[QueueNumbers],
    out: &mut [u8],
    written: &mut usize,
) -> u32
    ensures text { result ≡ 0
        → IsTextWritten (head_text 3 (shape_of shape.now queues.now)) written.new out.old out.new }
    ensures inside { result ≡ 0 → is_layout (shape_of shape.now queues.now) ≡ true }
    ensures status { (result ≡ 0) ⊎ ((result ≡ 1) × (is_layout (shape_of shape.now queues.now) ≡ false))
        ⊎ (result ≡ 4) ⊎ ((result ≡ 5) × (length out.old < length (head_text 3 (shape_of shape.now queues.now)))) }
    ensures kept { result ≢ 0 → (out.new ≡ out.old) × (written.new ≡ written.old) }
{
    let Ok(settings) = queues_of(alloc, queues) else {
        return NO_MEMORY;
    };
    let Some(inside) = Shape::new(shape.counts(), settings) else {
        return REFUSED;
    };
    let Ok(text) = head_of(alloc, &inside) else {
        return NO_MEMORY;
    };
    match put(text.as_slice(), out) {
        Some(n) => {
            *written = n;
            DONE
        }
        None => SHORT,
    }
}
