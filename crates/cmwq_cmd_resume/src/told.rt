//! What is told of the runs that were broken off, and of the waits that nobody takes up again.

ghost use Rattle.std.specs.Prelude.{◌≡◌, ◌<◌};

use cmwq_base::{Call, CallerId, ItemId, Number, Queueing, Shape, Sink, Ticket, tell};
use cmwq_state::State;
use std::fmt::{self, Display, Formatter};

/// How many tickets a caller may have.
const OF_CALLER: usize = 64;

/// What becomes of a run that was broken off.
#[derive(Clone, Copy)]
enum Fate {
    RunsAgain,
    WasQueuedAgain,
    WasBookedAgain,
    WasCancelled,
    IsLeftOut,
}

impl Display for Fate {
    fn fmt<W: fmt::Write>(&self, f: &mut Formatter<W>) -> fmt::Result {
        f.write_str(match self {
            Fate::RunsAgain => "runs again",
            Fate::WasQueuedAgain => "runs as it was queued again",
            Fate::WasBookedAgain => "runs when its booking is due",
            Fate::WasCancelled => "is cancelled",
            Fate::IsLeftOut => "is left out",
        })
    }
}

/// A run that was broken off.
#[derive(Clone, Copy)]
struct BrokenOff {
    run: Queueing,
    fate: Fate,
}

impl Display for BrokenOff {
    fn fmt<W: fmt::Write>(&self, f: &mut Formatter<W>) -> fmt::Result {
        let BrokenOff { run, fate } = self;
        write!(
            f,
            "item {}, queueing {}: broken off, {fate}",
            run.item.0, run.number
        )
    }
}

/// A wait that nobody takes up again.
#[derive(Clone, Copy)]
struct Waited(Ticket);

impl Waited {
    /// The word of the call, and the number of its queue or item.
    fn call(&self) -> (&'static str, u16) {
        match self.0.call {
            Call::Flush { queue } => ("flush", queue.0.into()),
            Call::Drain { queue } => ("drain", queue.0.into()),
            Call::Destroy { queue } => ("destroy", queue.0.into()),
            Call::FlushItem { item } => ("flush_item", item.0),
            Call::FlushDelayed { item } => ("flush_delayed", item.0),
            Call::CancelSync { item } => ("cancel_sync", item.0),
            _ => ("end", 0),
        }
    }
}

impl Display for Waited {
    fn fmt<W: fmt::Write>(&self, f: &mut Formatter<W>) -> fmt::Result {
        let (word, number) = self.call();
        write!(
            f,
            "caller c{}: ticket {}, {word} {number}: nobody waits",
            self.0.caller.0, self.0.number
        )
    }
}

fn is_left_out(left_out: &[bool], item: ItemId) -> bool {
    left_out.get(usize::from(item.0)).copied().unwrap_or(false)
}

/// What becomes of the run of an item that was broken off.
fn fate_of(state: &State, left_out: &[bool], item: ItemId) -> Fate
    requires { item.0 < state.now.layout.items }
{
    if state.is_booked(item) {
        Fate::WasBookedAgain
    } else if state.unstarted(item).is_some() {
        Fate::WasQueuedAgain
    } else if state.is_cancelling(item) {
        Fate::WasCancelled
    } else if is_left_out(left_out, item) {
        Fate::IsLeftOut
    } else {
        Fate::RunsAgain
    }
}

fn tell_run<E: Sink>(errors: &mut E, state: &State, left_out: &[bool], item: ItemId)
    requires { item.0 < state.now.layout.items }
{
    if let Some(run) = state.item_run(item) {
        let fate = fate_of(state, left_out, item);
        tell(errors, BrokenOff { run, fate });
    }
}

fn tell_waits<E: Sink>(errors: &mut E, state: &State, caller: CallerId)
    requires { caller.0 < state.now.layout.callers }
{
    for index in 0..OF_CALLER {
        match state.unended(caller, index) {
            Some(ticket) => tell(errors, Waited(ticket)),
            None => return,
        }
    }
}

/// Tells of each run that was broken off what becomes of it, and of each wait that it is over. Takes no memory; a
/// failing sink changes nothing.
pub(crate) fn tell_left<E: Sink>(errors: &mut E, shape: &Shape, state: &State, left_out: &[bool])
    requires { shape.now ≡ state.now.layout }
{
    let counts = shape.counts();
    for item in 0..counts.items {
        tell_run(errors, state, left_out, ItemId(item));
    }
    for caller in 0..counts.callers {
        tell_waits(errors, state, CallerId(caller));
    }
}

/// Tells how many bytes of an unfinished last line were left out, if any were. Takes no memory; a failing sink changes
/// nothing.
pub(crate) fn tell_left_out<E: Sink>(errors: &mut E, bytes: usize) {
    match bytes {
        0 => {}
        1 => tell(errors, "left out the last byte, an unfinished line"),
        _ => tell(
            errors,
            format_args!("left out the last {bytes} bytes, an unfinished line"),
        ),
    }
}
