ghost use Rattle.std.specs.Prelude.{◌≡◌};
ghost use Rattle.cmwq_pool.specs.Slots.{new_slot, slot_has_run, slot_runs_awake, slot_runs_asleep, slot_is_idle};
ghost use Rattle.cmwq_pool.specs.Slots.{slot_is_occupied, slot_is_holding, slot_runs};

use crate::task::Task;

/// A worker in its pool.
#[derive(Clone, Copy)]
pub struct Slot {
    /// Whether the worker is one of those that start queueings, and not of the reserve.
    pub enlisted: bool,
    /// What it runs.
    pub run: Option<Task>,
    /// Whether its run sleeps.
    pub asleep: bool,
}

impl Slot {
    /// The slot of the worker with this index in a new pool, where worker 0 alone is enlisted.
    pub(crate) fn new(worker: u8) -> Slot
        ensures { result ≡ new_slot worker }
    {
        Slot {
            enlisted: worker == 0,
            run: None,
            asleep: false,
        }
    }

    /// Whether the worker is enlisted and has no run, so that it may start a queueing.
    pub fn is_idle(&self) -> bool
        ensures { result ≡ slot_is_idle self.now }
    {
        self.enlisted && self.run.is_none()
    }

    /// Whether the worker has a run.
    pub(crate) fn has_run(&self) -> bool
        ensures { result ≡ slot_has_run self.now }
    {
        self.run.is_some()
    }

    /// Whether the worker has a run that is awake, which may sleep and end.
    pub fn runs_awake(&self) -> bool
        ensures { result ≡ slot_runs_awake self.now }
    {
        self.run.is_some() && !self.asleep
    }

    /// Whether the worker has a run that sleeps, which may only wake up.
    pub fn runs_asleep(&self) -> bool
        ensures { result ≡ slot_runs_asleep self.now }
    {
        self.run.is_some() && self.asleep
    }

    /// Whether the worker is enlisted and has a run.
    pub(crate) fn is_occupied(&self) -> bool
        ensures { result ≡ slot_is_occupied self.now }
    {
        self.enlisted && self.run.is_some()
    }

    /// Whether it runs this item.
    pub(crate) fn runs(&self, item: u32) -> bool
        ensures { result ≡ slot_runs item self.now }
    {
        self.run.is_some_and(|task| u32::from(task.item.0) == item)
    }

    /// Whether its run is awake and not CPU intensive, so that it keeps others from starting.
    pub(crate) fn is_holding(&self) -> bool
        ensures { result ≡ slot_is_holding self.now }
    {
        !self.asleep && self.run.is_some_and(|task| !task.intensive)
    }
}
