//! Shapes, step by step.
ghost use Rattle.std.specs.Prelude.{◌≡◌, ◌+◌, ◌<◌, ◌++◌, ◌∷◌, [], true, IfOk, IfErr, IfSome, IfNone};
ghost use Rattle.cmwq_model.specs.Layout.{Layout, are_counts, are_queues};
ghost use Rattle.cmwq_service.specs.Misfits.{Misfits};
ghost use Rattle.cmwq_service.specs.Serving.{own_callers};

use cmwq_model::{
    Counts, MOST_CALLERS, MOST_CPUS, MOST_ITEMS, MOST_QUEUES, MOST_ROOM, MOST_WORKERS, NoMemory,
    QueueShape, Shape,
};
use std::alloc::Global;
use std::marker::Model;
use thiserror::Error;

/// The library's own callers: the one that comes at the end, and that of the clock.
pub(crate) const OWN_CALLERS: u8 = 2;

/// A queue of normal priority that lets one item at a time be active on a CPU, and is neither CPU intensive nor
/// freezable. Others are written from it: `QueueShape { max_active: 4, ..PLAIN }`.
pub const PLAIN: QueueShape = QueueShape {
    max_active: 1,
    high: false,
    intensive: false,
    freezable: false,
};

/// Why a shape can't be: the limit, and the value that isn't inside it.
#[derive(Clone, Copy, Debug, PartialEq, Eq, Error)]
pub enum Misfit {
    #[error("{0} CPUs, where there may be 1 to 64")]
    Cpus(u8),
    #[error("{0} workers of a pool, where there may be 1 to 64")]
    Workers(u8),
    #[error("{0} callers, where there may be 0 to 253")]
    Callers(u16),
    #[error("{0} items, where there may be 1 to 65,535")]
    Items(u16),
    #[error("a room of {0} entries, where 4611686018427387904 is the most")]
    Room(u64),
    #[error("{0} queues, where there may be 1 to 255")]
    Queues(usize),
    #[error("a max_active of {max_active} of queue {queue}, where 1 to 512 may be")]
    MaxActive { queue: usize, max_active: u16 },
}

/// What a shape is to be. Contracts see it as that, with the library's own callers.
#[derive(Debug, Drop)]
pub struct ShapeBuilder {
    cpus: u8,
    workers: u8,
    callers: u16,
    items: u16,
    room: u64,
    queues: Vec<QueueShape>,
}

impl Model for ShapeBuilder {
    ghost use Rattle.std.specs.Prelude.{◌+◌};
    ghost use Rattle.cmwq_model.specs.Layout.{Layout};
    ghost use Rattle.cmwq_service.specs.Serving.{own_callers};

    ghost Value = { Layout };

    ghost view = { λ b. record {
      cpus = b.cpus;
      workers = b.workers;
      callers = b.callers + own_callers;
      items = b.items;
      room =
          b.room;
      queues = b.queues.items;
    } };
}

impl ShapeBuilder {
    /// One CPU, one worker in each of its two pools, no callers, one item, no queues, and room for a history of 10,000
    /// entries.
    pub fn new(alloc: Global) -> ShapeBuilder
        ensures { result ≡ record {
          cpus = 1;
          workers = 1;
          callers = own_callers;
          items = 1;
          room = 10000;
          queues =
              [];
        } }
    {
        ShapeBuilder {
            cpus: 1,
            workers: 1,
            callers: 0,
            items: 1,
            room: 10_000,
            queues: Vec::new(alloc),
        }
    }

    /// So many CPUs, 1 to 64.
    pub fn cpus(self, cpus: u8) -> ShapeBuilder
        ensures { result ≡ record self { cpus = cpus } }
    {
        ShapeBuilder { cpus, ..self }
    }

    /// So many workers in each pool, 1 to 64. Each CPU has two pools, and each worker a thread.
    pub fn workers(self, workers: u8) -> ShapeBuilder
        ensures { result ≡ record self { workers = workers } }
    {
        ShapeBuilder { workers, ..self }
    }

    /// So many callers of the service, 0 to 253, each with a thread. The shape has two more: the library's own.
    pub fn callers(self, callers: u8) -> ShapeBuilder
        ensures { result ≡ record self { callers = callers + own_callers } }
    {
        ShapeBuilder {
            callers: u16::from(callers),
            ..self
        }
    }

    /// So many callers of the service, and so many that `run_with_waits` lends to runs that wait.
    /// Together they may be 253.
    pub fn callers_and_waits(self, callers: u8, waits: u8) -> ShapeBuilder
        ensures { result ≡ record self { callers = callers + waits + own_callers } }
    {
        ShapeBuilder {
            callers: u16::from(callers) + u16::from(waits),
            ..self
        }
    }

    /// So many items, 1 to 65,535.
    pub fn items(self, items: u16) -> ShapeBuilder
        ensures { result ≡ record self { items = items } }
    {
        ShapeBuilder { items, ..self }
    }

    /// Room for a history of so many entries, 2^62 at most.
    pub fn room(self, room: u64) -> ShapeBuilder
        ensures { result ≡ record self { room = room } }
    {
        ShapeBuilder { room, ..self }
    }

    /// One queue more; the first is queue 0. There may be 255, each with a max_active of 1 to 512.
    ///
    /// # Errors
    /// `NoMemory` where memory runs out.
    pub fn queue(self, queue: QueueShape) -> Result<ShapeBuilder, NoMemory>
        ensures { IfOk result (λ b. b ≡ record self { queues = self.queues ++ queue ∷ [] }) }
    {
        let mut queues = self.queues;
        if queues.push(queue).is_err() {
            return Err(NoMemory);
        }
        Ok(ShapeBuilder { queues, ..self })
    }

    /// The shape, if all is inside the limits.
    ///
    /// # Errors
    /// The first limit that isn't kept, in the order of the fields, and the value.
    pub fn build(self) -> Result<Shape, Misfit>
        ensures built { IfOk result (λ shape. shape ≡ self) }
        ensures misfit { IfErr result (Misfits self) }
    {
        if let Some(misfit) = self.misfit_of_counts() {
            return Err(misfit);
        }
        if let Some(misfit) = self.misfit_of_queues() {
            return Err(misfit);
        }
        let counts = Counts {
            cpus: self.cpus,
            workers: self.workers,
            callers: self.callers as u8 + OWN_CALLERS,
            items: self.items,
            room: self.room,
        };
        match Shape::new(counts, self.queues) {
            Some(shape) => Ok(shape),
            None => unreachable!(),
        }
    }

    fn misfit_of_counts(&self) -> Option<Misfit>
        ensures misfit { IfSome result (Misfits self.now) }
        ensures few { IfNone result (self.now.callers < 256) }
        ensures none { IfNone result
            (are_counts self.now.cpus self.now.workers self.now.callers self.now.items self.now.room ≡ true) }
    {
        if !(1..=MOST_CPUS).contains(&self.cpus) {
            return Some(Misfit::Cpus(self.cpus));
        }
        if !(1..=MOST_WORKERS).contains(&self.workers) {
            return Some(Misfit::Workers(self.workers));
        }
        if self.callers > u16::from(MOST_CALLERS - OWN_CALLERS) {
            return Some(Misfit::Callers(self.callers));
        }
        if !(1..=MOST_ITEMS).contains(&self.items) {
            return Some(Misfit::Items(self.items));
        }
        if self.room > MOST_ROOM {
            return Some(Misfit::Room(self.room));
        }
        None
    }

    fn misfit_of_queues(&self) -> Option<Misfit>
        ensures misfit { IfSome result (Misfits self.now) }
        ensures none { IfNone result (are_queues self.now.queues ≡ true) }
    {
        if !(1..=MOST_QUEUES).contains(&self.queues.len()) {
            return Some(Misfit::Queues(self.queues.len()));
        }
        for k in 0..self.queues.len() {
            let queue = self.queues[k];
            if !queue.is_allowed() {
                return Some(Misfit::MaxActive {
                    queue: k,
                    max_active: queue.max_active,
                });
            }
        }
        None
    }
}
