//! How long a worker's runs were awake, and how long they slept.
ghost use Rattle.std.specs.Prelude.{◌≡◌, ◌<◌, vec_len};
ghost use Rattle.cmwq_summary.specs.Activities.{IsUpTo, MayAct, activities_after, activity_from, activity_in};
ghost use Rattle.cmwq_summary.specs.Activities.{doing_after, spent_until};
ghost use Rattle.cmwq_summary.specs.Figures.{worker_number};

use crate::key::worker_number;
use crate::span::{NO_TIME, Span};
use cmwq_model::{Entry, Reply, Who, WorkerId};

/// What a worker does.
#[derive(Clone, Copy, PartialEq, Eq)]
pub(crate) enum Doing {
    /// It has no run.
    Nothing,
    /// Its run is awake.
    Runs,
    /// Its run sleeps.
    Sleeps,
}

impl Doing {
    /// What it does after an entry of its own with this reply.
    pub(crate) fn after(self, reply: Reply) -> Doing
        ensures { result ≡ doing_after reply self }
    {
        match reply {
            Reply::Started(_) | Reply::StartedEnlist(..) | Reply::Woke => Doing::Runs,
            Reply::Slept => Doing::Sleeps,
            Reply::Finished(_) => Doing::Nothing,
            _ => self,
        }
    }
}

/// How long a worker's runs were awake, and how long they slept.
#[derive(Clone, Copy, PartialEq, Eq)]
pub struct Spent {
    pub awake: Span,
    pub asleep: Span,
}

/// What a worker does, since when, and how long its runs were awake and asleep until then.
#[derive(Clone, Copy)]
pub(crate) struct Activity {
    pub(crate) doing: Doing,
    pub(crate) since: Span,
    pub(crate) spent: Spent,
}

/// A worker that never had a run.
pub(crate) const IDLE: Activity = Activity {
    doing: Doing::Nothing,
    since: NO_TIME,
    spent: Spent {
        awake: NO_TIME,
        asleep: NO_TIME,
    },
};

impl Activity {
    /// How long its runs were awake and asleep until now.
    pub(crate) fn until(&self, now: Span) -> Spent
        requires { IsUpTo self.now now }
        ensures { result ≡ spent_until self.now now }
    {
        let Spent { awake, asleep } = self.spent;
        match self.doing {
            Doing::Nothing => self.spent,
            Doing::Runs => Spent {
                awake: awake.plus(self.since.until(now)),
                asleep,
            },
            Doing::Sleeps => Spent {
                awake,
                asleep: asleep.plus(self.since.until(now)),
            },
        }
    }

    /// Begins to do something now.
    pub(crate) fn begin(&mut self, now: Span, doing: Doing)
        requires { IsUpTo self.old now }
        ensures { self.new ≡ activity_from self.old now doing }
    {
        *self = Activity {
            doing,
            since: now,
            spent: self.until(now),
        };
    }
}

/// What is kept of a worker.
pub(crate) fn activity_in(activities: &Vec<Activity>, worker: WorkerId) -> Activity
    requires { worker_number worker < vec_len activities.now }
    ensures { result ≡ activity_in activities.now.items worker }
{
    activities[worker_number(worker)]
}

/// An entry of a worker may change what it does.
pub(crate) fn act(activities: &mut Vec<Activity>, entry: &Entry, now: Span)
    requires { MayAct entry.now.who activities.old.items now }
    ensures { activities.new.items ≡ activities_after activities.old.items entry.now now }
{
    if let Who::Worker(worker) = entry.who {
        let at = worker_number(worker);
        if at < activities.len() {
            let doing = activities[at].doing.after(entry.reply);
            activities[at].begin(now, doing);
        }
    }
}
