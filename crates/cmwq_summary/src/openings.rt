//! When the queueings were opened that have not started.
ghost use Rattle.std.specs.Prelude.{◌≡◌, replicate, IfOk};
ghost use Rattle.cmwq_summary.specs.Openings.{span_at, wait_at_start, with_opening};
ghost use Rattle.cmwq_summary.specs.declared.span.TheConstants as constants;

use crate::span::{NO_TIME, Span};
use cmwq_model::{NoMemory, Queueing};
use std::alloc::Global;
use std::marker::Model;

/// By item, after which entry and at which tick it was queued last.
#[derive(Drop)]
pub(crate) struct Openings {
    moments: Vec<Span>,
}

impl Model for Openings {
    ghost use Rattle.std.specs.Prelude.{List};
    ghost use Rattle.cmwq_summary.specs.declared.span.Span.{Span};

    ghost Value = { List Span };

    ghost view = { λ o. o.moments.items };
}

impl Openings {
    /// Those of so many items that were never queued. The error says that memory ran out.
    pub(crate) fn new(alloc: Global, items: usize) -> Result<Openings, NoMemory>
        ensures { IfOk result (λ openings. openings ≡ replicate items constants.NO_TIME) }
    {
        Ok(Openings {
            moments: vec![in alloc; NO_TIME; items]?,
        })
    }

    /// How long the queueing waited that starts now, if one does.
    pub(crate) fn waited(&self, started: Option<Queueing>, now: Span) -> Span
        ensures { result ≡ wait_at_start self.now started now }
    {
        match started {
            Some(queueing) => self.at(queueing).until(now),
            None => NO_TIME,
        }
    }

    /// When the queueing's item was queued last.
    fn at(&self, queueing: Queueing) -> Span
        ensures { result ≡ span_at self.now queueing.item.0 }
    {
        let item = usize::from(queueing.item.0);
        if item < self.moments.len() {
            self.moments[item]
        } else {
            NO_TIME
        }
    }

    /// A queueing is opened now, if one is.
    pub(crate) fn add(&mut self, opened: Option<Queueing>, now: Span)
        ensures { self.new ≡ with_opening self.old opened now }
    {
        if let Some(queueing) = opened {
            let item = usize::from(queueing.item.0);
            if item < self.moments.len() {
                self.moments[item] = now;
            }
        }
    }
}
