//! How the threads of a service tell one another that it ends.

use crate::fault::Fault;
use cmwq_rt::{Completion, Hub, HubName};
use std::sync::{Mutex, Wait};
use std::time::{Clock, Duration};

#[derive(Clone, Copy, Drop)]
struct State {
    callers: u8,
    fault: Option<Fault>,
}

/// How many of a service's callers have not ended, whether it is over, and the first fault that was told. Who tells a
/// fault fails the hub too, so that all who wait go on.
#[derive(Drop)]
pub(crate) struct Signal {
    state: Mutex<State>,
    /// The service's callers have ended.
    left: Completion,
    over: Completion,
}

impl Signal {
    /// That of a service with so many callers.
    pub(crate) fn new(callers: u8) -> Signal {
        Signal {
            state: Mutex::new(State {
                callers,
                fault: None,
            }),
            left: Completion::new(),
            over: Completion::new(),
        }
    }

    /// A fault is told. Only the first one is kept.
    pub(crate) fn fail<R: Wait>(&self, rt: &R, fault: Fault) {
        let mut state = self.state.lock(rt);
        if state.fault.is_none() {
            state.fault = Some(fault);
        }
    }

    /// The service is over, and the clock stops.
    pub(crate) fn end<N: HubName, R: Wait>(&self, rt: &R, hub: &Hub<N>) {
        hub.complete_all(rt, &self.over);
    }

    /// One of the service's callers has ended. Returns how many have not.
    fn count_down<R: Wait>(&self, rt: &R) -> u8 {
        let mut state = self.state.lock(rt);
        state.callers = state.callers.saturating_sub(1);
        state.callers
    }

    /// One of the service's callers has ended.
    pub(crate) fn leave<N: HubName, R: Wait>(&self, rt: &R, hub: &Hub<N>) {
        if self.count_down(rt) == 0 {
            hub.complete_all(rt, &self.left);
        }
    }

    /// Whether the service has callers that have not ended.
    fn has_callers<R: Wait>(&self, rt: &R) -> bool {
        self.state.lock(rt).callers > 0
    }

    /// Sleeps until all callers of the service have ended, or the hub has failed, and returns whether no fault was
    /// told.
    pub(crate) fn have_left<N: HubName, R: Wait>(&self, rt: &R, hub: &Hub<N>) -> bool {
        if self.has_callers(rt) && hub.wait_for(rt, &self.left).is_err() {
            return false;
        }
        self.fault(rt).is_none()
    }

    /// Sleeps for so long, or until the service is over, and returns whether it is.
    pub(crate) fn is_over_within<N: HubName, R: Wait + Clock>(
        &self,
        rt: &R,
        hub: &Hub<N>,
        time: Duration,
    ) -> bool {
        hub.wait_for_within(rt, &self.over, time).unwrap_or(true)
    }

    /// The first fault that was told.
    pub(crate) fn fault<R: Wait>(&self, rt: &R) -> Option<Fault> {
        self.state.lock(rt).fault
    }
}
