//! A hold of a hub's lock.

use cmwq_monitor::{Firing, Monitor, Wakes};
use cmwq_publish::HubName;
use std::sync::MutexGuard;

/// A hold of a hub's lock, and who is to be woken after it. It is not `Drop`, so that nobody who is named is forgotten:
/// it is left (`Hub::leave`), slept in (`Hub::sleep`), or lets others in (`Hub::let_in`).
pub(crate) struct Hold<'a, N: HubName> {
    pub(crate) monitor: MutexGuard<'a, Monitor<N>>,
    pub(crate) wakes: Wakes,
}

impl<'a, N: HubName> Hold<'a, N> {
    /// A hold that begins. Nobody is named.
    pub(crate) fn new(monitor: MutexGuard<'a, Monitor<N>>) -> Hold<'a, N> {
        Hold {
            monitor,
            wakes: Wakes::new(),
        }
    }

    /// A caller fires no more, if it might.
    pub(crate) fn ends_firing(&mut self, firing: Option<Firing>) {
        match firing {
            Some(firing) => self.monitor.ends_firing(firing, &mut self.wakes),
            None => {}
        }
    }
}
