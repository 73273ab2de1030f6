//! Gates and locks, at which callers and runs wait.

ghost use Rattle.std.specs.Prelude.{◌≡◌, slice_set};
ghost use Rattle.cmwq_play.specs.Stands as spec;

use super::Play;
use cmwq_json_script::Holder;

fn is_same(one: Holder, other: Holder) -> bool
    ensures { result ≡ spec.is_same one other }
{
    match (one, other) {
        (Holder::Caller(one), Holder::Caller(other)) => one.0 == other.0,
        (Holder::Run(one), Holder::Run(other)) => one.0 == other.0,
        _ => false,
    }
}

impl<'a> Play<'a> {
    /// Which gates are open.
    pub fn gates(&self) -> &[bool]
        ensures { result.now ≡ self.now.gates }
    {
        &self.gates
    }

    /// Who holds each lock.
    pub fn locks(&self) -> &[Option<Holder>]
        ensures { result.now ≡ self.now.locks }
    {
        &self.locks
    }

    /// The callers that may be lent.
    pub fn free(&self) -> &[u8]
        ensures { result.now ≡ self.now.free }
    {
        &self.free
    }

    /// Whether a gate is open.
    pub(super) fn is_open(&self, gate: u8) -> bool
        ensures { result ≡ spec.is_open self.now gate }
    {
        match self.gates.get(usize::from(gate)) {
            Some(is_open) => *is_open,
            None => false,
        }
    }

    /// Opens a gate.
    pub(super) fn open(&mut self, gate: u8)
        ensures { self.new ≡ spec.opened self.old gate }
    {
        let gate = usize::from(gate);
        if gate < self.gates.len() {
            self.gates[gate] = true;
        }
    }

    /// Whether nobody holds a lock.
    pub(super) fn is_free(&self, lock: u8) -> bool
        ensures { result ≡ spec.is_free self.now lock }
    {
        match self.locks.get(usize::from(lock)) {
            Some(holder) => holder.is_none(),
            None => false,
        }
    }

    /// Who holds a lock.
    pub fn holder(&self, lock: u8) -> Option<Holder> {
        match self.locks.get(usize::from(lock)) {
            Some(holder) => *holder,
            None => None,
        }
    }

    /// Whether somebody holds a lock.
    pub fn holds_a_lock(&self) -> bool {
        self.locks.iter().any(|holder| holder.is_some())
    }

    fn holds(&self, holder: Holder, lock: u8) -> bool
        ensures { result ≡ spec.holds self.now holder lock }
    {
        match self.locks.get(usize::from(lock)) {
            Some(Some(held)) => is_same(holder, *held),
            _ => false,
        }
    }

    fn put_lock(&mut self, lock: u8, holder: Option<Holder>)
        ensures { self.new ≡ record self.old { locks = slice_set self.old.locks lock holder } }
    {
        let lock = usize::from(lock);
        if lock < self.locks.len() {
            self.locks[lock] = holder;
        }
    }

    /// This one holds a lock from now on.
    pub(super) fn lock(&mut self, holder: Holder, lock: u8)
        ensures { self.new ≡ spec.locked self.old holder lock }
    {
        self.put_lock(lock, Some(holder));
    }

    /// Lets a lock go. One that somebody else holds, or nobody, stays as it is; that is noted.
    pub(super) fn unlock(&mut self, holder: Holder, lock: u8)
        ensures { self.new ≡ spec.unlocked self.old holder lock }
    {
        if self.holds(holder, lock) {
            self.put_lock(lock, None);
        } else {
            self.noted.misuses(holder, lock);
        }
    }
}
