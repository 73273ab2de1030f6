//! What went wrong at a lock.
ghost use Rattle.std.specs.Prelude.{◌≤◌, length, map, string_bytes, IfSome};
ghost use Rattle.cmwq_json_script.specs.Scripts.{run_of};
ghost use Rattle.cmwq_cmd_run.specs.Run.{IsHolder, IsLockFault, IsNamed};

use crate::locks::{Holding, Locks};
use arrayvec::ArrayString;
use cmwq_json_script::{Holder, Script};
use cmwq_model::CallerId;
use std::fmt;
use std::fmt::{Display, Formatter, Write};
use std::sync::Wait;

/// The name of a lock or of an item: at most 16 bytes.
type Name = ArrayString<16>;

/// Who holds a lock, or let one go: a caller, or an item by its name.
#[derive(Clone, Copy, Debug, PartialEq, Eq)]
pub enum HolderName {
    Caller(CallerId),
    Item(Name),
}

/// What went wrong at a lock.
#[derive(Clone, Copy, Debug, PartialEq, Eq)]
pub enum LockFault {
    /// Somebody looked at it in vain.
    Missed { lock: Name },
    /// It was let go by one who did not hold it.
    Misused { lock: Name, by: HolderName },
    /// It was held when the run had ended.
    Held { lock: Name, by: HolderName },
}

impl Display for HolderName {
    fn fmt<W: Write>(&self, f: &mut Formatter<W>) -> fmt::Result {
        match self {
            HolderName::Caller(caller) => write!(f, "caller c{}", caller.0),
            HolderName::Item(name) => write!(f, "item {name}"),
        }
    }
}

impl Display for LockFault {
    fn fmt<W: Write>(&self, f: &mut Formatter<W>) -> fmt::Result {
        match self {
            LockFault::Missed { lock } => write!(f, "lock {lock} was not unlocked"),
            LockFault::Misused { lock, by } => {
                write!(f, "lock {lock} was unlocked by {by}, which did not hold it")
            }
            LockFault::Held { lock, by } => write!(f, "lock {lock} is held by {by} at the end"),
        }
    }
}

/// The name with this number.
fn name_at(names: &[String], number: usize) -> Option<Name>
    ensures { IfSome result (λ name. IsNamed (map string_bytes names.now) name.bytes) }
{
    match Name::from(names.get(number)?.as_str()) {
        Ok(name) => Some(name),
        Err(_) => None,
    }
}

/// Who this is, by the names of the items of a script.
fn name_of(script: &Script, holder: Holder) -> Option<HolderName>
    ensures { IfSome result (IsHolder (run_of script.now)) }
{
    match holder {
        Holder::Caller(caller) if usize::from(caller.0) < script.callers.len() => {
            Some(HolderName::Caller(caller))
        }
        Holder::Caller(_) => None,
        Holder::Run(item) => Some(HolderName::Item(name_at(&script.names, usize::from(item.0))?)),
    }
}

/// The first lock, in the order of their first use, that somebody looked at in vain.
fn missed<R: Wait>(rt: &R, locks: &Locks, script: &Script) -> Option<LockFault>
    requires { length script.now.locks.items ≤ 16 }
    ensures { IfSome result (IsLockFault (run_of script.now)) }
{
    for number in 0..script.locks.len() {
        if locks.was_missed(rt, number as u8) {
            let lock = name_at(&script.locks, number)?;
            return Some(LockFault::Missed { lock });
        }
    }
    None
}

/// The first unlock by one who did not hold the lock.
fn misused<R: Wait>(rt: &R, locks: &Locks, script: &Script) -> Option<LockFault>
    ensures { IfSome result (IsLockFault (run_of script.now)) }
{
    let Holding { lock, holder } = locks.misuse(rt)?;
    Some(LockFault::Misused {
        lock: name_at(&script.locks, usize::from(lock))?,
        by: name_of(script, holder)?,
    })
}

/// The first lock, in the order of their first use, that somebody holds.
fn held<R: Wait>(rt: &R, locks: &Locks, script: &Script) -> Option<LockFault>
    requires { length script.now.locks.items ≤ 16 }
    ensures { IfSome result (IsLockFault (run_of script.now)) }
{
    for number in 0..script.locks.len() {
        if let Some(holder) = locks.holder(rt, number as u8) {
            let lock = name_at(&script.locks, number)?;
            let by = name_of(script, holder)?;
            return Some(LockFault::Held { lock, by });
        }
    }
    None
}

/// What went wrong at the locks of a run that has ended: the first that was looked at in vain, or else the first unlock
/// by one who did not hold the lock, or else the first that is held.
pub fn fault_of_locks<R: Wait>(rt: &R, locks: &Locks, script: &Script) -> Option<LockFault>
    requires { length script.now.locks.items ≤ 16 }
    ensures { IfSome result (IsLockFault (run_of script.now)) }
{
    if let Some(fault) = missed(rt, locks, script) {
        return Some(fault);
    }
    match misused(rt, locks, script) {
        Some(fault) => Some(fault),
        None => held(rt, locks, script),
    }
}
