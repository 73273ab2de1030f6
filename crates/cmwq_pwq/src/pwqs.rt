ghost use Rattle.std.specs.Prelude.{◌≡◌, ℕ, ◌+◌, ◌*◌, ◌<◌, ◌≤◌, true, false, [], length, IfOk, IfSome};
ghost use Rattle.cmwq_model.specs.Prelude.{most_cpus};
ghost use Rattle.cmwq_pwq.specs.Pwqs.{AreBehind, ArePlaced, IsPassed, IsPlacedIf, PwqState, MayEnd, MayEndInPwqs};
ghost use Rattle.cmwq_pwq.specs.Pwqs.{IsNumberOfItem};
ghost use Rattle.cmwq_pwq.specs.Pwqs.{MayOpen, MayOpenInPwqs, NoneWaitsAnew, count_of_same_pwq, pwqs_without_open};
ghost use Rattle.cmwq_pwq.specs.Pwqs.{is_waiting, new_pwq_state, pwqs_with_open, place_of, pwqs_after_end};
ghost use Rattle.cmwq_pwq.specs.Pwqs.{pwqs_after_opening, width_by};

use crate::pass::{pass, place_of, width_by};
use crate::waiting::Waiting;
use cmwq_model::{MOST_CPUS, NoMemory, QueueShape, Queueing};
use std::alloc::Global;
use std::marker::Model;

/// What waits to become active, and how many queueings are active of each queue on each CPU (the kernel's
/// `inactive_works` and `nr_active`). Only `new` takes memory.
#[derive(Drop)]
pub struct Pwqs {
    counts: Vec<u32>,
    waiting: Waiting,
    activated: Vec<Queueing>,
}

impl Model for Pwqs {
    ghost use Rattle.std.specs.Prelude.{vec_capacity};
    ghost use Rattle.cmwq_pwq.specs.Pwqs.{PwqState, IsPwqState};

    ghost Value = { PwqState };

    ghost view = { λ l. record {
      items = l.waiting.items;
      counts = l.counts.items;
      waiting = l.waiting.queueings;
      activated =
          l.activated.items;
    } };

    ghost invariant = { λ l. IsPwqState l.waiting.items l.waiting.places l.counts.items (vec_capacity l.activated) };
}

impl Pwqs {
    /// Nothing waits and nothing is active of so many queues and items. The error says that memory ran out.
    pub fn new(alloc: Global, queues: usize, items: u16) -> Result<Pwqs, NoMemory>
        requires { queues ≤ 256 }
        ensures { IfOk result (λ pwqs. pwqs ≡ new_pwq_state queues items) }
    {
        let places = usize::from(MOST_CPUS) * queues;
        Ok(Pwqs {
            counts: vec![in alloc; 0; places]?,
            waiting: Waiting::new(alloc, places as u16, items)?,
            activated: Vec::with_capacity(alloc, usize::from(items) + 1)?,
        })
    }

    /// Makes these a copy of the others, which are of as many queues and items. What the last pass made active is
    /// forgotten. No memory is taken.
    pub fn copy_from(&mut self, other: &Pwqs)
        requires items { self.old.items ≡ other.now.items }
        requires queues { length self.old.counts ≡ length other.now.counts }
        ensures { self.new ≡ record other.now { activated = [] } }
    {
        self.counts.copy_from_slice(&other.counts);
        self.waiting.copy_from(&other.waiting);
        self.activated.clear();
    }

    /// A queueing is opened, and waits after the others.
    pub fn open(&mut self, queueing: Queueing)
        requires { MayOpen queueing self.old }
        ensures { self.new ≡ pwqs_with_open self.old queueing }
    {
        self.waiting.push_back(queueing);
    }

    /// A queueing ends: it waits no more, or else is active no more.
    pub fn end(&mut self, queueing: Queueing)
        requires { MayEnd queueing self.old }
        ensures { self.new ≡ pwqs_without_open self.old queueing }
    {
        if !self.waiting.take(queueing) {
            self.counts[place_of(queueing.place)] -= 1;
        }
    }

    /// An active queueing ends: the first that waits beside it takes its place, unless more than the width were active
    /// there.
    #[inline(always)]
    fn end_active(&mut self, queueing: Queueing, width: u32)
        requires cpu { queueing.place.cpu.0 < most_cpus }
        requires place { place_of queueing.place.queue.0 queueing.place.cpu.0 < length self.old.counts }
        requires active { is_waiting self.old queueing ≡ false }
        requires counted { 0 < count_of_same_pwq self.old.counts queueing }
        requires none { self.old.activated ≡ [] }
        ensures few { length self.new.activated ≤ 1 }
        ensures none_anew { NoneWaitsAnew self.old.waiting self.new.waiting }
        ensures passed { (wide : ℕ → ℕ) → wide queueing.place.queue.0 ≡ width
            → AreBehind wide self.old.counts self.old.waiting
            → IsPassed wide (pwqs_without_open self.old queueing) self.new }
    {
        let at = place_of(queueing.place);
        if self.counts[at] <= width {
            match self.waiting.take_first(queueing.place) {
                Some(next) => {
                    self.activated.push_reserved(next);
                    return;
                }
                None => {}
            }
        }
        self.counts[at] -= 1;
    }

    /// A queueing ends, and makes room for the first that waits on its pool workqueue where it was active.
    #[inline(always)]
    fn end_one(&mut self, queueing: Queueing, has_run: bool, width: u32)
        requires cpu { queueing.place.cpu.0 < most_cpus }
        requires may { MayEnd queueing self.old }
        requires ran { has_run ≡ true → is_waiting self.old queueing ≡ false }
        requires none { self.old.activated ≡ [] }
        ensures passed { (wide : ℕ → ℕ) → wide queueing.place.queue.0 ≡ width
            → AreBehind wide self.old.counts self.old.waiting
            → IsPassed wide (pwqs_without_open self.old queueing) self.new }
        ensures few { length self.new.activated ≤ 1 }
        ensures none_anew { NoneWaitsAnew (pwqs_without_open self.old queueing).waiting self.new.waiting }
    {
        if has_run || !self.waiting.take(queueing) {
            self.end_active(queueing, width);
        }
    }

    /// A queueing is opened, after all that wait: it is active at once where fewer than the width are active on its
    /// pool workqueue.
    #[inline(always)]
    fn open_one(&mut self, queueing: Queueing, width: u32)
        requires may { MayOpen queueing self.old }
        requires few { length self.old.activated ≤ 1 }
        ensures { (wide : ℕ → ℕ) (before : PwqState) → wide queueing.place.queue.0 ≡ width
            → length before.counts ≡ length self.old.counts → IsPassed wide before self.old
            → IsPassed wide (pwqs_with_open before queueing) self.new }
    {
        let at = place_of(queueing.place);
        if self.counts[at] < width {
            self.counts[at] += 1;
            self.activated.push_reserved(queueing);
        } else {
            self.waiting.push_back(queueing);
        }
    }

    /// A queueing ends, if there is one, and makes room where it was active.
    #[inline(always)]
    fn end_some(
        &mut self,
        queues: &[QueueShape],
        most: &[u32],
        frozen: bool,
        ended: Option<Queueing>,
        has_run: bool,
    )
        requires most { length most.now ≡ length queues.now }
        requires ended { MayEndInPwqs ended self.old }
        requires placed { IsPlacedIf (length queues.now) ended }
        requires ran { has_run ≡ true → IfSome ended (λ x. is_waiting self.old x ≡ false) }
        requires behind { AreBehind (width_by queues.now most.now frozen) self.old.counts self.old.waiting }
        ensures passed { IsPassed (width_by queues.now most.now frozen) (pwqs_after_end ended self.old) self.new }
        ensures few { length self.new.activated ≤ 1 }
        ensures none_anew { NoneWaitsAnew (pwqs_after_end ended self.old).waiting self.new.waiting }
    {
        self.activated.clear();
        match ended {
            Some(queueing) => {
                let width = width_by(queues, most, frozen, queueing.place.queue);
                self.end_one(queueing, has_run, width);
            }
            None => {}
        }
    }

    /// An entry that changes no width ends a queueing, which had a run or not, and opens one. What is below max_active
    /// then becomes active: the first that waits beside an active one that ends, and what is opened, for wherever
    /// others wait the widths are filled.
    #[inline(always)]
    pub fn go_on(
        &mut self,
        queues: &[QueueShape],
        most: &[u32],
        frozen: bool,
        ended: Option<Queueing>,
        has_run: bool,
        opened: Option<Queueing>,
    )
        requires most { length most.now ≡ length queues.now }
        requires counts { length self.old.counts ≡ most_cpus * length queues.now }
        requires ended { MayEndInPwqs ended self.old }
        requires ended_placed { IsPlacedIf (length queues.now) ended }
        requires ran { has_run ≡ true → IfSome ended (λ x. is_waiting self.old x ≡ false) }
        requires opened { MayOpenInPwqs opened (pwqs_after_end ended self.old) }
        requires opened_placed { IsPlacedIf (length queues.now) opened }
        requires behind { AreBehind (width_by queues.now most.now frozen) self.old.counts self.old.waiting }
        ensures { IsPassed (width_by queues.now most.now frozen)
            (pwqs_after_opening opened (pwqs_after_end ended self.old)) self.new }
    {
        self.end_some(queues, most, frozen, ended, has_run);
        match opened {
            Some(queueing) => {
                let width = width_by(queues, most, frozen, queueing.place.queue);
                self.open_one(queueing, width);
            }
            None => {}
        }
    }

    /// What is below max_active becomes active, by number: where fewer than the width are active on its pool workqueue.
    pub fn pass(&mut self, queues: &[QueueShape], most: &[u32], frozen: bool)
        requires most { length most.now ≡ length queues.now }
        requires counts { length self.old.counts ≡ most_cpus * length queues.now }
        requires placed { ArePlaced (length queues.now) self.old.waiting }
        ensures { IsPassed (width_by queues.now most.now frozen) self.old self.new }
    {
        self.activated.clear();
        pass(
            queues,
            most,
            frozen,
            &mut self.waiting,
            &mut self.counts,
            &mut self.activated,
        );
    }

    /// Whether a queueing waits to become active (`inactive_works`).
    pub fn waits(&self, queueing: Queueing) -> bool
        requires item { queueing.item.0 < self.now.items }
        requires number { IsNumberOfItem queueing self.now.waiting }
        ensures { result ≡ is_waiting self.now queueing }
    {
        self.waiting.waits(queueing)
    }

    /// How many wait.
    pub fn len(&self) -> u32
        ensures { result ≡ length self.now.waiting }
    {
        self.waiting.len()
    }

    /// How many are active of each queue on each CPU: `MOST_CPUS` numbers a queue.
    pub fn counts(&self) -> &[u32]
        ensures { result.now ≡ self.now.counts }
    {
        &self.counts
    }

    /// What the last pass made active.
    pub fn activated(&self) -> &[Queueing]
        ensures { result.now ≡ self.now.activated }
    {
        &self.activated
    }
}
