//! The renewals of a server that count.

ghost use Rattle.std.specs.Prelude.{◌≡◌, ◌<◌, ◌+◌, ◌%◌, ◌^◌, List, map, OnOk, ◌∷◌, []};
ghost use Rattle.size_least.specs.inside.Queue.{first_of, latest_of, HasRoom, CanPass, passed, after_first, told, turned};
ghost use Rattle.size_least.specs.declared.renewal.Renewal.{Renewal};

use std::alloc::{AllocError, Global};
use std::collections::VecDeque;
use std::marker::Model;

/// A renewal of the server at a release, played until now with each budget as late as it may be had.
#[derive(Clone, Copy)]
pub struct Renewal {
    /// The latest moment at which the work until now is done.
    pub finish: u64,

    /// What is left of the last budget.
    pub left: u64,
}

/// The moment that is as much earlier as a clock shows. Both wrap.
fn before(moment: u64, clock: u64) -> u64
    ensures { (result + clock) % 2 ^ 64 ≡ moment }
{
    moment.wrapping_sub(clock)
}

/// Renewals in a row, of which only the ends are looked at. All go on at once.
#[derive(Drop)]
pub(crate) struct Renewals {
    /// Each as it stands where both clocks show 0.
    kept: VecDeque<Renewal>,

    /// How much later each is done.
    later: u64,

    /// How much more is left of each budget.
    more: u64,
}

impl Model for Renewals {
    ghost Value = { List Renewal };

    ghost view = { λ r. map (told r.later r.more) r.kept.items };
}

impl Renewals {
    pub(crate) fn new(alloc: Global) -> Renewals
        ensures { result ≡ [] }
    {
        Renewals {
            kept: VecDeque::new(alloc),
            later: 0,
            more: 0,
        }
    }

    pub(crate) fn first(&self) -> Option<Renewal>
        ensures { result ≡ first_of self.now }
    {
        let first = self.kept.front()?;
        Some(Renewal {
            finish: first.finish.wrapping_add(self.later),
            left: first.left.wrapping_add(self.more),
        })
    }

    /// When the last of them is done; 0 where there is none.
    pub(crate) fn latest(&self) -> u64
        ensures { result ≡ latest_of self.now }
    {
        match self.kept.back() {
            Some(last) => last.finish.wrapping_add(self.later),
            None => 0,
        }
    }

    pub(crate) fn drop_first(&mut self)
        ensures { self.new ≡ after_first self.old }
    {
        let _first = self.kept.pop_front();
    }

    pub(crate) fn push_first(&mut self, renewal: Renewal) -> Result<(), AllocError>
        ensures { OnOk result (self.new ≡ renewal ∷ self.old) }
    {
        self.kept.push_front(Renewal {
            finish: before(renewal.finish, self.later),
            left: before(renewal.left, self.more),
        })?;
        Ok(())
    }

    /// Renews the first, which goes to the end.
    pub(crate) fn turn(&mut self, gap: u64, runtime: u64) -> Result<(), AllocError>
        requires { HasRoom gap runtime self.old }
        ensures { OnOk result (self.new ≡ turned gap runtime self.old) }
    {
        if let Some(first) = self.kept.pop_front() {
            self.kept.push_back(Renewal {
                finish: first.finish.wrapping_add(gap),
                left: first.left.wrapping_add(runtime),
            })?;
        }
        Ok(())
    }

    /// Lets all be done so much later, with so much of each budget used.
    pub(crate) fn pass(&mut self, time: u64, used: u64)
        requires { CanPass time used self.old }
        ensures { self.new ≡ map (passed time used) self.old }
    {
        self.later = self.later.wrapping_add(time);
        self.more = self.more.wrapping_sub(used);
    }

    /// Puts one in the place of all.
    pub(crate) fn replace_all(&mut self, renewal: Renewal) -> Result<(), AllocError>
        ensures { OnOk result (self.new ≡ renewal ∷ []) }
    {
        self.kept.clear();
        self.push_first(renewal)
    }
}
