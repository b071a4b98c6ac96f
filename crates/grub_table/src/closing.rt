//! A table is closed: its last readings.
ghost use Rattle.std.specs.Prelude.{◌≡◌, ◌<◌, ◌≤◌, IfOk, IfErr, OnOk, length};
ghost use Rattle.std.specs.List.{All};
ghost use Rattle.grub_table.specs.Calls.{terms, IsPassOf, IsClosed, IsRefusal};

use crate::fault::{CloseFault, CloseWhy};
use crate::pass::Pass;
use crate::row::{SPACING, reading_in};
use crate::seated::Seated;
use crate::shared::Shared;
use grub_book::Reading;
use std::alloc::Global;

impl Shared {
    /// The reading of each runqueue at the end, in order, in 1/2^20.
    /// `Missing` (26) is answered where passes of the table are not there, and `NoMemory` (42) is meant for a growth that was
    /// refused, which no clause tells. Both give all back.
    pub fn close(self, alloc: Global, passes: Vec<Pass>) -> Result<Vec<Reading>, CloseFault>
        requires { All (IsPassOf self) passes.items }
        ensures closed { IfOk result (λ readings. IsClosed self passes.items readings.items) }
        ensures all { OnOk result ((terms self).passes ≤ length passes.items) }
        ensures refused { IfErr result (λ f. IsRefusal self passes.items f) }
    {
        let count = passes.len();
        if count < self.terms.passes as usize {
            let missing = self.terms.passes - count as u32;
            return Err(CloseFault {
                why: CloseWhy::Missing(missing),
                shared: self,
                passes,
            });
        }
        let mut readings = Vec::new(alloc);
        let none = Reading {
            running: 0,
            this: 0,
        };
        if readings
            .resize(self.terms.setup.queue_count() as usize, none)
            .is_err()
        {
            return Err(CloseFault {
                why: CloseWhy::NoMemory,
                shared: self,
                passes,
            });
        }
        Ok(self.end(passes, readings))
    }

    /// The last pass takes in all others, and the table ends with it.
    fn end(self, mut passes: Vec<Pass>, mut readings: Vec<Reading>) -> Vec<Reading>
        requires of { All (IsPassOf self) passes.items }
        requires all { (terms self).passes ≤ length passes.items }
        requires some { 0 < length passes.items }
        requires room { length readings.items ≡ length (terms self).setup.queues }
        ensures { IsClosed self passes.items result.items }
    {
        let Some(last) = passes.pop() else {
            unreachable!()
        };
        let Seated { mut seat, .. } = last.seated;
        while let Some(pass) = passes.pop() {
            let Seated { seat: one, .. } = pass.seated;
            self.table.join_seat(&mut seat, one);
        }
        let Shared { table, .. } = self;
        let closed = table.close_with(seat);
        for r in 0..readings.len() {
            readings[r] = reading_in(closed.word(SPACING * r));
        }
        closed.free();
        readings
    }
}
