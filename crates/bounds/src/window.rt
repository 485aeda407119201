// A window of a posed question, its cap, and the loads of the tasks above in it.
ghost use Rattle.std.specs.Prelude.{◌≡◌, ◌+◌, ◌-◌, ◌<◌, ◌≤◌, min, false, length, if◌then◌else◌};
ghost use Rattle.table.specs.Places.{nth};
ghost use Rattle.bounds.specs.Climbs.{loads, Uncapped, Lists, ZeroPast, work_at};
ghost use Rattle.bounds.specs.Loads.{work, cap_of, carried};
ghost use Rattle.bounds.specs.Posing.{question_of};
ghost use Rattle.bounds.specs.Questions.{Lies, own};

use crate::picks::picks;
use crate::posed::Posed;
use crate::work::work_in;
use std::array;
use table::Row;

/// A window by its length, from the task's wcet to its deadline.
#[derive(Clone, Copy)]
pub(crate) struct Window<'a> {
    pub posed: Posed<'a>,
    pub length: u32,
    ghost lies: { Lies (own (question_of posed)) length },
}

// What each task adds to its plain load by carrying load in, both held to the cap.
fn extras_of(carried: &[u32; 32], plain: &[u32; 32], cap: u32) -> [u32; 32]
    ensures { Lists (λ k. min (nth carried.now k 0) cap - min (nth plain.now k 0) cap) result }
{
    array::from_fn(|place| carried[place]
        .min(cap)
        .saturating_sub(plain[place].min(cap)))
}

// The carried work of the chosen tasks, and the plain work of the others.
fn mixed(carried: &[u32; 32], plain: &[u32; 32], chosen: &[bool; 32]) -> [u32; 32]
    ensures { Lists (λ k.
        (if nth chosen.now k false then nth carried.now k 0 else nth plain.now k 0)) result }
{
    array::from_fn(|place| {
        if chosen[place] {
            carried[place]
        } else {
            plain[place]
        }
    })
}

impl Window<'_> {
    // The most that the load of one task comes to.
    fn cap(&self) -> u32
        ensures { result ≡ cap_of (own (question_of self.now.posed)) self.now.length }
    {
        self.length - self.posed.own().wcet() + 1
    }

    // The work of a task with an estimate.
    fn work_with(&self, row: Row, estimate: u32) -> u32
        requires { Lies row estimate }
        ensures { result ≡ work row (self.now.length + estimate - row.wcet) }
    {
        work_in(row, self.length + estimate - row.wcet())
    }

    // The load that a task with an estimate carries in.
    pub(crate) fn carried_load(&self, row: Row, estimate: u32) -> u32
        requires { Lies row estimate }
        ensures { result ≡ carried (own (question_of self.now.posed)) self.now.length row estimate }
    {
        self.work_with(row, estimate).min(self.cap())
    }

    // The work of the task at a place, with its estimate if it carries load in; 0 if it is not
    // above.
    fn work_of(&self, place: usize, carries: bool) -> u32
        requires place { place < 32 }
        ensures { let q = question_of self.now.posed in
            result ≡ work_at q self.now.length carries (place + 1) }
    {
        let q = self.posed;
        if !q.above[place] {
            return 0;
        }
        let row = q.rows[place];
        if carries {
            self.work_with(row, q.estimates[place])
        } else {
            work_in(row, self.length)
        }
    }

    // The work of each task above, with its estimate if they carry load in.
    fn works(&self, carries: bool) -> [u32; 32]
        ensures { Lists (work_at (question_of self.now.posed) self.now.length carries) result }
    {
        // Not by `array::from_fn`, which goes over the places past the rows too: on few rows `lc`
        // then took about twice the instructions.
        let mut works = [0; 32];
        for place in 0..self.posed.rows.len() {
            works[place] = self.work_of(place, carries);
        }
        works
    }

    // At most `limit` of the loads are carried and the others plain; without a limit all are
    // carried.
    pub(crate) fn uncapped_loads(&self, limit: Option<u32>) -> [u32; 32]
        ensures uncapped { let q = question_of self.now.posed in
            Uncapped (loads limit q) (own q) self.now.length result }
        ensures past { ZeroPast (length self.now.posed.rows.now) result }
    {
        let carried = self.works(true);
        let Some(limit) = limit else {
            return carried;
        };
        let plain = self.works(false);
        let rows = self.posed.rows.len();
        let extras = extras_of(&carried, &plain, self.cap());
        let chosen = picks(&extras, rows, limit);
        mixed(&carried, &plain, &chosen)
    }
}
