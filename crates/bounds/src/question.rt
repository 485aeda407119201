// What is asked of a test.
ghost use Rattle.std.specs.Prelude.{◌≡◌, ◌+◌, ◌<◌, ◌↔◌, IsTrue};
ghost use Rattle.bounds.specs.Posing.{Poses};
ghost use Rattle.bounds.specs.Questions.{Sound, SoundComputed, asked, sound_atb};

use crate::posed::Posed;
use table::Table;

/// A task of a table, the set of the tasks above it, and an estimate for each row.
/// A task goes by its number from 1; row `k` has the `k`-th place of the set and of the estimates.
/// Two arrays and not one of pairs: a range's lows are its estimates as they stand.
#[derive(Clone, Copy)]
pub struct Question<'a> {
    pub table: &'a Table,
    pub task: usize,
    pub above: &'a [bool; 32],
    pub estimates: &'a [u32; 32],
}

impl<'a> Question<'a> {
    // Whether the row at a place has a sound estimate, and what is no row is not above.
    fn sound_at(&self, place: usize) -> bool
        requires { place < 32 }
        ensures { result ≡ sound_atb (asked self.now) (place + 1) }
    {
        match self.table.rows().get(place) {
            Some(row) => row.spans(self.estimates[place], self.estimates[place]),
            None => !self.above[place],
        }
    }

    /// Whether the question is sound.
    pub fn is_sound(&self) -> bool
        ensures sound { IsTrue result ↔ Sound (asked self.now) }
        ensures computed { SoundComputed }
    {
        let task = self.task;
        if task == 0 || task > self.table.len() || self.above[task - 1] {
            return false;
        }
        (0..32).all(|place| self.sound_at(place))
    }

    // The question on its rows, if it is sound.
    pub(crate) fn posed(&self) -> Option<Posed<'a>>
        ensures { Poses self.now result }
    {
        if !self.is_sound() {
            return None;
        }
        let posed = Posed {
            rows: self.table.rows(),
            task: self.task,
            above: self.above,
            estimates: self.estimates,
        };
        Some(posed)
    }
}
