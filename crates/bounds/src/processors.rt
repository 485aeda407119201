// How many processors the tasks share.
ghost use Rattle.std.specs.Prelude.{◌≡◌, ◌≤◌};

use table::{Fault, Place};

/// A number of processors, from 1 to 16.
#[derive(Clone, Copy, PartialEq, Eq, Debug)]
pub struct Processors {
    count: u32,
    ghost ok: { (1 ≤ count) × (count ≤ 16) },
}

impl Processors {
    ghost use Rattle.bounds.specs.Made.{MadeProcessors};

    /// The most processors.
    pub const MOST: u32 = 16;

    /// This many processors, or a refusal where there are none or too many (12).
    pub fn new(count: u32) -> Result<Processors, Fault>
        ensures { MadeProcessors count result }
    {
        if 1 <= count && count <= Processors::MOST {
            Ok(Processors { count })
        } else {
            Err(Fault::BadTest(Place::NOWHERE))
        }
    }

    /// How many they are.
    pub fn count(&self) -> u32
        ensures { result ≡ self.now.count }
    {
        self.count
    }
}
