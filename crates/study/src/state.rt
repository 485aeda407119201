// Where a study stands.
ghost use Rattle.std.specs.Prelude.{◌≡◌};

use crate::finding::Finding;
use crate::room::Room;

/// Where a study stands. Found, none and stopped are the verdicts.
#[derive(Clone, Copy, PartialEq, Eq, Debug)]
pub enum State {
    Draft,
    /// A search is running, on lists with this room.
    Running(Room),
    Found(Finding),
    None,
    Stopped,
}

impl State {
    ghost use Rattle.study.specs.Counts.{finding_in};

    /// The order that was found, with its estimates, while the state is found.
    pub fn finding(self) -> Option<Finding>
        ensures { result ≡ finding_in self }
    {
        match self {
            State::Found(finding) => Some(finding),
            State::Draft | State::Running(_) | State::None | State::Stopped => None,
        }
    }
}
