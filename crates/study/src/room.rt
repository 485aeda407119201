// The room of a search.
ghost use Rattle.std.specs.Prelude.{◌≡◌, IfSome, IfNone};
ghost use Rattle.study.specs.Slots.{HasSlots};

use crate::lists::slots_in;

/// How many slots the two lists of a search have.
#[derive(Clone, Copy, PartialEq, Eq, Debug)]
pub struct Room {
    pub ledger: usize,
    pub pending: usize,
}

impl Room {
    ghost use Rattle.study.specs.declared.room.Room.{Room as OneRoom};

    // How many slots both lists have, if they are of whole slots.
    pub(crate) fn of(ledger: &[u32], pending: &[u32]) -> Option<Room>
        ensures some { IfSome result (λ room.
            HasSlots ledger.now room.ledger × HasSlots pending.now room.pending) }
        ensures none { IfNone result ((room : OneRoom) →
            HasSlots ledger.now room.ledger → ¬ HasSlots pending.now room.pending) }
    {
        Some(Room {
            ledger: slots_in(ledger)?,
            pending: slots_in(pending)?,
        })
    }
}
