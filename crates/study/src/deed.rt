// What a step does.
ghost use Rattle.table.specs.Rows.{view};
ghost use Rattle.orders.specs.Ranges.{Within};

use crate::finding::Finding;
use crate::state::State;
use bounds::Test;
use orders::settle::settle;
use orders::{Range, Settled};
use table::Table;

/// What a step of a search does.
#[derive(Clone, Copy, PartialEq, Eq, Debug)]
pub enum Deed {
    /// It ends the search with this verdict.
    End(State),
    /// It puts the grown form of the last pending range into the ledger, and takes the range off
    /// the list.
    Keep(Range),
    /// It puts the grown list of that range's lows into the ledger, and pieces in its place.
    Split(Range),
}

impl Deed {
    ghost use Rattle.study.specs.Deeds.{Due};

    // What is due of a range of the table.
    pub(crate) fn new<T: Test>(test: &T, table: &Table, taken: &Range) -> Deed
        requires { Within (view table.now) taken.now }
        ensures { Due (T.answer test.now) (view table.now) taken.now result }
    {
        if let Settled::Grown(grown) = settle(test, table, taken) {
            return Deed::Keep(grown);
        }
        let lows = Range {
            lows: taken.lows,
            highs: taken.lows,
        };
        match settle(test, table, &lows) {
            Settled::Order(order) => Deed::End(State::Found(Finding {
                order,
                estimates: taken.lows,
            })),
            Settled::Grown(grown) => Deed::Split(grown),
        }
    }
}
