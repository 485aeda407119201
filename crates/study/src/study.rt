// A table, and how far the search for an order of it has come. The ledger and the pending list are
// the caller's.
ghost use Rattle.std.specs.Prelude.{◌≡◌, ℕ, ◌+◌, ◌-◌, ◌*◌, ◌<◌, ◌≤◌, ◌⊎◌, ◌↔◌, List, length, IfOk, IfErr, IsTrue, MatchOption};
ghost use Rattle.table.specs.declared.fault.Fault.TheVariants.{OtherLists};
ghost use Rattle.table.specs.Asking.{Asks, Refuses, accepted};
ghost use Rattle.table.specs.Rows.{view, Adds, Alters, Removes};
ghost use Rattle.bounds.specs.Questions.{Meaning, Laws};
ghost use Rattle.study.specs.declared.room.Room.{Room as OneRoom};
ghost use Rattle.study.specs.declared.state.State.TheVariants as state;
ghost use Rattle.study.specs.Counts.{Counted, verdicts};
ghost use Rattle.study.specs.Pieces.{pieces, put_slots};

use crate::call::Call;
use crate::deed::Deed;
use crate::edit::Edit;
use crate::lists::{SLOT, is_slot, read_slot, write_slot};
use crate::pieces::{count_pieces, write_pieces};
use crate::room::Room;
use crate::state::State;
use crate::whole::whole_range;
use bounds::Test;
use orders::Range;
use table::{Fault, Numbers, Table};

/// A study: a table with a state, the counts of both lists, and the step count.
#[derive(Drop)]
pub struct Study {
    table: Table,
    state: State,
    ledger_count: usize,
    pending_count: usize,
    steps: usize,
    ghost counted: { Counted state ledger_count pending_count steps },
}

// A new study, and what can be read of one.
impl Study {
    ghost use Rattle.study.specs.Calls.{IsNew};

    /// An empty draft.
    pub fn new() -> Study
        ensures { IsNew result }
    {
        Study {
            table: Table::new(),
            state: State::Draft,
            ledger_count: 0,
            pending_count: 0,
            steps: 0,
        }
    }

    /// The table, for `analyse`, `check` and `same`.
    pub fn table(&self) -> &Table
        ensures { result.now ≡ self.now.table }
    {
        &self.table
    }

    /// Where the study stands.
    pub fn state(&self) -> State
        ensures { result ≡ self.now.state }
    {
        self.state
    }

    /// How many ledger slots are counted.
    pub fn ledger_count(&self) -> usize
        ensures { result ≡ self.now.ledger_count }
    {
        self.ledger_count
    }

    /// How many pending slots are counted.
    pub fn pending_count(&self) -> usize
        ensures { result ≡ self.now.pending_count }
    {
        self.pending_count
    }

    /// The step count: how many steps were taken since the last accepted begin, and 0 in a draft.
    pub fn steps(&self) -> usize
        ensures { result ≡ self.now.steps }
    {
        self.steps
    }
}

// The edits of its table.
impl Study {
    ghost use Rattle.study.specs.Calls.{IsDraft, Edits, EditsBy};
    ghost use Rattle.study.specs.Histories.{EditPromise};

    // Makes it a draft, with nothing counted.
    fn redraft(&mut self)
        ensures draft { IsDraft self.new }
        ensures table { self.new.table ≡ self.old.table }
    {
        self.state = State::Draft;
        self.ledger_count = 0;
        self.pending_count = 0;
        self.steps = 0;
    }

    /// Puts the row of these numbers after the last one. Refused where the table is full (9), and
    /// where the numbers make no row (11); the study is then as it was, and otherwise a draft.
    pub fn add(&mut self, numbers: Numbers) -> Result<(), Fault>
        ensures does { Edits (λ t r u. Adds t numbers r u) self.old result self.new }
        ensures promise { EditPromise self.old self.new }
    {
        self.table.add(numbers)?;
        self.redraft();
        Ok(())
    }

    /// Makes row `k` that of these numbers; every other row stands as it stood. Refused where there
    /// is no row `k` (10), and where the numbers make no row (11); the study is then as it was, and
    /// otherwise a draft.
    pub fn alter(&mut self, k: usize, numbers: Numbers) -> Result<(), Fault>
        ensures does { Edits (λ t r u. Alters t k numbers r u) self.old result self.new }
        ensures promise { EditPromise self.old self.new }
    {
        self.table.alter(k, numbers)?;
        self.redraft();
        Ok(())
    }

    /// Takes row `k` out; the later rows move up by one. Refused where there is no row `k` (10);
    /// the study is then as it was, and otherwise a draft.
    pub fn remove(&mut self, k: usize) -> Result<(), Fault>
        ensures does { Edits (λ t r u. Removes t k r u) self.old result self.new }
        ensures promise { EditPromise self.old self.new }
    {
        self.table.remove(k)?;
        self.redraft();
        Ok(())
    }

    // Does an edit.
    fn edit(&mut self, edit: Edit) -> Result<(), Fault>
        ensures { EditsBy edit self.old result self.new }
    {
        match edit {
            Edit::Add { numbers } => self.add(numbers),
            Edit::Alter { k, numbers } => self.alter(k, numbers),
            Edit::Remove { k } => self.remove(k),
        }
    }
}

// The begin of a search.
impl Study {
    ghost use Rattle.study.specs.Begins.{Begins};
    ghost use Rattle.study.specs.Histories.{FromEach, BeginPromise};
    ghost use Rattle.study.specs.Moments.{moment};

    /// Begins a search: the range of all C to D is written into pending slot 1. Refused where the
    /// table has no row (13), and where a list has not 1 to 4,096 whole slots and nothing over
    /// (14); the study and both lists are then as they were.
    pub fn begin(&mut self, ledger: &mut [u32], pending: &mut [u32]) -> Result<(), Fault>
        ensures does { let lent = moment self.old ledger.old pending.old in
            Begins lent result (moment self.new ledger.new pending.new) }
        ensures promise { let lent = moment self.old ledger.old pending.old in
            let after = moment self.new ledger.new pending.new in
            (meaning : Meaning) → Laws meaning
            → FromEach meaning self.old (BeginPromise meaning lent result after) }
    {
        let rows = self.table.rows();
        if rows.is_empty() {
            return Err(Fault::Empty);
        }
        let room = Room::of(ledger, pending).ok_or(Fault::BadSlots)?;
        write_slot(pending, 1, &whole_range(rows));
        self.redraft();
        self.state = State::Running(room);
        self.pending_count = 1;
        Ok(())
    }
}

// The work of one step: it ends with a verdict, or puts a range into the ledger and goes on.
impl Study {
    ghost use Rattle.study.specs.Moments.{moment};
    ghost use Rattle.study.specs.declared.deed.Deed.TheVariants as deed;
    ghost use Rattle.study.specs.Steps.{AsLeft, CarriesOut, Leaves, OneDeed, Runs, left_by, recorded, taken_of};

    // Ends a search with a verdict.
    fn end(&mut self, room: Room, verdict: State)
        requires runs { self.old.state ≡ state.Running room }
        requires verdict { verdicts verdict ≡ 1 }
        ensures { (kept waiting : List ℕ) → let before = moment self.old kept waiting in
            Leaves before (left_by room before (deed.End verdict))
            (moment self.new kept waiting) }
    {
        self.state = verdict;
        self.steps += 1;
    }

    // Puts a range into the next ledger slot; the search goes on with so many ranges pending.
    fn record(&mut self, room: Room, range: &Range, ledger: &mut [u32], pending: usize)
        requires runs { self.old.state ≡ state.Running room }
        requires long { length ledger.old ≡ 64 * room.ledger }
        requires left { (self.old.ledger_count < room.ledger) × (pending ≤ room.pending) }
        ensures { (kept left : List ℕ) → let before = moment self.old ledger.old kept in
            Leaves before (record {
              state = state.Running room;
              ledger_count = self.old.ledger_count + 1;
              pending_count = pending;
              ledger = recorded before range.now;
              pending = left;
            }) (moment self.new ledger.new left) }
    {
        write_slot(ledger, self.ledger_count + 1, range);
        self.ledger_count += 1;
        self.pending_count = pending;
        self.steps += 1;
    }

    // The last counted pending range, if any is counted; or a refusal where the lists are not as
    // the search left them.
    fn last_pending(
        &self,
        room: Room,
        ledger: &[u32],
        pending: &[u32],
    ) -> Result<Option<Range>, Fault>
        requires { Runs room (moment self.now ledger.now pending.now) }
        ensures left { let now = moment self.now ledger.now pending.now in
            IfOk result (λ taken. AsLeft room now
            × MatchOption taken (self.now.pending_count ≡ 0)
            (λ last. (1 ≤ self.now.pending_count) × (last ≡ taken_of now))) }
        ensures other { let now = moment self.now ledger.now pending.now in
            IfErr result (λ fault. (fault ≡ OtherLists) × ¬ AsLeft room now) }
    {
        if ledger.len() != SLOT * room.ledger || pending.len() != SLOT * room.pending {
            return Err(Fault::OtherLists);
        }
        if self.pending_count == 0 {
            return Ok(None);
        }
        let taken = read_slot(pending, self.pending_count);
        if is_slot(&self.table, &taken) {
            Ok(Some(taken))
        } else {
            Err(Fault::OtherLists)
        }
    }

    // Puts the grown form of the last pending range into the ledger, if it has a slot left.
    fn keep(&mut self, room: Room, grown: &Range, ledger: &mut [u32])
        requires runs { self.old.state ≡ state.Running room }
        requires some { 1 ≤ self.old.pending_count }
        requires long { length ledger.old ≡ 64 * room.ledger }
        ensures { (waiting : List ℕ) → let before = moment self.old ledger.old waiting in
            CarriesOut room before (deed.Keep grown.now) (moment self.new ledger.new waiting) }
    {
        if self.ledger_count == room.ledger {
            return self.end(room, State::Stopped);
        }
        self.record(room, grown, ledger, self.pending_count - 1);
    }

    // Puts the grown list of the last pending range's lows into the ledger and the range's pieces
    // in its place, if both lists have the slots.
    fn split(
        &mut self,
        room: Room,
        taken: &Range,
        grown: &Range,
        ledger: &mut [u32],
        pending: &mut [u32],
    )
        requires runs { self.old.state ≡ state.Running room }
        requires some { 1 ≤ self.old.pending_count }
        requires ledger { length ledger.old ≡ 64 * room.ledger }
        requires pending { length pending.old ≡ 64 * room.pending }
        requires taken { taken.now ≡ taken_of (moment self.old ledger.old pending.old) }
        ensures { let before = moment self.old ledger.old pending.old in
            CarriesOut room before (deed.Split grown.now) (moment self.new ledger.new pending.new) }
    {
        let rows = self.table.len();
        let left = self.pending_count - 1 + count_pieces(rows, taken, grown);
        if self.ledger_count == room.ledger || left > room.pending {
            return self.end(room, State::Stopped);
        }
        write_pieces(pending, self.pending_count, rows, taken, grown);
        self.record(room, grown, ledger, left);
    }

    // Does one step's work with the last pending range.
    fn advance<T: Test>(
        &mut self,
        test: &T,
        room: Room,
        taken: &Range,
        ledger: &mut [u32],
        pending: &mut [u32],
    )
        requires runs { self.old.state ≡ state.Running room }
        requires some { 1 ≤ self.old.pending_count }
        requires left { AsLeft room (moment self.old ledger.old pending.old) }
        requires taken { taken.now ≡ taken_of (moment self.old ledger.old pending.old) }
        ensures { let before = moment self.old ledger.old pending.old in
            let after = moment self.new ledger.new pending.new in
            OneDeed (T.answer test.now) room before after }
    {
        match Deed::new(test, &self.table, taken) {
            Deed::End(verdict) => self.end(room, verdict),
            Deed::Keep(grown) => self.keep(room, &grown, ledger),
            Deed::Split(grown) => self.split(room, taken, &grown, ledger, pending),
        }
    }

    // One step of a running search.
    fn step_on<T: Test>(
        &mut self,
        test: &T,
        room: Room,
        ledger: &mut [u32],
        pending: &mut [u32],
    ) -> Result<(), Fault>
        requires { self.old.state ≡ state.Running room }
        ensures { let before = moment self.old ledger.old pending.old in
            let after = moment self.new ledger.new pending.new in
            Asks (AsLeft room before) (Refuses OtherLists before result after)
            ((result ≡ accepted) × OneDeed (T.answer test.now) room before after) }
    {
        match self.last_pending(room, ledger, pending)? {
            None => self.end(room, State::None),
            Some(taken) => self.advance(test, room, &taken, ledger, pending),
        }
        Ok(())
    }
}

// The machine: a study's state and a call, together.
impl Study {
    ghost use Rattle.study.specs.Histories.{FromEach, Law, StepPromise};
    ghost use Rattle.study.specs.Machine.{Calls, CallPromise};
    ghost use Rattle.study.specs.Moments.{moment};
    ghost use Rattle.study.specs.Steps.{Steps};

    /// Does what a call asks, in the state that the study is in. An edit touches no list, and begin
    /// asks no test. Refused as the call itself is; nothing is then altered.
    pub fn call<T: Test>(
        &mut self,
        call: Call,
        test: &T,
        ledger: &mut [u32],
        pending: &mut [u32],
    ) -> Result<(), Fault>
        ensures does { let lent = moment self.old ledger.old pending.old in
            Calls (T.answer test.now) call lent result (moment self.new ledger.new pending.new) }
        ensures promise { let lent = moment self.old ledger.old pending.old in
            let after = moment self.new ledger.new pending.new in
            FromEach (T.answer test.now) self.old
            (CallPromise (T.answer test.now) call lent result after) }
    {
        match (call, self.state) {
            (
                Call::Edit(edit),
                State::Draft | State::Running(_) | State::Found(_) | State::None | State::Stopped,
            ) => self.edit(edit),
            (
                Call::Begin,
                State::Draft | State::Running(_) | State::Found(_) | State::None | State::Stopped,
            ) => self.begin(ledger, pending),
            (Call::Step, State::Running(room)) => self.step_on(test, room, ledger, pending),
            (Call::Step, State::Draft | State::Found(_) | State::None | State::Stopped) => {
                Err(Fault::NotRunning)
            }
        }
    }

    /// One step of the search that is running. Refused where none is running (15), and where the
    /// lists are not as the search left them (16); the study and both lists are then as they were.
    pub fn step<T: Test>(
        &mut self,
        test: &T,
        ledger: &mut [u32],
        pending: &mut [u32],
    ) -> Result<(), Fault>
        ensures does { let lent = moment self.old ledger.old pending.old in
            Steps (T.answer test.now) lent result (moment self.new ledger.new pending.new) }
        ensures law { Law (T.answer test.now) }
        ensures promise { let lent = moment self.old ledger.old pending.old in
            let after = moment self.new ledger.new pending.new in
            FromEach (T.answer test.now) self.old
            (StepPromise (T.answer test.now) lent result after) }
    {
        self.call(Call::Step, test, ledger, pending)
    }
}

// A whole search.
impl Study {
    ghost use Rattle.study.specs.Histories.{FromEach, Law, Means};
    ghost use Rattle.study.specs.Moments.{moment};
    ghost use Rattle.study.specs.Searches.{Searches, SearchPromise};

    // Whether a search is running.
    fn is_running(&self) -> bool
        ensures { IsTrue result
            ↔ ((room : OneRoom) × (self.now.state ≡ state.Running room)) }
    {
        matches!(self.state, State::Running(_))
    }

    /// Begins a search, and steps until there is a verdict. Refused as begin is; the study and both
    /// lists are then as they were.
    pub fn search<T: Test>(
        &mut self,
        test: &T,
        ledger: &mut [u32],
        pending: &mut [u32],
    ) -> Result<(), Fault>
        ensures leads { let lent = moment self.old ledger.old pending.old in
            Searches (T.answer test.now) lent result (moment self.new ledger.new pending.new) }
        ensures means { let after = moment self.new ledger.new pending.new in
            IfOk result (λ _. Means (T.answer test.now) after) }
        ensures law { Law (T.answer test.now) }
        ensures promise { let lent = moment self.old ledger.old pending.old in
            let after = moment self.new ledger.new pending.new in
            FromEach (T.answer test.now) self.old
            (SearchPromise (T.answer test.now) lent result after) }
    {
        self.begin(ledger, pending)?;
        while self.is_running() {
            self.step(test, ledger, pending)?;
        }
        Ok(())
    }
}
