// What a report shows of a search and of an answer.
ghost use Rattle.std.specs.Prelude.{◌≡◌, ◌≤◌, Ok, length, take, IfSome};
ghost use Rattle.table.specs.Rows.{view};
ghost use Rattle.study.specs.Counts.{finding_in};
ghost use Rattle.sheets.specs.declared.form.Form.TheVariants.{Tasks};
ghost use Rattle.sheets.specs.Pairs.{count_of};
ghost use Rattle.sheets.specs.Sheets.{IsFull};
ghost use Rattle.marking.specs.Reports.{IsOfLines, HasHistory, SearchedTo, LevelsOf, BlankPast};
ghost use Rattle.marking.specs.Reports.{names_of, estimates_of, LevelsIn};
ghost use Rattle.marking.specs.Reports.{verdict_of, ShowsStudy, OutcomeOf};

use crate::fields::field;
use crate::report::{Level, Outcome, Report, Verdict};
use bounds::{Miss, NamedTest, Overhead};
use sheets::{Column, Sheet};
use study::{Finding, State, Study};
use table::Fault;

/// How many numbers each list of a search has: 96 slots of 64.
const LIST: usize = 64 * 96;

/// Searches to a verdict. It is not refused: the study has a row, and both lists have whole slots.
pub(crate) fn search(test: &Overhead<NamedTest>, study: &mut Study) -> Result<(), Fault>
    requires { (1 ≤ length (view study.old.table)) × HasHistory study.old }
    ensures { (result ≡ Ok tt) × SearchedTo test.now study.old study.new }
{
    let mut ledger = [0; LIST];
    let mut pending = [0; LIST];
    study.search(test, &mut ledger, &mut pending)
}

// A place past the last level.
const NO_LEVEL: Level<'static> = Level {
    task: &[],
    estimate: 0,
};

/// The levels of an order that was found.
pub(crate) fn levels_of<'a>(tasks: &Sheet<'a>, finding: &Finding) -> [Level<'a>; 32]
    requires tasks { (tasks.now.form ≡ Tasks) × IsFull tasks.now }
    requires order { IsOfLines tasks.now finding.now.order }
    ensures levels { LevelsOf tasks.now finding.now (count_of tasks.now)
        (names_of result) (estimates_of result) }
    ensures rest { BlankPast (count_of tasks.now) (names_of result) (estimates_of result) }
{
    let mut levels: [Level<'a>; 32] = [NO_LEVEL; 32];
    for i in 0..tasks.len() {
        let task = finding.order[i];
        levels[i] = Level {
            task: field(tasks, task, Column::Task).bytes,
            estimate: finding.estimates[task - 1],
        };
    }
    levels
}

// How many levels a state has, and these: none where no order was found.
fn levels_in<'a>(tasks: &Sheet<'a>, state: State) -> (usize, [Level<'a>; 32])
    requires tasks { (tasks.now.form ≡ Tasks) × IsFull tasks.now }
    requires order { IfSome (finding_in state) (λ f. IsOfLines tasks.now f.order) }
    ensures { LevelsIn tasks.now state
        result.0 (names_of result.1) (estimates_of result.1) }
{
    match state.finding() {
        Some(finding) => (tasks.len(), levels_of(tasks, &finding)),
        None => (0, [NO_LEVEL; 32]),
    }
}

// How a state is said once a search has ended.
fn verdict_of(state: State) -> Verdict
    ensures { result ≡ verdict_of state }
{
    match state {
        State::Found(_) => Verdict::Found,
        State::None => Verdict::None,
        State::Draft | State::Running(_) | State::Stopped => Verdict::Stopped,
    }
}

/// The report of a study that was searched, and of an answer that was checked.
pub(crate) fn report_of<'a>(tasks: &Sheet<'a>, study: &Study, outcome: Outcome<'a>) -> Report<'a>
    requires tasks { (tasks.now.form ≡ Tasks) × IsFull tasks.now }
    requires order { IfSome (finding_in study.now.state) (λ f. IsOfLines tasks.now f.order) }
    ensures study { ShowsStudy tasks.now study.now result }
    ensures outcome { result.outcome ≡ outcome.entry }
{
    let (level_count, levels) = levels_in(tasks, study.state());
    Report {
        verdict: verdict_of(study.state()),
        ranges: study.ledger_count(),
        steps: study.steps(),
        level_count,
        levels,
        outcome,
    }
}

/// What came of an answer whose first miss is this.
pub(crate) fn outcome_of<'a>(tasks: &Sheet<'a>, miss: Option<Miss>) -> Outcome<'a>
    requires tasks { (tasks.now.form ≡ Tasks) × IsFull tasks.now }
    requires miss { IfSome miss (λ m. (1 ≤ m.task) × (m.task ≤ count_of tasks.now)) }
    ensures { OutcomeOf tasks.now miss result }
{
    match miss {
        None => Outcome::Passes,
        Some(miss) => Outcome::Fails {
            task: field(tasks, miss.task, Column::Task).bytes,
            bound: miss.bound,
        },
    }
}
