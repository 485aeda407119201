// What three sheets give: a test, a study, an order and estimates.
ghost use Rattle.std.specs.Prelude.{◌≡◌, ◌≤◌, Ok, MatchResult};
ghost use Rattle.table.specs.Rows.{view};
ghost use Rattle.sheets.specs.declared.sheet.Sheet.{Sheet as OneSheet};
ghost use Rattle.sheets.specs.declared.form.Form.TheVariants.{Board, Tasks, Answer};
ghost use Rattle.sheets.specs.Pairs.{count_of};
ghost use Rattle.sheets.specs.Sheets.{IsFull};
ghost use Rattle.marking.specs.Questions.{SheetsFail};
ghost use Rattle.marking.specs.declared.report.Outcome.{Outcome as OneOutcome};
ghost use Rattle.marking.specs.declared.report.Report.{Report as OneReport};
ghost use Rattle.marking.specs.Reports.{CaseOf, ChecksAnswer, Reports};

use crate::board::test_of;
use crate::estimates::estimates_of;
use crate::report::{Outcome, Report};
use crate::rows::study_of;
use crate::shown::{outcome_of, report_of, search};
use bounds::check::check;
use bounds::{NamedTest, Overhead};
use sheets::{Sheet, pair};
use study::Study;
use table::Fault;

/// A test, a study of the rows, and an answer: an order and estimates by row.
#[derive(Drop)]
pub(crate) struct Case {
    pub test: Overhead<NamedTest>,
    pub study: Study,
    pub order: [usize; 32],
    pub estimates: [u32; 32],
}

impl Case {
    /// Asks the sheets' values, the first question first.
    pub(crate) fn new(
        board: &Sheet<'_>,
        tasks: &Sheet<'_>,
        answer: &Sheet<'_>,
    ) -> Result<Case, Fault>
        requires board { (board.now.form ≡ Board) × (count_of board.now ≡ 1)
            × IsFull board.now }
        requires tasks { (tasks.now.form ≡ Tasks) × IsFull tasks.now }
        requires answer { (answer.now.form ≡ Answer) × IsFull answer.now }
        ensures { MatchResult result
            (λ case. CaseOf board.now tasks.now answer.now case)
            (λ fault. SheetsFail board.now tasks.now answer.now fault) }
    {
        let test = test_of(board)?;
        let order = pair(tasks, answer)?;
        let study = study_of(tasks)?;
        let estimates = estimates_of(tasks, answer, &order)?;
        Ok(Case {
            test,
            study,
            order,
            estimates,
        })
    }

    /// What came of the answer. The check is not refused: the answer is an order, with an estimate
    /// for each row.
    pub(crate) fn outcome<'a>(
        &self,
        tasks: &Sheet<'a>,
        answer: &Sheet<'_>,
    ) -> Result<Outcome<'a>, Fault>
        requires tasks { (tasks.now.form ≡ Tasks) × IsFull tasks.now
            × (1 ≤ count_of tasks.now) }
        requires case { (board : OneSheet) × CaseOf board tasks.now answer.now self.now }
        ensures { (o : OneOutcome) × (result ≡ Ok o)
            × ChecksAnswer self.now.test (view self.now.study.table) tasks.now answer.now o }
    {
        let order = &self.order[..answer.len()];
        let estimates = &self.estimates[..tasks.len()];
        let miss = check(&self.test, self.study.table(), order, estimates)?;
        Ok(outcome_of(tasks, miss))
    }

    /// Searches the rows, and reports that and what came of the answer.
    pub(crate) fn report<'a>(
        mut self,
        tasks: &Sheet<'a>,
        answer: &Sheet<'_>,
    ) -> Result<Report<'a>, Fault>
        requires tasks { (tasks.now.form ≡ Tasks) × IsFull tasks.now
            × (1 ≤ count_of tasks.now) }
        requires case { (board : OneSheet) × CaseOf board tasks.now answer.now self }
        ensures { (r : OneReport) × (result ≡ Ok r) × Reports self.test tasks.now answer.now r }
    {
        let outcome = self.outcome(tasks, answer)?;
        search(&self.test, &mut self.study)?;
        Ok(report_of(tasks, &self.study, outcome))
    }
}
