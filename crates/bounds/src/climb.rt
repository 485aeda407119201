// The climb to the least window that fits its load. What cannot fit is skipped.
ghost use Rattle.std.specs.Prelude.{◌≡◌};
ghost use Rattle.bounds.specs.Climbs.{loads, NeverFalls, climbs};
ghost use Rattle.bounds.specs.Posing.{question_of};
ghost use Rattle.bounds.specs.Questions.{asked, own};
ghost use Rattle.bounds.specs.Responses.{least_fit};

use crate::posed::Posed;
use crate::processors::Processors;
use crate::question::Question;
use crate::tally::Tally;
use crate::window::Window;

// The least window from the task's wcet to its deadline that is long enough for its load.
fn least_window(m: Processors, limit: Option<u32>, q: &Posed<'_>) -> Option<u32>
    ensures found { let asked = question_of q.now in
        result ≡ least_fit m.count (own asked) (loads limit asked) }
    ensures rises { NeverFalls (loads limit (question_of q.now)) }
{
    let own = q.own();
    let wcet = own.wcet();
    let last = own.deadline() - wcet + 1;
    let mut cap = 1;
    while cap <= last {
        let window = Window {
            posed: *q,
            length: wcet + cap - 1,
        };
        let loads = window.uncapped_loads(limit);
        let tally = Tally::of(&loads, q.rows.len(), cap);
        if tally.sum < m.count() * cap {
            return Some(window.length);
        }
        cap = tally.next_cap(m);
    }
    None
}

// The answer of a test that climbs. `limit` is how many of the tasks above may carry load in;
// without it all may.
pub(crate) fn answer_by_climb(m: Processors, limit: Option<u32>, q: &Question<'_>) -> Option<u32>
    ensures { result ≡ climbs m.count limit (asked q.now) }
{
    let q = q.posed()?;
    least_window(m, limit, &q)
}
