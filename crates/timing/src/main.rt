// Asks each test questions on pseudo-random tables, and grows ranges of such tables. Prints a checksum of the
// answers and of the grown ranges, and the times to standard error.
// An argument says how many tables of each kind there are.
#![tactic(auto)]

ghost use Rattle.std.specs.Prelude.{◌-◌, ◌≤◌};

use bounds::{NamedTest, Processors, Question, Test};
use orders::Range;
use orders::grow::grow;
use std::rt::{Clock, Env};
use std::time::Instant;
use std::{env, fmt};
use table::{Fault, Numbers, Row, Table};

const TESTS: [&str; 3] = ["da", "rta", "lc"];

/// Pseudo-random numbers, by a linear congruential generator.
#[derive(Clone, Copy)]
struct Random {
    state: u32,
}

impl Random {
    // A number from 0 to one below `limit`; 0 at the limit 0.
    fn below(&mut self, limit: u32) -> u32
        ensures { result ≤ limit - 1 }
    {
        self.state = self
            .state
            .wrapping_mul(1_664_525)
            .wrapping_add(1_013_904_223);
        (self.state / 2048).checked_rem(limit).unwrap_or(0)
    }
}

/// How many rows a table has, and how great its numbers are.
#[derive(Clone, Copy)]
struct Kind {
    rows: usize,
    longest: u32,
}

impl fmt::Display for Kind {
    fn fmt<W: fmt::Write>(&self, f: &mut fmt::Formatter<W>) -> fmt::Result {
        write!(f, "{} {}", self.rows, self.longest)
    }
}

/// The tables of which ranges are grown.
const GROWN: Kind = Kind {
    rows: 20,
    longest: 1_000_000,
};

// A number folded into a checksum.
fn folded(sum: u32, number: u32) -> u32 {
    sum.wrapping_mul(31).wrapping_add(number)
}

/// A table, and an estimate for each row.
#[derive(Drop)]
struct Case {
    table: Table,
    estimates: [u32; 32],
}

impl Case {
    // A table of a kind: the period up to the longest, the deadline up to the period, the wcet up to a fourth of it.
    fn new(kind: Kind, random: &mut Random) -> Result<Case, Fault> {
        let mut table = Table::new();
        let mut estimates = [0; 32];
        for estimate in estimates.iter_mut().take(kind.rows) {
            let period = random.below(kind.longest) + 1;
            let deadline = random.below(period) + 1;
            let wcet = random.below(deadline / 4) + 1;
            *estimate = wcet + random.below(deadline - wcet + 1);
            table.add(Numbers {
                wcet,
                period,
                deadline,
            })?;
        }
        Ok(Case { table, estimates })
    }

    // The answers for each task with those before it above, folded into a checksum; late counts as 0.
    fn ask_all(&self, test: &NamedTest, mut sum: u32) -> u32 {
        let mut above = [false; 32];
        // By place: a question names its task by number, and no row is read here.
        for place in 0..self.table.len() {
            let question = Question {
                table: &self.table,
                task: place + 1,
                above: &above,
                estimates: &self.estimates,
            };
            sum = folded(sum, test.ask(&question).unwrap_or(0));
            above[place] = true;
        }
        sum
    }

    // A list of estimates a fourth of the way from each wcet to the row's estimate. Hardly any table has an order that passes it.
    fn tight_estimates(&self) -> [u32; 32] {
        let mut list = self.estimates;
        for (estimate, row) in list.iter_mut().zip(self.table.rows()) {
            let wcet = row.wcet();
            *estimate = wcet + estimate.saturating_sub(wcet) / 4;
        }
        list
    }

    // That list, grown as a range, folded into a checksum.
    fn grow_one(&self, test: &NamedTest, sum: u32) -> u32 {
        let list = self.tight_estimates();
        let range = Range {
            lows: list,
            highs: list,
        };
        let grown = grow(test, &self.table, &range);
        let ends = grown.lows.iter().zip(&grown.highs);
        ends.fold(sum, |sum, (low, high)| folded(folded(sum, *low), *high))
    }
}

// The checksum of what is measured on so many tables of a kind.
fn checksum<F: Fn(&Case, u32) -> u32>(kind: Kind, tables: u32, measure: F) -> Result<u32, Fault>
    requires { F.IsAlwaysCallable measure }
{
    let mut random = Random { state: 1 };
    let mut sum = 0;
    for _ in 0..tables {
        let case = Case::new(kind, &mut random)?;
        sum = measure(&case, sum);
    }
    Ok(sum)
}

/// Where to print, and how many tables of each kind there are.
#[derive(Clone, Copy)]
struct Benchmark<'a, R> {
    rt: &'a R,
    tables: u32,
}

impl<R: Print + Eprint + Clock> Benchmark<'_, R> {
    // Prints the checksum of what is measured `on_each` times on each table, and how long one time takes.
    fn time<F: Fn(&Case, u32) -> u32>(
        &self,
        name: &str,
        kind: Kind,
        on_each: usize,
        measure: F,
    ) -> anyhow::Result<()>
        requires { F.IsAlwaysCallable measure }
    {
        let rt = self.rt;
        let start = Instant::now(rt)?;
        let sum = checksum(kind, self.tables, measure)?;
        let taken = start.elapsed(rt)?.as_nanos();
        let times = u128::from(self.tables).saturating_mul(on_each as u128);
        let each = taken / times.max(1);
        println!(rt; "{name} {kind} {sum}")?;
        eprintln!(rt; "{name} {kind}: {each} ns")?;
        Ok(())
    }

    // Times a question for each task.
    fn time_questions(&self, name: &str) -> anyhow::Result<()> {
        let test = NamedTest::new(name.as_bytes(), Processors::new(4)?)?;
        for longest in [1_000, 1_000_000] {
            for rows in [8, 16, 32] {
                let kind = Kind { rows, longest };
                self.time(name, kind, rows, |case, sum| case.ask_all(&test, sum))?;
            }
        }
        Ok(())
    }

    // Times a growth on each table.
    fn time_growth(&self, name: &str) -> anyhow::Result<()> {
        let test = NamedTest::new(name.as_bytes(), Processors::new(4)?)?;
        self.time(name, GROWN, 1, |case, sum| case.grow_one(&test, sum))
    }
}

fn tables_asked(rt: &(impl Env + Alloc)) -> anyhow::Result<u32> {
    let mut tables = 20;
    for word in env::args(rt)?.skip(1) {
        tables = word.as_str().parse()?;
    }
    Ok(tables)
}

fn run(rt: &HostRuntime) -> anyhow::Result<()> {
    let tables = tables_asked(rt)?;
    let benchmark = Benchmark { rt, tables };
    println!(rt; "test rows longest checksum")?;
    for name in TESTS {
        benchmark.time_questions(name)?;
    }
    println!(rt; "test rows longest grown")?;
    for name in TESTS {
        benchmark.time_growth(name)?;
    }
    Ok(())
}

fn main(rt: HostRuntime) -> anyhow::Result<()> {
    run(&rt)
}
