// Tests of `mark` as a value. The expected reports and faults are worked by hand from the rules; the searches under an
// overhead were found by trying every order of a table and every value of each end of a range.
#![tactic(auto)]

#[cfg(test)]
mod tests {
    use marking::mark::mark;
    use marking::report::{Outcome, Report, Verdict};
    use std::process::Abort;
    use std::test::Fail;
    use table::{Fault, Place};

    const BOARD: &str = "processors overhead test\n2 0 rta\n";

    const TASKS: &str = "task wcet period deadline\na 2 5 5\nb 2 5 5\nc 3 6 6\n";

    const ANSWER: &str = "task estimate\na 2\nb 3\nc 5\n";

    const UNKNOWN_TEST: &str = "processors overhead test\n2 0 x\n";

    const REPEATED_TASK: &str = "task wcet period deadline\na 0 5 5\na 2 5 5\n";

    const BAD_ROW: &str = "task wcet period deadline\na 0 5 5\nb 2 5 5\n";

    // Three texts that are refused, the fault's number, and its sheet, line and field.
    struct Refusal<'a> {
        sheets: [&'a str; 3],
        number: u32,
        place: (u32, u32, u32),
    }

    // What is no sheet.
    const FAULTY_TEXTS: [Refusal<'static>; 7] = [
        Refusal {
            sheets: ["", TASKS, ANSWER],
            number: 1,
            place: (1, 0, 0),
        },
        Refusal {
            sheets: [BOARD, "task wcet period deadline\na 2 5 5", ANSWER],
            number: 1,
            place: (2, 0, 0),
        },
        Refusal {
            sheets: [BOARD, "task wcet period\na 2 5\n", ANSWER],
            number: 2,
            place: (2, 1, 0),
        },
        Refusal {
            sheets: [BOARD, TASKS, "task estimate\na 2\nb 3 4\nc 5\n"],
            number: 3,
            place: (3, 3, 0),
        },
        Refusal {
            sheets: [
                BOARD,
                "task wcet period deadline\na 2 5 5\nb 2 007 5\n",
                ANSWER,
            ],
            number: 4,
            place: (2, 3, 3),
        },
        Refusal {
            sheets: [
                "processors overhead test\n2 0 rta\n2 0 rta\n",
                TASKS,
                ANSWER,
            ],
            number: 5,
            place: (1, 3, 0),
        },
        Refusal {
            sheets: [BOARD, TASKS, "task estimate\n"],
            number: 5,
            place: (3, 1, 0),
        },
    ];

    // What is no test; the left one of two fields at fault is named.
    const FAULTY_BOARDS: [Refusal<'static>; 6] = [
        Refusal {
            sheets: ["processors overhead test\n0 0 rta\n", TASKS, ANSWER],
            number: 12,
            place: (1, 2, 1),
        },
        Refusal {
            sheets: ["processors overhead test\n17 0 rta\n", TASKS, ANSWER],
            number: 12,
            place: (1, 2, 1),
        },
        Refusal {
            sheets: ["processors overhead test\n2 0 rt\n", TASKS, ANSWER],
            number: 12,
            place: (1, 2, 3),
        },
        Refusal {
            sheets: ["processors overhead test\n0 0 rt\n", TASKS, ANSWER],
            number: 12,
            place: (1, 2, 1),
        },
        Refusal {
            sheets: ["overhead test processors\n0 rt 0\n", TASKS, ANSWER],
            number: 12,
            place: (1, 2, 2),
        },
        Refusal {
            sheets: ["overhead test processors\n0 da 0\n", TASKS, ANSWER],
            number: 12,
            place: (1, 2, 3),
        },
    ];

    // Tasks and answers that do not go together.
    const FAULTY_PAIRS: [Refusal<'static>; 4] = [
        Refusal {
            sheets: [
                BOARD,
                "task wcet period deadline\na 2 5 5\na 2 5 5\n",
                ANSWER,
            ],
            number: 6,
            place: (2, 3, 1),
        },
        Refusal {
            sheets: [BOARD, TASKS, "estimate task\n2 a\n3 x\n5 c\n"],
            number: 7,
            place: (3, 3, 2),
        },
        Refusal {
            sheets: [BOARD, TASKS, "task estimate\na 2\nb 3\nb 3\n"],
            number: 7,
            place: (3, 4, 1),
        },
        Refusal {
            sheets: [BOARD, TASKS, "task estimate\na 2\nc 5\n"],
            number: 8,
            place: (2, 3, 0),
        },
    ];

    // What is no row, and what is no estimate of its row.
    const FAULTY_VALUES: [Refusal<'static>; 3] = [
        Refusal {
            sheets: [
                BOARD,
                "task wcet period deadline\na 2 5 5\nb 3 5 2\nc 0 6 6\n",
                ANSWER,
            ],
            number: 11,
            place: (2, 3, 0),
        },
        Refusal {
            sheets: [BOARD, TASKS, "task estimate\nc 6\na 1\nb 6\n"],
            number: 17,
            place: (3, 3, 2),
        },
        Refusal {
            sheets: [BOARD, TASKS, "estimate task\n7 c\n2 a\n2 b\n"],
            number: 17,
            place: (3, 2, 1),
        },
    ];

    // Of two faults the first: one of a board comes before one of the tasks, this before one of the answer, a text's before the test's,
    // the test's before the pair's, this before a row's, and this before an estimate's.
    const TWO_FAULTS: [Refusal<'static>; 7] = [
        Refusal {
            sheets: ["processors overhead test\n", "", ""],
            number: 5,
            place: (1, 1, 0),
        },
        Refusal {
            sheets: [BOARD, "task wcet period deadline\n", ""],
            number: 5,
            place: (2, 1, 0),
        },
        Refusal {
            sheets: [UNKNOWN_TEST, TASKS, "task estimate\n"],
            number: 5,
            place: (3, 1, 0),
        },
        Refusal {
            sheets: [UNKNOWN_TEST, REPEATED_TASK, ANSWER],
            number: 12,
            place: (1, 2, 3),
        },
        Refusal {
            sheets: [BOARD, REPEATED_TASK, ANSWER],
            number: 6,
            place: (2, 3, 1),
        },
        Refusal {
            sheets: [BOARD, BAD_ROW, "task estimate\nb 9\n"],
            number: 8,
            place: (2, 2, 0),
        },
        Refusal {
            sheets: [BOARD, BAD_ROW, "task estimate\nb 9\na 9\n"],
            number: 11,
            place: (2, 2, 0),
        },
    ];

    fn marked<'a>(board: &'a str, tasks: &'a str, answer: &'a str) -> Result<Report<'a>, Fault> {
        mark(board.as_bytes(), tasks.as_bytes(), answer.as_bytes())
    }

    // Each of these is refused as it is said.
    fn are_refused(rt: &impl Abort, refusals: &[Refusal<'_>]) -> Result<(), Fail> {
        for (i, refusal) in refusals.iter().enumerate() {
            let [board, tasks, answer] = refusal.sheets;
            let fault = marked(board, tasks, answer)
                .err()
                .ok_or_else(|| Fail::new("there is a report"))?;
            let (sheet, line, field) = refusal.place;
            assert_eq!(rt; fault.number(), refusal.number, "[{i}]");
            assert_eq!(rt; fault.place(), Place { sheet, line, field }, "[{i}]");
        }
        Ok(())
    }

    // The report shows these levels, and nothing past them.
    fn shows(rt: &impl Abort, report: &Report<'_>, levels: &[(&str, u32)]) {
        assert_eq!(rt; report.level_count, levels.len());
        for (i, (name, estimate)) in levels.iter().enumerate().take(32) {
            let level = report.levels[i];
            assert!(rt; level.task == name.as_bytes());
            assert_eq!(rt; level.estimate, *estimate);
        }
        for i in levels.len()..32 {
            let level = report.levels[i];
            assert!(rt; level.task.is_empty());
            assert_eq!(rt; level.estimate, 0);
        }
    }

    // The answer fails at this task, with this bound.
    fn fails(
        rt: &impl Abort,
        report: &Report<'_>,
        name: &str,
        late: Option<u32>,
    ) -> Result<(), Fail> {
        match report.outcome {
            Outcome::Passes => Err(Fail::new("the answer passes")),
            Outcome::Fails { task, bound } => {
                assert!(rt; task == name.as_bytes());
                assert_eq!(rt; bound, late);
                Ok(())
            }
        }
    }

    #[test]
    fn finds_an_order(rt: HostRuntime) -> Result<(), Fail> {
        let report = marked(BOARD, TASKS, ANSWER)?;
        assert_eq!(rt; report.verdict, Verdict::Found);
        assert_eq!(rt; report.ranges, 1);
        assert_eq!(rt; report.steps, 2);
        shows(&rt, &report, &[("b", 2), ("a", 2), ("c", 5)]);
        assert!(rt; report.outcome == Outcome::Passes);
        Ok(())
    }

    #[test]
    fn reads_columns_in_any_order(rt: HostRuntime) -> Result<(), Fail> {
        let report = marked(
            "test overhead processors\nrta 0 2\n",
            "deadline task wcet period\n5 a 2 5\n5 b 2 5\n6 c 3 6\n",
            "estimate task\n2 a\n3 b\n5 c\n",
        )?;
        assert!(rt; report == marked(BOARD, TASKS, ANSWER)?);
        Ok(())
    }

    #[test]
    fn takes_one_row(rt: HostRuntime) -> Result<(), Fail> {
        let report = marked(
            "processors overhead test\n1 0 lc\n",
            "task wcet period deadline\na 5 5 5\n",
            "task estimate\na 5\n",
        )?;
        assert_eq!(rt; report.verdict, Verdict::Found);
        assert_eq!(rt; report.ranges, 0);
        assert_eq!(rt; report.steps, 1);
        shows(&rt, &report, &[("a", 5)]);
        assert!(rt; report.outcome == Outcome::Passes);
        Ok(())
    }

    #[test]
    fn says_none_and_late(rt: HostRuntime) -> Result<(), Fail> {
        let report = marked(
            "processors overhead test\n1 0 rta\n",
            "task wcet period deadline\na 2 3 3\nb 2 3 3\n",
            "task estimate\nb 2\na 3\n",
        )?;
        assert_eq!(rt; report.verdict, Verdict::None);
        assert_eq!(rt; report.ranges, 1);
        assert_eq!(rt; report.steps, 2);
        shows(&rt, &report, &[]);
        fails(&rt, &report, "a", None)
    }

    #[test]
    fn adds_the_overhead(rt: HostRuntime) -> Result<(), Fail> {
        let report = marked("processors overhead test\n2 1 rta\n", TASKS, ANSWER)?;
        assert_eq!(rt; report.verdict, Verdict::Found);
        assert_eq!(rt; report.ranges, 6);
        assert_eq!(rt; report.steps, 7);
        shows(&rt, &report, &[("c", 4), ("a", 3), ("b", 5)]);
        // Alone at the top a has the bound 2 + 1.
        fails(&rt, &report, "a", Some(3))?;
        let late = marked("processors overhead test\n2 1000000 rta\n", TASKS, ANSWER)?;
        assert_eq!(rt; late.verdict, Verdict::None);
        fails(&rt, &late, "a", None)
    }

    #[test]
    fn names_the_first_miss(rt: HostRuntime) -> Result<(), Fail> {
        // With the estimates 2 and 2 above, c has the bound 5; with 3 and 3 it is late.
        let above = marked(BOARD, TASKS, "task estimate\nb 2\na 2\nc 4\n")?;
        fails(&rt, &above, "c", Some(5))?;
        let late = marked(BOARD, TASKS, "task estimate\nb 3\na 3\nc 6\n")?;
        fails(&rt, &late, "c", None)
    }

    #[test]
    fn refuses_texts(rt: HostRuntime) -> Result<(), Fail> {
        are_refused(&rt, &FAULTY_TEXTS)
    }

    #[test]
    fn refuses_boards(rt: HostRuntime) -> Result<(), Fail> {
        are_refused(&rt, &FAULTY_BOARDS)
    }

    #[test]
    fn refuses_pairs(rt: HostRuntime) -> Result<(), Fail> {
        are_refused(&rt, &FAULTY_PAIRS)
    }

    #[test]
    fn refuses_values(rt: HostRuntime) -> Result<(), Fail> {
        are_refused(&rt, &FAULTY_VALUES)
    }

    #[test]
    fn asks_in_order(rt: HostRuntime) -> Result<(), Fail> {
        are_refused(&rt, &TWO_FAULTS)
    }
}
