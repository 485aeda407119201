// Tests of what is said of reports and faults, of the arguments, and of errors. What is expected was
// worked by hand from the rules.
#![tactic(auto)]

#[cfg(test)]
mod tests {
    use explain::arguments::{Request, request_of};
    use explain::cause::{Given, Source};
    use explain::explanation::explain;
    use explain::failure::print_failure;
    use explain::print::print_explained;
    use marking::mark::mark;
    use marking::report::{Level, Outcome, Report, Verdict};
    use std::alloc::AllocError;
    use std::io::ErrorKind;
    use std::process::{Abort, ExitCode};
    use std::test::Fail;
    use std::{io, str};
    use table::Fault;

    const BOARD: &str = "processors overhead test\n2 0 rta\n";

    const TASKS: &str = "task wcet period deadline\na 2 5 5\nb 2 5 5\nc 3 6 6\n";

    const ANSWER: &str = "task estimate\na 2\nb 3\nc 5\n";

    const BAD_TEXT: &str = "the text is empty, too long, or has no line feed at its end";

    // A text that was read from its file.
    fn read(text: &str) -> Given<'_> {
        Given {
            text: text.as_bytes(),
            source: Source::File,
        }
    }

    // What could not be read.
    fn unread(source: Source) -> Given<'static> {
        Given { text: b"", source }
    }

    // Just this is said of three texts.
    fn says<R: Abort + AllocGlobal>(
        rt: &R,
        [board, tasks, answer]: [Given<'_>; 3],
        expected: &str,
    ) -> Result<(), Fail> {
        let marked = mark(board.text, tasks.text, answer.text);
        let said = explain(rt.alloc(), &marked, board, tasks, answer)?;
        assert_eq!(rt; str::from_utf8(&said), Ok(expected));
        Ok(())
    }

    // Just this is said of three texts that were read.
    fn says_of_texts<R: Abort + AllocGlobal>(
        rt: &R,
        [board, tasks, answer]: [&str; 3],
        expected: &str,
    ) -> Result<(), Fail> {
        says(rt, [read(board), read(tasks), read(answer)], expected)
    }

    // This is said of three texts that miss the first question: in this file, for this cause.
    fn says_cause<R: Abort + AllocGlobal>(
        rt: &R,
        given: [Given<'_>; 3],
        file: &str,
        cause: &str,
    ) -> Result<(), Fail> {
        let expected = format!(in rt.alloc(); "{file}: {BAD_TEXT} (question 1)\n{file} {cause}\n")?;
        says(rt, given, &expected)
    }

    #[test]
    fn a_text_that_is_none_has_its_cause(rt: HostRuntime) -> Result<(), Fail> {
        let (board, tasks, answer) = (read(BOARD), read(TASKS), read(ANSWER));
        let missing = unread(Source::Missing);
        says_cause(&rt, [missing, tasks, answer], "board.txt", "is missing")?;
        let forbidden = unread(Source::Forbidden);
        says_cause(
            &rt,
            [board, forbidden, answer],
            "tasks.txt",
            "may not be read",
        )?;
        let folder = unread(Source::NotRegular);
        says_cause(
            &rt,
            [board, tasks, folder],
            "answer.txt",
            "is no regular file",
        )?;
        let failed = unread(Source::Failed);
        says_cause(
            &rt,
            [board, failed, missing],
            "tasks.txt",
            "could not be read",
        )?;
        says_cause(&rt, [board, read(""), answer], "tasks.txt", "is empty")?;
        let unended = read("task estimate\na 2\nb 3\nc 5");
        says_cause(
            &rt,
            [board, tasks, unended],
            "answer.txt",
            "has no line feed at its end",
        )
    }

    #[test]
    fn a_text_may_be_too_long(rt: HostRuntime) -> Result<(), Fail> {
        let feeds = vec![in rt.alloc(); b'\n'; 4097]?;
        let long = Given {
            text: &feeds,
            source: Source::File,
        };
        let given = [long, read(TASKS), read(ANSWER)];
        says_cause(&rt, given, "board.txt", "has more than 4096 bytes")
    }

    // Three texts, and what is said of them.
    struct Case<'a> {
        texts: [&'a str; 3],
        said: &'a str,
    }

    const FAULTY_TEXTS: [Case<'static>; 8] = [
        Case {
            texts: [BOARD, "task wcet period\na 2 5\n", ANSWER],
            said: "tasks.txt, line 1: line 1 has not just the names of the sheet, each once \
                (question 2)\n",
        },
        Case {
            texts: [BOARD, TASKS, "task estimate\na 2\nb 3 4\nc 5\n"],
            said: "answer.txt, line 3: the line has not as many fields as line 1 (question 3)\n",
        },
        Case {
            texts: [
                BOARD,
                "task wcet period deadline\na 2 5 5\nb 2 007 5\n",
                ANSWER,
            ],
            said: "tasks.txt, line 3, field 3: the field has not the form of its kind \
                (question 4)\n",
        },
        Case {
            texts: ["processors overhead test\n2 0 rta\n2 0 da\n", TASKS, ANSWER],
            said: "board.txt, line 3: the sheet has too few or too many value lines (question 5)\n",
        },
        // A carriage return is no part of a name or a number.
        Case {
            texts: ["processors overhead test\r\n2 0 rta\r\n", TASKS, ANSWER],
            said: "board.txt, line 1: line 1 has not just the names of the sheet, each once \
                (question 2)\n\
                board.txt, line 1 ends in a carriage return: a line must end in a line feed alone\n",
        },
        Case {
            texts: [BOARD, TASKS, "task estimate\na 2\nb 3\r\nc 5\n"],
            said: "answer.txt, line 3, field 2: the field has not the form of its kind \
                (question 4)\n\
                answer.txt, line 3 ends in a carriage return: a line must end in a line feed \
                alone\n",
        },
        // Another line than the one at fault ends in one.
        Case {
            texts: [BOARD, TASKS, "task estimate\na 2 2\nb 3\r\nc 5\n"],
            said: "answer.txt, line 2: the line has not as many fields as line 1 (question 3)\n",
        },
        Case {
            texts: [BOARD, TASKS, "task estimate\na \r2\nb 3\nc 5\n"],
            said: "answer.txt, line 2, field 2: the field has not the form of its kind \
                (question 4)\n",
        },
    ];

    const FAULTY_SHEETS: [Case<'static>; 6] = [
        Case {
            texts: [
                BOARD,
                "task wcet period deadline\na 2 5 5\na 2 5 5\n",
                ANSWER,
            ],
            said: "tasks.txt, line 3, field 1: the name stands on an earlier line too \
                (question 6)\n",
        },
        Case {
            texts: [BOARD, TASKS, "estimate task\n2 a\n3 d\n5 c\n"],
            said: "answer.txt, line 3, field 2: the name is no task, or stands on an earlier \
                line too (question 7)\n",
        },
        Case {
            texts: [BOARD, TASKS, "task estimate\na 2\nb 3\n"],
            said: "tasks.txt, line 4: the task has no answer (question 8)\n",
        },
        Case {
            texts: [
                BOARD,
                "task wcet period deadline\na 2 5 5\nb 6 5 5\nc 3 6 6\n",
                ANSWER,
            ],
            said: "tasks.txt, line 3: the numbers make no row (question 11)\n",
        },
        Case {
            texts: ["test processors overhead\nrta 17 0\n", TASKS, ANSWER],
            said: "board.txt, line 2, field 2: there is no such test (question 12)\n",
        },
        Case {
            texts: [BOARD, TASKS, "task estimate\na 2\nb 3\nc 7\n"],
            said: "answer.txt, line 4, field 2: the order or its estimates are not right \
                (question 17)\n",
        },
    ];

    const REPORTS: [Case<'static>; 3] = [
        Case {
            texts: [BOARD, TASKS, ANSWER],
            said: "found: in this order no task is late under the board's test\n",
        },
        // c with a and b above: in a window of 5 their loads are 2 each, and 3 + floor(4 / 2) = 5.
        Case {
            texts: [BOARD, TASKS, "task estimate\na 2\nb 3\nc 4\n"],
            said: "found: in this order no task is late under the board's test\n\
                fails: task c has the bound 5, above its estimate\n",
        },
        // On one processor the two tasks need 3 in a window of 2, whichever is first.
        Case {
            texts: [
                "processors overhead test\n1 0 rta\n",
                "task wcet period deadline\na 1 2 2\nb 2 2 2\n",
                "task estimate\na 1\nb 2\n",
            ],
            said: "none: each order of these tasks has a late task under the board's test\n\
                fails: task b is late\n",
        },
    ];

    fn says_all<R: Abort + AllocGlobal>(rt: &R, cases: &[Case<'static>]) -> Result<(), Fail> {
        for case in cases {
            says_of_texts(rt, case.texts, case.said)?;
        }
        Ok(())
    }

    #[test]
    fn faults_have_their_lines(rt: HostRuntime) -> Result<(), Fail> {
        says_all(&rt, &FAULTY_TEXTS)?;
        says_all(&rt, &FAULTY_SHEETS)
    }

    #[test]
    fn reports_have_their_lines(rt: HostRuntime) -> Result<(), Fail> {
        says_all(&rt, &REPORTS)
    }

    // A report that no three texts are marked for here, and a fault that has no sheet.
    #[test]
    fn values_have_their_lines(rt: HostRuntime) -> Result<(), Fail> {
        let stopped = Report {
            verdict: Verdict::Stopped,
            ranges: 96,
            steps: 97,
            level_count: 0,
            levels: [Level {
                task: b"",
                estimate: 0,
            }; 32],
            outcome: Outcome::Passes,
        };
        let [board, tasks, answer] = [read(BOARD), read(TASKS), read(ANSWER)];
        let said = explain(rt.alloc(), &Ok(stopped), board, tasks, answer)?;
        let expected =
            "stopped: the lists of the search are full, which says nothing of whether there is an order\n";
        assert_eq!(rt; str::from_utf8(&said), Ok(expected));
        let said = explain(rt.alloc(), &Err(Fault::Full), board, tasks, answer)?;
        assert_eq!(rt;
            str::from_utf8(&said),
            Ok("the table is full (question 9)\n")
        );
        Ok(())
    }

    #[test]
    fn both_outputs_are_written(rt: HostRuntime) -> Result<(), Fail> {
        let mut out = Vec::new(rt.alloc());
        let mut err = Vec::new(rt.alloc());
        let missing = unread(Source::Missing);
        let status = print_explained(
            rt.alloc(),
            read(BOARD),
            missing,
            missing,
            &mut out,
            &mut err,
        )?;
        assert_eq!(rt; status, ExitCode::FAILURE);
        assert_eq!(rt;
            str::from_utf8(&out),
            Ok("fault sheet line field\n1 2 0 0\n")
        );
        let expected = format!(in rt.alloc();
            "tasks.txt: {BAD_TEXT} (question 1)\ntasks.txt is missing\n"
        )?;
        assert_eq!(rt; str::from_utf8(&err), Ok(expected.as_str()));
        Ok(())
    }

    // These arguments ask this.
    fn asks<R: Abort + AllocGlobal>(
        rt: &R,
        arguments: &[&str],
        expected: Request,
    ) -> Result<(), Fail> {
        let mut owned = Vec::new(rt.alloc());
        for argument in arguments {
            owned.push(String::from_str(rt.alloc(), argument)?)?;
        }
        assert_eq!(rt; request_of(&owned), expected);
        Ok(())
    }

    #[test]
    fn arguments_ask(rt: HostRuntime) -> Result<(), Fail> {
        asks(&rt, &[], Request::Plain)?;
        asks(&rt, &["--explain"], Request::Explain)?;
        asks(&rt, &["--explain", "--explain"], Request::Unknown)?;
        asks(&rt, &["--explai"], Request::Unknown)?;
        asks(&rt, &[""], Request::Unknown)
    }

    // Just this is said of an error.
    fn says_failure<R: Abort + AllocGlobal>(
        rt: &R,
        error: io::Error,
        expected: &str,
    ) -> Result<(), Fail> {
        let mut err = Vec::new(rt.alloc());
        print_failure(rt.alloc(), &error, &mut err)?;
        assert_eq!(rt; str::from_utf8(&err), Ok(expected));
        Ok(())
    }

    #[test]
    fn errors_have_words(rt: HostRuntime) -> Result<(), Fail> {
        let lacking = "mark: memory is lacking\n";
        says_failure(&rt, io::Error::from(AllocError), lacking)?;
        says_failure(&rt, io::Error::from_raw_os_error(12), lacking)?;
        let full = "mark: the report could not be written: No space left on device (os error 28)\n";
        says_failure(&rt, io::Error::from_raw_os_error(28), full)?;
        let short = "mark: the report could not be written: write zero\n";
        says_failure(&rt, io::Error::from(ErrorKind::WriteZero), short)
    }
}
