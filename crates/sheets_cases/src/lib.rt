// Tests of the sheets: what is read, what is refused and where, and the pairing. The expected faults are worked by
// hand from the rules.
#![tactic(auto)]

#[cfg(test)]
mod tests {
    use sheets::{Column, Field, Form, Sheet, pair};
    use std::alloc::{AllocError, Global};
    use std::process::Abort;
    use std::test::Fail;
    use table::fault::{Fault, Layer, Place};

    // The call was refused with this number, by this layer and at this place.
    fn refused<T: Drop>(
        rt: &impl Abort,
        given: Result<T, Fault>,
        number: u32,
        layer: Layer,
        place: Place,
    ) -> Result<(), Fail> {
        let fault = given
            .err()
            .ok_or_else(|| Fail::new("the call was accepted"))?;
        assert_eq!(rt; fault.number(), number);
        assert_eq!(rt; fault.layer(), layer);
        assert_eq!(rt; fault.place(), place);
        Ok(())
    }

    // The text is no sheet of the form: its first fault is this one.
    fn no_sheet(
        rt: &impl Abort,
        form: Form,
        text: &str,
        number: u32,
        line: u32,
        field: u32,
    ) -> Result<(), Fail> {
        let sheet = match form {
            Form::Board => 1,
            Form::Tasks => 2,
            Form::Answer => 3,
        };
        let place = Place { sheet, line, field };
        refused(
            rt,
            Sheet::read(form, sheet, text.as_bytes()),
            number,
            Layer::Sheet,
            place,
        )
    }

    // The same of an answer sheet.
    fn no_answer(
        rt: &impl Abort,
        text: &str,
        number: u32,
        line: u32,
        field: u32,
    ) -> Result<(), Fail> {
        no_sheet(rt, Form::Answer, text, number, line, field)
    }

    // The field under a column in the k-th value line.
    fn field_of<'a>(sheet: &Sheet<'a>, k: usize, column: Column) -> Result<Field<'a>, Fail> {
        sheet
            .field(k, column)
            .ok_or_else(|| Fail::new("there is no such field"))
    }

    // The number under a column in the k-th value line.
    fn number_of(sheet: &Sheet<'_>, k: usize, column: Column) -> Result<Option<u32>, Fail> {
        Ok(field_of(sheet, k, column)?.number())
    }

    // The only estimate of an answer sheet.
    fn estimate_in(text: &str) -> Result<Option<u32>, Fail> {
        let sheet = Sheet::read(Form::Answer, 3, text.as_bytes())?;
        number_of(&sheet, 1, Column::Estimate)
    }

    // An answer sheet with so many times the same value line, and then the last lines.
    fn long_answer(alloc: Global, count: u32, last: &str) -> Result<Vec<u8>, AllocError> {
        let mut text = Vec::new(alloc);
        text.extend_from_slice(b"task estimate\n")?;
        for _ in 0..count {
            text.extend_from_slice(b"a 1\n")?;
        }
        text.extend_from_slice(last.as_bytes())?;
        Ok(text)
    }

    #[test]
    fn reads_the_fields(rt: HostRuntime) -> Result<(), Fail> {
        let text = "wcet task deadline period\n2 a 4 5\n1000000 b-2 0 7\n";
        let sheet = Sheet::read(Form::Tasks, 2, text.as_bytes())?;
        assert_eq!(rt; sheet.len(), 2);
        let name = field_of(&sheet, 2, Column::Task)?;
        assert!(rt; name.bytes == b"b-2".as_slice());
        assert_eq!(rt;
            name.place,
            Place {
                sheet: 2,
                line: 3,
                field: 2
            }
        );
        assert_eq!(rt; name.number(), None);
        assert_eq!(rt; number_of(&sheet, 1, Column::Wcet)?, Some(2));
        assert_eq!(rt; number_of(&sheet, 1, Column::Deadline)?, Some(4));
        assert_eq!(rt; number_of(&sheet, 1, Column::Period)?, Some(5));
        assert_eq!(rt; number_of(&sheet, 2, Column::Wcet)?, Some(1_000_000));
        assert_eq!(rt; number_of(&sheet, 2, Column::Deadline)?, Some(0));
        assert!(rt; sheet.field(0, Column::Task).is_none());
        assert!(rt; sheet.field(3, Column::Task).is_none());
        assert!(rt; sheet.field(3, Column::Wcet).is_none());
        assert!(rt; sheet.field(1, Column::Estimate).is_none());
        Ok(())
    }

    #[test]
    fn reads_a_board(rt: HostRuntime) -> Result<(), Fail> {
        let sheet = Sheet::read(Form::Board, 1, b"test processors overhead\nrta 2 0\n")?;
        assert_eq!(rt; sheet.len(), 1);
        assert!(rt; field_of(&sheet, 1, Column::Test)?.bytes == b"rta".as_slice());
        assert_eq!(rt; number_of(&sheet, 1, Column::Processors)?, Some(2));
        let overhead = field_of(&sheet, 1, Column::Overhead)?;
        assert_eq!(rt; overhead.number(), Some(0));
        assert_eq!(rt;
            overhead.place,
            Place {
                sheet: 1,
                line: 2,
                field: 3
            }
        );
        Ok(())
    }

    #[test]
    fn reads_numbers(rt: HostRuntime) -> Result<(), Fail> {
        assert_eq!(rt; estimate_in("task estimate\na 0\n")?, Some(0));
        assert_eq!(rt; estimate_in("task estimate\na 7\n")?, Some(7));
        assert_eq!(rt; estimate_in("estimate task\n90210 a\n")?, Some(90_210));
        assert_eq!(rt; estimate_in("task estimate\na 1000000\n")?, Some(1_000_000));
        for field in [
            "007",
            "00",
            "01",
            "1000001",
            "1000010",
            "4294967297",
            "18446744073709551617",
            "-1",
            "+1",
            "1.0",
            "1a",
            "a",
            "one",
        ] {
            let mut text = Vec::new(rt.alloc());
            text.extend_from_slice(b"task estimate\na ")?;
            text.extend_from_slice(field.as_bytes())?;
            text.extend_from_slice(b"\n")?;
            let place = Place {
                sheet: 3,
                line: 2,
                field: 2,
            };
            refused(
                &rt,
                Sheet::read(Form::Answer, 3, &text),
                4,
                Layer::Sheet,
                place,
            )?;
        }
        Ok(())
    }

    #[test]
    fn reads_names(rt: HostRuntime) -> Result<(), Fail> {
        for name in ["a", "z", "0", "9", "-", "a-1", "abcdefghij-12345"] {
            let mut text = Vec::new(rt.alloc());
            text.extend_from_slice(b"task estimate\n")?;
            text.extend_from_slice(name.as_bytes())?;
            text.extend_from_slice(b" 1\n")?;
            let sheet = Sheet::read(Form::Answer, 3, &text)?;
            assert!(rt; field_of(&sheet, 1, Column::Task)?.bytes == name.as_bytes());
        }
        let digits = Sheet::read(Form::Answer, 3, b"task estimate\n007 1\n")?;
        assert_eq!(rt; number_of(&digits, 1, Column::Task)?, None);
        no_answer(&rt, "task estimate\nabcdefghij-123456 1\n", 4, 2, 1)?;
        no_answer(&rt, "task estimate\nA 1\n", 4, 2, 1)?;
        no_answer(&rt, "task estimate\na_b 1\n", 4, 2, 1)?;
        no_answer(&rt, "task estimate\na` 1\n", 4, 2, 1)?;
        no_answer(&rt, "task estimate\n{ 1\n", 4, 2, 1)?;
        no_answer(&rt, "task estimate\n/ 1\n", 4, 2, 1)?;
        no_answer(&rt, "task estimate\n: 1\n", 4, 2, 1)?;
        no_answer(&rt, "task estimate\na\0 1\n", 4, 2, 1)?;
        no_answer(&rt, "task estimate\né 1\n", 4, 2, 1)?;
        no_answer(&rt, "task estimate\na 1é\n", 4, 2, 2)?;
        no_answer(&rt, "task estimate\na 1\0\n", 4, 2, 2)
    }

    #[test]
    fn asks_for_the_size(rt: HostRuntime) -> Result<(), Fail> {
        no_answer(&rt, "", 1, 0, 0)?;
        no_answer(&rt, "task estimate\na 1", 1, 0, 0)?;
        no_answer(&rt, "\n", 2, 1, 0)?;
        no_answer(&rt, "\n\n", 2, 1, 0)?;
        let mut text = [b'a'; 4097];
        text[4095] = b'\n';
        text[4096] = b'\n';
        let line_1 = Place {
            sheet: 3,
            line: 1,
            field: 0,
        };
        refused(
            &rt,
            Sheet::read(Form::Answer, 3, &text[..4096]),
            2,
            Layer::Sheet,
            line_1,
        )?;
        let nowhere = Place {
            sheet: 3,
            line: 0,
            field: 0,
        };
        refused(
            &rt,
            Sheet::read(Form::Answer, 3, &text),
            1,
            Layer::Sheet,
            nowhere,
        )
    }

    #[test]
    fn asks_for_the_names(rt: HostRuntime) -> Result<(), Fail> {
        no_answer(&rt, "task\na\n", 2, 1, 0)?;
        no_answer(&rt, "estimate\n1\n", 2, 1, 0)?;
        no_answer(&rt, "task task\na 1\n", 2, 1, 0)?;
        no_answer(&rt, "estimate estimate\n1 1\n", 2, 1, 0)?;
        no_answer(&rt, "task estimate task\na 1 a\n", 2, 1, 0)?;
        no_answer(&rt, "task estimate wcet\na 1 1\n", 2, 1, 0)?;
        no_answer(&rt, "task wcet\na 1\n", 2, 1, 0)?;
        no_answer(&rt, "Task estimate\na 1\n", 2, 1, 0)?;
        no_answer(&rt, "TASK ESTIMATE\na 1\n", 2, 1, 0)?;
        no_answer(&rt, "tasks estimate\na 1\n", 2, 1, 0)?;
        no_answer(&rt, "tas estimate\na 1\n", 2, 1, 0)?;
        no_answer(&rt, "task  estimate\na 1\n", 2, 1, 0)?;
        no_answer(&rt, " task estimate\na 1\n", 2, 1, 0)?;
        no_answer(&rt, "task estimate \na 1\n", 2, 1, 0)?;
        no_answer(&rt, "task\testimate\na 1\n", 2, 1, 0)?;
        no_answer(&rt, "task estimate\r\na 1\r\n", 2, 1, 0)?;
        no_answer(&rt, "task\0 estimate\na 1\n", 2, 1, 0)?;
        let two = "task wcet period period\na 1 2 2\n";
        no_sheet(&rt, Form::Tasks, two, 2, 1, 0)?;
        let three = "task wcet period\na 1 2\n";
        no_sheet(&rt, Form::Tasks, three, 2, 1, 0)?;
        let others = "wcet period deadline\n1 2 2\n";
        no_sheet(&rt, Form::Tasks, others, 2, 1, 0)?;
        no_sheet(&rt, Form::Board, "task estimate\na 1\n", 2, 1, 0)
    }

    #[test]
    fn asks_line_by_line(rt: HostRuntime) -> Result<(), Fail> {
        no_answer(&rt, "task estimate\na\n", 3, 2, 0)?;
        no_answer(&rt, "task estimate\na 1 2\n", 3, 2, 0)?;
        no_answer(&rt, "task estimate\na  1\n", 3, 2, 0)?;
        no_answer(&rt, "task estimate\n a 1\n", 3, 2, 0)?;
        no_answer(&rt, "task estimate\na 1 \n", 3, 2, 0)?;
        no_answer(&rt, "task estimate\na\t1\n", 3, 2, 0)?;
        no_answer(&rt, "task estimate\n\n", 3, 2, 0)?;
        no_answer(&rt, "task estimate\na 1\n\n", 3, 3, 0)?;
        no_answer(&rt, "task estimate\n 1\n", 4, 2, 1)?;
        no_answer(&rt, "task estimate\na \n", 4, 2, 2)?;
        no_answer(&rt, "task estimate\n \n", 4, 2, 1)?;
        no_answer(&rt, "task estimate\na 1\r\n", 4, 2, 2)?;
        no_answer(&rt, "task estimate\na 1\nb 2\nc x\n", 4, 4, 2)?;
        no_answer(&rt, "task estimate\n? x\n", 4, 2, 1)?;
        no_answer(&rt, "estimate task\nx ?\n", 4, 2, 1)?;
        no_answer(&rt, "task estimate\n? 1 2\n", 3, 2, 0)?;
        no_answer(&rt, "task estimate\na x\nb\n", 4, 2, 2)?;
        no_answer(&rt, "task estimate\na\nb x\n", 3, 2, 0)
    }

    #[test]
    fn asks_for_the_number_of_lines(rt: HostRuntime) -> Result<(), Fail> {
        no_answer(&rt, "task estimate\n", 5, 1, 0)?;
        no_sheet(&rt, Form::Tasks, "task wcet period deadline\n", 5, 1, 0)?;
        no_sheet(&rt, Form::Board, "processors overhead test\n", 5, 1, 0)?;
        let two = "processors overhead test\n2 0 rta\n2 0 rta\n";
        no_sheet(&rt, Form::Board, two, 5, 3, 0)
    }

    #[test]
    fn reads_the_most_lines(rt: HostRuntime) -> Result<(), Fail> {
        let text = long_answer(rt.alloc(), 32, "")?;
        let sheet = Sheet::read(Form::Answer, 3, &text)?;
        assert_eq!(rt; sheet.len(), 32);
        let last = field_of(&sheet, 32, Column::Estimate)?;
        assert_eq!(rt;
            last.place,
            Place {
                sheet: 3,
                line: 33,
                field: 2
            }
        );
        Ok(())
    }

    #[test]
    fn asks_for_no_more_lines(rt: HostRuntime) -> Result<(), Fail> {
        let many = long_answer(rt.alloc(), 33, "")?;
        let line_34 = Place {
            sheet: 3,
            line: 34,
            field: 0,
        };
        refused(
            &rt,
            Sheet::read(Form::Answer, 3, &many),
            5,
            Layer::Sheet,
            line_34,
        )?;
        let more = long_answer(rt.alloc(), 40, "")?;
        refused(
            &rt,
            Sheet::read(Form::Answer, 3, &more),
            5,
            Layer::Sheet,
            line_34,
        )
    }

    #[test]
    fn asks_each_line_before_their_number(rt: HostRuntime) -> Result<(), Fail> {
        let bad = long_answer(rt.alloc(), 32, "a 01\n")?;
        let field_2 = Place {
            sheet: 3,
            line: 34,
            field: 2,
        };
        refused(
            &rt,
            Sheet::read(Form::Answer, 3, &bad),
            4,
            Layer::Sheet,
            field_2,
        )?;
        let later = long_answer(rt.alloc(), 33, "a\n")?;
        let line_35 = Place {
            sheet: 3,
            line: 35,
            field: 0,
        };
        refused(
            &rt,
            Sheet::read(Form::Answer, 3, &later),
            3,
            Layer::Sheet,
            line_35,
        )
    }

    // Appends words with one space between two, and a line feed.
    fn push_line(text: &mut Vec<u8>, words: &[&str]) -> Result<(), AllocError> {
        for (i, word) in words.iter().enumerate() {
            if i > 0 {
                text.extend_from_slice(b" ")?;
            }
            text.extend_from_slice(word.as_bytes())?;
        }
        text.extend_from_slice(b"\n")
    }

    #[test]
    fn reads_the_names_in_any_order(rt: HostRuntime) -> Result<(), Fail> {
        let names = ["task", "wcet", "period", "deadline"];
        let values = ["a", "3", "5", "4"];
        for a in 0..4 {
            for b in 0..4 {
                for c in 0..4 {
                    for d in 0..4 {
                        let mut text = Vec::new(rt.alloc());
                        push_line(&mut text, &[names[a], names[b], names[c], names[d]])?;
                        push_line(&mut text, &[values[a], values[b], values[c], values[d]])?;
                        let each_once = a != b && a != c && a != d && b != c && b != d && c != d;
                        match Sheet::read(Form::Tasks, 2, &text) {
                            Ok(sheet) => {
                                assert!(rt; each_once);
                                assert!(rt;
                                    field_of(&sheet, 1, Column::Task)?.bytes == b"a".as_slice()
                                );
                                assert_eq!(rt; number_of(&sheet, 1, Column::Wcet)?, Some(3));
                                assert_eq!(rt; number_of(&sheet, 1, Column::Period)?, Some(5));
                                assert_eq!(rt; number_of(&sheet, 1, Column::Deadline)?, Some(4));
                            }
                            Err(fault) => {
                                assert!(rt; !each_once);
                                assert_eq!(rt; fault.number(), 2);
                            }
                        }
                    }
                }
            }
        }
        Ok(())
    }

    #[test]
    fn reads_the_names_of_a_board_in_any_order(rt: HostRuntime) -> Result<(), Fail> {
        let names = ["processors", "overhead", "test"];
        let values = ["16", "1000000", "lc"];
        for a in 0..3 {
            for b in 0..3 {
                for c in 0..3 {
                    let mut text = Vec::new(rt.alloc());
                    push_line(&mut text, &[names[a], names[b], names[c]])?;
                    push_line(&mut text, &[values[a], values[b], values[c]])?;
                    let sheet = Sheet::read(Form::Board, 1, &text);
                    assert_eq!(rt; sheet.is_ok(), a != b && a != c && b != c);
                }
            }
        }
        Ok(())
    }

    // Reads both sheets and pairs them.
    fn paired(tasks: &str, answer: &str) -> Result<[usize; 32], Fault> {
        let tasks = Sheet::read(Form::Tasks, 2, tasks.as_bytes())?;
        let answer = Sheet::read(Form::Answer, 3, answer.as_bytes())?;
        pair(&tasks, &answer)
    }

    // The sheets are not paired: the first fault is this one.
    fn not_paired(
        rt: &impl Abort,
        tasks: &str,
        answer: &str,
        number: u32,
        place: Place,
    ) -> Result<(), Fail> {
        refused(rt, paired(tasks, answer), number, Layer::Pair, place)
    }

    #[test]
    fn pairs_the_sheets(rt: HostRuntime) -> Result<(), Fail> {
        let tasks = "task wcet period deadline\na 2 5 5\nb 2 5 5\nc 3 6 6\n";
        let rows = paired(tasks, "task estimate\nc 5\na 2\nb 3\n")?;
        assert!(rt; rows[..4] == [3, 1, 2, 0]);
        assert_eq!(rt; rows[31], 0);
        let one = paired(
            "period deadline wcet task\n5 5 2 a\n",
            "estimate task\n2 a\n",
        )?;
        assert!(rt; one[..2] == [1, 0]);
        Ok(())
    }

    #[test]
    fn asks_for_a_repeated_task(rt: HostRuntime) -> Result<(), Fail> {
        let tasks = "task wcet period deadline\na 2 5 5\nb 2 5 5\na 3 6 6\nb 3 6 6\n";
        let place = Place {
            sheet: 2,
            line: 4,
            field: 1,
        };
        not_paired(&rt, tasks, "task estimate\nz 5\n", 6, place)?;
        let turned = "wcet period task deadline\n2 5 a 5\n2 5 a 5\n";
        let field_3 = Place {
            sheet: 2,
            line: 3,
            field: 3,
        };
        not_paired(&rt, turned, "task estimate\na 5\n", 6, field_3)
    }

    #[test]
    fn asks_for_the_answered_names(rt: HostRuntime) -> Result<(), Fail> {
        let tasks = "task wcet period deadline\na 2 5 5\nb 2 5 5\nc 3 6 6\n";
        let line_3 = Place {
            sheet: 3,
            line: 3,
            field: 1,
        };
        not_paired(&rt, tasks, "task estimate\na 2\nz 3\nb 2\nc 5\n", 7, line_3)?;
        not_paired(
            &rt,
            tasks,
            "task estimate\na 2\naa 3\nb 2\nc 5\n",
            7,
            line_3,
        )?;
        not_paired(&rt, tasks, "task estimate\na 2\na 3\nz 2\n", 7, line_3)?;
        let field_2 = Place {
            sheet: 3,
            line: 5,
            field: 2,
        };
        not_paired(
            &rt,
            tasks,
            "estimate task\n2 a\n3 b\n5 c\n5 c\n",
            7,
            field_2,
        )
    }

    #[test]
    fn asks_for_each_task(rt: HostRuntime) -> Result<(), Fail> {
        let tasks = "task wcet period deadline\na 2 5 5\nb 2 5 5\nc 3 6 6\n";
        let line_3 = Place {
            sheet: 2,
            line: 3,
            field: 0,
        };
        not_paired(&rt, tasks, "task estimate\nc 5\na 2\n", 8, line_3)?;
        let line_2 = Place {
            sheet: 2,
            line: 2,
            field: 0,
        };
        not_paired(&rt, tasks, "task estimate\nc 5\n", 8, line_2)
    }

    #[test]
    fn finds_no_names_on_a_board(rt: HostRuntime) -> Result<(), Fail> {
        let tasks = Sheet::read(Form::Tasks, 2, b"task wcet period deadline\na 2 5 5\n")?;
        let board = Sheet::read(Form::Board, 1, b"processors overhead test\n2 0 rta\n")?;
        let past_last = Place {
            sheet: 1,
            line: 2,
            field: 4,
        };
        refused(&rt, pair(&tasks, &board), 7, Layer::Pair, past_last)
    }

    #[test]
    fn keeps_the_number_of_a_sheet(rt: HostRuntime) -> Result<(), Fail> {
        let names = b"task wcet period deadline\n";
        let no_value = Place {
            sheet: 4,
            line: 1,
            field: 0,
        };
        refused(
            &rt,
            Sheet::read(Form::Tasks, 4, names),
            5,
            Layer::Sheet,
            no_value,
        )?;
        let twice = b"task wcet period deadline\na 2 5 5\na 2 5 5\n";
        let tasks = Sheet::read(Form::Tasks, 4, twice)?;
        let answer = Sheet::read(Form::Answer, 3, b"task estimate\na 2\n")?;
        let repeated = Place {
            sheet: 4,
            line: 3,
            field: 1,
        };
        assert_eq!(rt; field_of(&tasks, 2, Column::Task)?.place, repeated);
        refused(&rt, pair(&tasks, &answer), 6, Layer::Pair, repeated)
    }

    #[test]
    fn names_the_columns(rt: HostRuntime) -> Result<(), Fail> {
        assert!(rt; Column::Processors.name() == b"processors".as_slice());
        assert!(rt; Column::Overhead.name() == b"overhead".as_slice());
        assert!(rt; Column::Test.name() == b"test".as_slice());
        assert!(rt; Column::Task.name() == b"task".as_slice());
        assert!(rt; Column::Wcet.name() == b"wcet".as_slice());
        assert!(rt; Column::Period.name() == b"period".as_slice());
        assert!(rt; Column::Deadline.name() == b"deadline".as_slice());
        assert!(rt; Column::Estimate.name() == b"estimate".as_slice());
        Ok(())
    }
}
