// Tests of the question, the tests, analyse and check.
#![tactic(auto)]

#[cfg(test)]
mod tests {
    use bounds::analyse::analyse;
    use bounds::check::check as check_answer;
    use bounds::{Da, Lc, Miss, NamedTest, Overhead, Processors, Question, Rta, Test};
    use std::array;
    use std::process::Abort;
    use std::test::Fail;
    use table::{Fault, Layer, Place, Table};
    use worked::worked_table;

    // The tasks in the list as a set.
    fn set_of(tasks: &[usize]) -> [bool; 32] {
        array::from_fn(|place| tasks.contains(&(place + 1)))
    }

    // The estimates, with 0 past the last one.
    fn estimates_of(list: &[u32]) -> [u32; 32] {
        array::from_fn(|place| list.get(place).copied().unwrap_or(0))
    }

    // What a test answers of a task of the worked table.
    fn answer_of<T: Test>(
        test: &T,
        task: usize,
        above: &[usize],
        estimates: &[u32],
    ) -> Result<Option<u32>, Fail> {
        let question = Question {
            table: &worked_table()?,
            task,
            above: &set_of(above),
            estimates: &estimates_of(estimates),
        };
        Ok(test.ask(&question))
    }

    // What da on 2 processors answers of a task of the worked table.
    fn da_on(task: usize, above: &[usize], estimates: &[u32]) -> Result<Option<u32>, Fail> {
        answer_of(&Da::new(Processors::new(2)?), task, above, estimates)
    }

    // What a test answers of c in the worked table with a and b above.
    fn on_c<T: Test>(test: &T, a: u32, b: u32) -> Result<Option<u32>, Fail> {
        answer_of(test, 3, &[1, 2], &[a, b, 3])
    }

    // The call was refused by this layer with this number, and without a sheet.
    fn refused<T: Drop>(
        rt: &impl Abort,
        given: Result<T, Fault>,
        number: u32,
        layer: Layer,
    ) -> Result<(), Fail> {
        let fault = given
            .err()
            .ok_or_else(|| Fail::new("the call was accepted"))?;
        assert_eq!(rt; fault.number(), number);
        assert_eq!(rt; fault.layer(), layer);
        assert_eq!(rt; fault.place(), Place::NOWHERE);
        Ok(())
    }

    #[test]
    fn answers_by_deadlines(rt: HostRuntime) -> Result<(), Fail> {
        let low = &[2, 2, 3];
        assert_eq!(rt; da_on(3, &[1, 2], low)?, None);
        assert_eq!(rt; da_on(3, &[1], low)?, Some(5));
        assert_eq!(rt; da_on(3, &[], low)?, Some(3));
        assert_eq!(rt; da_on(2, &[1], low)?, Some(4));
        assert_eq!(rt; da_on(3, &[1], &[5, 5, 6])?, Some(5));
        Ok(())
    }

    #[test]
    fn unsound_questions_are_late(rt: HostRuntime) -> Result<(), Fail> {
        let low = &[2, 2, 3];
        assert_eq!(rt; da_on(0, &[], low)?, None);
        assert_eq!(rt; da_on(4, &[], low)?, None);
        assert_eq!(rt; da_on(3, &[3], low)?, None);
        assert_eq!(rt; da_on(3, &[4], low)?, None);
        assert_eq!(rt; da_on(3, &[1], &[1, 2, 3])?, None);
        assert_eq!(rt; da_on(3, &[1], &[2, 6, 3])?, None);
        assert_eq!(rt; da_on(3, &[1], &[2, 2, 7])?, None);
        Ok(())
    }

    #[test]
    fn answers_by_responses(rt: HostRuntime) -> Result<(), Fail> {
        let rta = Rta::new(Processors::new(2)?);
        assert_eq!(rt; on_c(&rta, 2, 2)?, Some(5));
        assert_eq!(rt; on_c(&rta, 2, 3)?, Some(5));
        assert_eq!(rt; on_c(&rta, 3, 3)?, None);
        assert_eq!(rt; on_c(&rta, 1, 2)?, None);
        let lc = Lc::new(Processors::new(2)?);
        assert_eq!(rt; on_c(&lc, 5, 5)?, Some(5));
        assert_eq!(rt; on_c(&lc, 5, 6)?, None);
        Ok(())
    }

    #[test]
    fn adds_overheads(rt: HostRuntime) -> Result<(), Fail> {
        assert_eq!(rt;
            on_c(&Overhead::new(0, Rta::new(Processors::new(2)?))?, 2, 2)?,
            Some(5)
        );
        assert_eq!(rt;
            on_c(&Overhead::new(1, Rta::new(Processors::new(2)?))?, 2, 2)?,
            Some(6)
        );
        assert_eq!(rt;
            on_c(&Overhead::new(2, Rta::new(Processors::new(2)?))?, 2, 2)?,
            None
        );
        assert_eq!(rt;
            on_c(
                &Overhead::new(1_000_000, Rta::new(Processors::new(2)?))?,
                2,
                2
            )?,
            None
        );
        assert_eq!(rt;
            on_c(&Overhead::new(1, Rta::new(Processors::new(2)?))?, 3, 3)?,
            None
        );
        assert_eq!(rt;
            on_c(
                &Overhead::new(1, Overhead::new(1, Rta::new(Processors::new(2)?))?)?,
                2,
                2
            )?,
            None
        );
        assert_eq!(rt;
            on_c(
                &Overhead::new(1, Overhead::new(0, Rta::new(Processors::new(2)?))?)?,
                2,
                2
            )?,
            Some(6)
        );
        Ok(())
    }

    #[test]
    fn refuses_other_tests(rt: HostRuntime) -> Result<(), Fail> {
        let two = Processors::new(2)?;
        for name in ["", "d", "dab", "DA", "rta ", "edf", "l"] {
            refused(&rt, NamedTest::new(name.as_bytes(), two), 12, Layer::Board)?;
            assert!(rt; !NamedTest::has_name(name.as_bytes()));
        }
        for name in ["da", "rta", "lc"] {
            for count in [1, 2, 16] {
                let processors = Processors::new(count)?;
                assert!(rt; NamedTest::new(name.as_bytes(), processors).is_ok());
            }
            assert!(rt; NamedTest::has_name(name.as_bytes()));
        }
        Ok(())
    }

    #[test]
    fn refuses_a_long_overhead(rt: HostRuntime) -> Result<(), Fail> {
        let overhead = Overhead::new(1_000_001, Rta::new(Processors::new(2)?));
        refused(&rt, overhead, 12, Layer::Board)
    }

    #[test]
    fn checks_answers(rt: HostRuntime) -> Result<(), Fail> {
        let table = worked_table()?;
        let rta = Rta::new(Processors::new(2)?);
        assert_eq!(rt; check_answer(&rta, &table, &[1, 2, 3], &[2, 3, 5])?, None);
        assert_eq!(rt;
            check_answer(&rta, &table, &[1, 2, 3], &[2, 3, 4])?,
            Some(Miss {
                task: 3,
                bound: Some(5),
            })
        );
        assert_eq!(rt;
            check_answer(&rta, &table, &[2, 1, 3], &[3, 3, 6])?,
            Some(Miss {
                task: 3,
                bound: None,
            })
        );
        assert_eq!(rt;
            check_answer(
                &Da::new(Processors::new(2)?),
                &table,
                &[1, 2, 3],
                &[2, 3, 5]
            )?,
            Some(Miss {
                task: 2,
                bound: Some(4),
            })
        );
        Ok(())
    }

    #[test]
    fn refuses_what_is_no_answer(rt: HostRuntime) -> Result<(), Fail> {
        let table = worked_table()?;
        let rta = Rta::new(Processors::new(2)?);
        let empty = check_answer(&rta, &Table::new(), &[1], &[1]);
        refused(&rt, empty, 13, Layer::Study)?;
        let answers: [(&[usize], &[u32]); 6] = [
            (&[1, 2], &[2, 3, 5]),
            (&[1, 2, 2], &[2, 3, 5]),
            (&[1, 2, 3], &[2, 3]),
            (&[1, 2, 3], &[2, 3, 5, 5]),
            (&[1, 2, 3], &[1, 3, 5]),
            (&[1, 2, 3], &[2, 3, 7]),
        ];
        for (order, estimates) in answers {
            let given = check_answer(&rta, &table, order, estimates);
            refused(&rt, given, 17, Layer::Study)?;
        }
        Ok(())
    }

    #[test]
    fn takes_1_to_16_processors(rt: HostRuntime) -> Result<(), Fail> {
        assert!(rt; Processors::new(1).is_ok());
        assert!(rt; Processors::new(16).is_ok());
        for m in [0, 17, 4_294_967_295] {
            refused(&rt, Processors::new(m), 12, Layer::Board)?;
        }
        Ok(())
    }

    #[test]
    fn analyses_orders(rt: HostRuntime) -> Result<(), Fail> {
        let table = worked_table()?;
        let mut bounds = [9; 3];
        assert_eq!(rt;
            analyse(
                &Da::new(Processors::new(2)?),
                &table,
                &[1, 2, 3],
                &mut bounds
            )?,
            Some(3)
        );
        assert_eq!(rt; bounds, [2, 4, 0]);
        assert_eq!(rt;
            analyse(
                &Da::new(Processors::new(2)?),
                &table,
                &[3, 1, 2],
                &mut bounds
            )?,
            Some(2)
        );
        assert_eq!(rt; bounds, [4, 0, 3]);
        assert_eq!(rt;
            analyse(
                &Da::new(Processors::new(1)?),
                &table,
                &[2, 1, 3],
                &mut bounds
            )?,
            Some(1)
        );
        assert_eq!(rt; bounds, [0, 2, 0]);
        assert_eq!(rt;
            analyse(
                &Da::new(Processors::new(3)?),
                &table,
                &[1, 2, 3],
                &mut bounds
            )?,
            None
        );
        assert_eq!(rt; bounds, [2, 3, 5]);
        Ok(())
    }

    #[test]
    fn refuses_an_empty_table(rt: HostRuntime) -> Result<(), Fail> {
        let mut bounds = [7, 8, 9];
        let orders: [&[usize]; 2] = [&[], &[1]];
        for order in orders {
            let given = analyse(
                &Da::new(Processors::new(2)?),
                &Table::new(),
                order,
                &mut bounds,
            );
            refused(&rt, given, 13, Layer::Study)?;
        }
        assert_eq!(rt; bounds, [7, 8, 9]);
        Ok(())
    }

    #[test]
    fn refuses_what_is_no_order(rt: HostRuntime) -> Result<(), Fail> {
        let table = worked_table()?;
        let test = Da::new(Processors::new(2)?);
        let mut bounds = [7, 8];
        let orders: [&[usize]; 5] = [&[1, 2], &[1, 2, 2], &[0, 1, 2], &[1, 2, 4], &[1, 2, 3, 3]];
        for order in orders {
            let given = analyse(&test, &table, order, &mut bounds);
            refused(&rt, given, 17, Layer::Study)?;
        }
        assert_eq!(rt; bounds, [7, 8]);
        Ok(())
    }

    #[test]
    fn refuses_a_list_of_another_length(rt: HostRuntime) -> Result<(), Fail> {
        let table = worked_table()?;
        let test = Da::new(Processors::new(2)?);
        let mut short = [7, 8];
        let given = analyse(&test, &table, &[3, 2, 1], &mut short);
        refused(&rt, given, 18, Layer::Study)?;
        assert_eq!(rt; short, [7, 8]);
        let mut long = [6, 7, 8, 9];
        let given = analyse(&test, &table, &[3, 2, 1], &mut long);
        refused(&rt, given, 18, Layer::Study)?;
        assert_eq!(rt; long, [6, 7, 8, 9]);
        Ok(())
    }
}
