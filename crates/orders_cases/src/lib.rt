// Tests of the assigner and of growth. The expected values were found by trying every order of a
// table and every value of each end of a range.
#![tactic(auto)]

#[cfg(test)]
mod tests {
    use bounds::{NamedTest, Overhead, Processors, Test};
    use orders::assign::assign;
    use orders::grow::grow;
    use orders::settle::settle;
    use orders::{Range, Settled};
    use std::array;
    use std::test::Fail;
    use table::{Fault, Numbers, Row, Table};
    use worked::worked_table;

    // What stands in the lows past the rows. It is not looked at, nor is what stands in the highs.
    const PAST_LOW: u32 = 9;

    // What stands in the highs past the rows.
    const PAST_HIGH: u32 = 4;

    // A test with its overhead, if any, the rows as wcet, period and deadline, and a low and a high for each row.
    struct Case<'a> {
        test: &'a str,
        processors: u32,
        overhead: Option<u32>,
        rows: &'a [(u32, u32, u32)],
        lows: &'a [u32],
        highs: &'a [u32],
    }

    // An open range and its order.
    struct OpenCase<'a> {
        case: Case<'a>,
        order: &'a [usize],
    }

    // A closed range and the ends of its grown form.
    struct ClosedCase<'a> {
        case: Case<'a>,
        grown_lows: &'a [u32],
        grown_highs: &'a [u32],
    }

    const OPEN: [OpenCase<'static>; 16] = [
        OpenCase {
            case: Case {
                test: "da",
                processors: 1,
                overhead: None,
                rows: &[(2, 11, 11), (4, 11, 9)],
                lows: &[7, 6],
                highs: &[7, 8],
            },
            order: &[1, 2],
        },
        OpenCase {
            case: Case {
                test: "da",
                processors: 2,
                overhead: None,
                rows: &[(4, 7, 7), (2, 8, 7), (3, 11, 9)],
                lows: &[6, 5, 4],
                highs: &[6, 5, 8],
            },
            order: &[2, 1, 3],
        },
        OpenCase {
            case: Case {
                test: "da",
                processors: 3,
                overhead: None,
                rows: &[(2, 12, 9), (3, 12, 9), (3, 11, 10), (4, 12, 9)],
                lows: &[7, 3, 8, 7],
                highs: &[8, 3, 8, 7],
            },
            order: &[2, 4, 3, 1],
        },
        OpenCase {
            case: Case {
                test: "rta",
                processors: 1,
                overhead: None,
                rows: &[(2, 11, 5), (2, 10, 10), (1, 11, 6)],
                lows: &[4, 3, 2],
                highs: &[4, 7, 4],
            },
            order: &[3, 1, 2],
        },
        OpenCase {
            case: Case {
                test: "rta",
                processors: 2,
                overhead: None,
                rows: &[(5, 6, 6), (3, 10, 6), (1, 7, 4), (1, 7, 7)],
                lows: &[6, 4, 2, 6],
                highs: &[6, 5, 3, 6],
            },
            order: &[3, 2, 1, 4],
        },
        OpenCase {
            case: Case {
                test: "rta",
                processors: 3,
                overhead: None,
                rows: &[(1, 3, 3), (1, 3, 2), (3, 9, 8), (2, 12, 11), (4, 6, 6)],
                lows: &[2, 2, 6, 5, 5],
                highs: &[2, 2, 7, 5, 5],
            },
            order: &[5, 4, 2, 1, 3],
        },
        OpenCase {
            case: Case {
                test: "lc",
                processors: 1,
                overhead: None,
                rows: &[(2, 7, 6), (2, 11, 8), (1, 12, 5), (2, 12, 11)],
                lows: &[4, 5, 5, 9],
                highs: &[4, 6, 5, 9],
            },
            order: &[3, 1, 2, 4],
        },
        OpenCase {
            case: Case {
                test: "lc",
                processors: 2,
                overhead: None,
                rows: &[(1, 12, 12), (4, 12, 12), (2, 10, 10), (3, 12, 4), (4, 7, 5)],
                lows: &[2, 8, 5, 3, 5],
                highs: &[4, 10, 10, 3, 5],
            },
            order: &[5, 4, 1, 2, 3],
        },
        OpenCase {
            case: Case {
                test: "lc",
                processors: 3,
                overhead: None,
                rows: &[(5, 9, 7), (3, 10, 6), (2, 9, 9), (2, 8, 6), (2, 12, 7)],
                lows: &[6, 4, 9, 3, 2],
                highs: &[6, 4, 9, 5, 4],
            },
            order: &[5, 2, 1, 4, 3],
        },
        OpenCase {
            case: Case {
                test: "rta",
                processors: 1,
                overhead: Some(1),
                rows: &[(2, 11, 11), (1, 10, 10), (1, 12, 9), (1, 7, 4), (2, 7, 7)],
                lows: &[10, 1, 3, 2, 4],
                highs: &[11, 10, 9, 2, 5],
            },
            order: &[4, 5, 3, 2, 1],
        },
        OpenCase {
            case: Case {
                test: "rta",
                processors: 2,
                overhead: Some(1),
                rows: &[(3, 11, 5), (3, 9, 8), (4, 9, 8), (1, 10, 8)],
                lows: &[4, 4, 8, 2],
                highs: &[4, 4, 8, 6],
            },
            order: &[2, 1, 4, 3],
        },
        OpenCase {
            case: Case {
                test: "rta",
                processors: 3,
                overhead: Some(1),
                rows: &[(1, 5, 3), (1, 11, 8), (4, 11, 7), (1, 8, 6)],
                lows: &[2, 2, 5, 4],
                highs: &[2, 2, 5, 6],
            },
            order: &[3, 2, 1, 4],
        },
        OpenCase {
            case: Case {
                test: "rta",
                processors: 1,
                overhead: None,
                rows: &[(5, 5, 5)],
                lows: &[5],
                highs: &[5],
            },
            order: &[1],
        },
        OpenCase {
            case: Case {
                test: "da",
                processors: 2,
                overhead: None,
                rows: &[(2, 11, 11), (2, 11, 6), (4, 12, 10), (3, 9, 7)],
                lows: &[2, 2, 4, 3],
                highs: &[11, 6, 8, 5],
            },
            order: &[4, 3, 2, 1],
        },
        OpenCase {
            case: Case {
                test: "lc",
                processors: 2,
                overhead: None,
                rows: &[(4, 11, 10), (1, 8, 5), (2, 10, 8), (2, 6, 5)],
                lows: &[4, 1, 2, 2],
                highs: &[6, 4, 4, 4],
            },
            order: &[4, 3, 2, 1],
        },
        OpenCase {
            case: Case {
                test: "rta",
                processors: 2,
                overhead: Some(1),
                rows: &[(3, 10, 10), (3, 6, 6), (3, 8, 8)],
                lows: &[7, 4, 6],
                highs: &[9, 6, 8],
            },
            order: &[2, 1, 3],
        },
    ];

    const CLOSED: [ClosedCase<'static>; 17] = [
        ClosedCase {
            case: Case {
                test: "da",
                processors: 1,
                overhead: None,
                rows: &[(1, 6, 6), (1, 10, 4), (2, 10, 10)],
                lows: &[3, 2, 5],
                highs: &[3, 2, 5],
            },
            grown_lows: &[1, 1, 2],
            grown_highs: &[5, 4, 6],
        },
        ClosedCase {
            case: Case {
                test: "da",
                processors: 2,
                overhead: None,
                rows: &[(2, 11, 11), (2, 11, 6), (4, 12, 10), (3, 9, 7)],
                lows: &[4, 2, 6, 3],
                highs: &[5, 2, 7, 3],
            },
            grown_lows: &[2, 2, 4, 3],
            grown_highs: &[11, 5, 8, 5],
        },
        ClosedCase {
            case: Case {
                test: "da",
                processors: 3,
                overhead: None,
                rows: &[(4, 11, 11), (2, 12, 11), (5, 10, 9), (1, 7, 2), (1, 6, 5)],
                lows: &[4, 10, 6, 1, 1],
                highs: &[4, 11, 6, 1, 1],
            },
            grown_lows: &[4, 2, 5, 1, 1],
            grown_highs: &[7, 11, 7, 1, 3],
        },
        ClosedCase {
            case: Case {
                test: "rta",
                processors: 1,
                overhead: None,
                rows: &[(2, 12, 6), (1, 9, 2), (1, 6, 6), (1, 4, 3)],
                lows: &[6, 2, 4, 2],
                highs: &[6, 2, 4, 2],
            },
            grown_lows: &[2, 1, 2, 1],
            grown_highs: &[6, 2, 5, 3],
        },
        ClosedCase {
            case: Case {
                test: "rta",
                processors: 2,
                overhead: None,
                rows: &[(3, 10, 9), (2, 12, 9), (1, 7, 4), (4, 12, 12), (2, 6, 6)],
                lows: &[6, 7, 2, 9, 3],
                highs: &[9, 8, 4, 9, 3],
            },
            grown_lows: &[3, 6, 1, 9, 3],
            grown_highs: &[9, 8, 4, 9, 6],
        },
        ClosedCase {
            case: Case {
                test: "rta",
                processors: 3,
                overhead: None,
                rows: &[(1, 11, 6), (3, 6, 6), (3, 6, 6), (1, 4, 3), (3, 12, 7)],
                lows: &[1, 3, 4, 1, 4],
                highs: &[1, 5, 4, 1, 4],
            },
            grown_lows: &[1, 3, 3, 1, 3],
            grown_highs: &[3, 5, 5, 3, 5],
        },
        ClosedCase {
            case: Case {
                test: "lc",
                processors: 1,
                overhead: None,
                rows: &[(3, 9, 9), (2, 8, 7), (2, 8, 3), (1, 7, 6), (2, 11, 11)],
                lows: &[4, 6, 3, 3, 7],
                highs: &[4, 6, 3, 4, 7],
            },
            grown_lows: &[3, 2, 2, 1, 2],
            grown_highs: &[9, 7, 3, 6, 11],
        },
        ClosedCase {
            case: Case {
                test: "lc",
                processors: 2,
                overhead: None,
                rows: &[(4, 11, 10), (1, 8, 5), (2, 10, 8), (2, 6, 5)],
                lows: &[6, 1, 2, 3],
                highs: &[6, 1, 2, 3],
            },
            grown_lows: &[4, 1, 2, 3],
            grown_highs: &[6, 4, 4, 4],
        },
        ClosedCase {
            case: Case {
                test: "lc",
                processors: 3,
                overhead: None,
                rows: &[(2, 4, 4), (4, 12, 10), (3, 10, 6), (2, 6, 4)],
                lows: &[3, 4, 3, 2],
                highs: &[3, 4, 3, 2],
            },
            grown_lows: &[2, 4, 3, 2],
            grown_highs: &[3, 5, 4, 3],
        },
        ClosedCase {
            case: Case {
                test: "rta",
                processors: 1,
                overhead: Some(1),
                rows: &[(2, 8, 8), (5, 11, 10)],
                lows: &[6, 8],
                highs: &[6, 8],
            },
            grown_lows: &[4, 5],
            grown_highs: &[7, 9],
        },
        ClosedCase {
            case: Case {
                test: "rta",
                processors: 2,
                overhead: Some(1),
                rows: &[(3, 10, 10), (3, 6, 6), (3, 8, 8)],
                lows: &[8, 5, 7],
                highs: &[8, 5, 8],
            },
            grown_lows: &[8, 4, 6],
            grown_highs: &[9, 6, 8],
        },
        ClosedCase {
            case: Case {
                test: "rta",
                processors: 3,
                overhead: Some(1),
                rows: &[(1, 8, 6), (2, 4, 4), (3, 5, 5), (1, 6, 5)],
                lows: &[1, 3, 4, 1],
                highs: &[1, 3, 4, 2],
            },
            grown_lows: &[1, 2, 3, 1],
            grown_highs: &[2, 3, 4, 2],
        },
        ClosedCase {
            case: Case {
                test: "rta",
                processors: 1,
                overhead: None,
                rows: &[(2, 3, 3), (2, 3, 3)],
                lows: &[2, 2],
                highs: &[2, 2],
            },
            grown_lows: &[2, 2],
            grown_highs: &[3, 3],
        },
        ClosedCase {
            case: Case {
                test: "rta",
                processors: 1,
                overhead: Some(1),
                rows: &[(3, 5, 5)],
                lows: &[3],
                highs: &[3],
            },
            grown_lows: &[3],
            grown_highs: &[3],
        },
        ClosedCase {
            case: Case {
                test: "rta",
                processors: 2,
                overhead: None,
                rows: &[(3, 10, 9), (2, 12, 9), (1, 7, 4), (4, 12, 12), (2, 6, 6)],
                lows: &[3, 6, 1, 9, 3],
                highs: &[9, 8, 4, 9, 6],
            },
            grown_lows: &[3, 6, 1, 9, 3],
            grown_highs: &[9, 8, 4, 9, 6],
        },
        ClosedCase {
            case: Case {
                test: "lc",
                processors: 1,
                overhead: None,
                rows: &[(1, 4, 4), (2, 6, 5), (1, 8, 3), (2, 12, 12), (1, 10, 9)],
                lows: &[1, 2, 1, 2, 1],
                highs: &[1, 2, 1, 2, 1],
            },
            grown_lows: &[1, 2, 1, 2, 1],
            grown_highs: &[4, 5, 3, 12, 9],
        },
        ClosedCase {
            case: Case {
                test: "lc",
                processors: 2,
                overhead: None,
                rows: &[(2, 5, 5), (2, 5, 5), (3, 6, 6)],
                lows: &[2, 2, 3],
                highs: &[2, 2, 3],
            },
            grown_lows: &[2, 2, 3],
            grown_highs: &[3, 3, 4],
        },
    ];

    const NO_RANGES: [Case<'static>; 10] = [
        Case {
            test: "da",
            processors: 2,
            overhead: None,
            rows: &[(4, 7, 7), (2, 8, 7), (3, 11, 9)],
            lows: &[3, 5, 4],
            highs: &[6, 5, 8],
        },
        Case {
            test: "da",
            processors: 3,
            overhead: None,
            rows: &[(2, 12, 9), (3, 12, 9), (3, 11, 10), (4, 12, 9)],
            lows: &[7, 4, 8, 7],
            highs: &[8, 3, 8, 7],
        },
        Case {
            test: "rta",
            processors: 1,
            overhead: None,
            rows: &[(2, 11, 5), (2, 10, 10), (1, 11, 6)],
            lows: &[4, 3, 2],
            highs: &[6, 7, 4],
        },
        Case {
            test: "rta",
            processors: 2,
            overhead: None,
            rows: &[(5, 6, 6), (3, 10, 6), (1, 7, 4), (1, 7, 7)],
            lows: &[6, 4, 2, 0],
            highs: &[6, 5, 3, 6],
        },
        Case {
            test: "lc",
            processors: 2,
            overhead: None,
            rows: &[(1, 12, 12), (4, 12, 12), (2, 10, 10), (3, 12, 4), (4, 7, 5)],
            lows: &[2, 8, 5, 3, 5],
            highs: &[4, 10, 10, 3, 6],
        },
        Case {
            test: "lc",
            processors: 3,
            overhead: None,
            rows: &[(5, 9, 7), (3, 10, 6), (2, 9, 9), (2, 8, 6), (2, 12, 7)],
            lows: &[7, 4, 9, 3, 2],
            highs: &[6, 4, 9, 5, 4],
        },
        Case {
            test: "rta",
            processors: 2,
            overhead: Some(1),
            rows: &[(3, 11, 5), (3, 9, 8), (4, 9, 8), (1, 10, 8)],
            lows: &[4, 4, 8, 7],
            highs: &[4, 4, 8, 6],
        },
        Case {
            test: "rta",
            processors: 3,
            overhead: Some(1),
            rows: &[(1, 8, 6), (2, 4, 4), (3, 5, 5), (1, 6, 5)],
            lows: &[1, 3, 4, 1],
            highs: &[1, 5, 4, 2],
        },
        Case {
            test: "lc",
            processors: 2,
            overhead: None,
            rows: &[(4, 11, 10), (1, 8, 5), (2, 10, 8), (2, 6, 5)],
            lows: &[7, 1, 2, 3],
            highs: &[6, 1, 2, 3],
        },
        Case {
            test: "da",
            processors: 1,
            overhead: None,
            rows: &[(1, 6, 6), (1, 10, 4), (2, 10, 10)],
            lows: &[3, 2, 1],
            highs: &[3, 2, 5],
        },
    ];

    // The values, and the same one in every place past them.
    fn padded<T: Copy + Drop>(values: &[T], past: T) -> [T; 32] {
        array::from_fn(|place| values.get(place).copied().unwrap_or(past))
    }

    fn range_of(lows: &[u32], highs: &[u32]) -> Range {
        Range {
            lows: padded(lows, PAST_LOW),
            highs: padded(highs, PAST_HIGH),
        }
    }

    fn table_of(rows: &[(u32, u32, u32)]) -> Result<Table, Fault> {
        let mut table = Table::new();
        for &(wcet, period, deadline) in rows {
            table.add(Numbers::of(wcet, period, deadline))?;
        }
        Ok(table)
    }

    // The order that the assigner gives, if any, the range that growth gives, and the one of both that settling gives.
    #[derive(Clone, Copy, PartialEq, Debug)]
    struct Found {
        order: Option<[usize; 32]>,
        grown: Range,
        settled: Settled,
    }

    // What is found in a range of a table.
    fn find<T: Test>(test: &T, table: &Table, range: &Range) -> Found {
        Found {
            order: assign(test, table, range),
            grown: grow(test, table, range),
            settled: settle(test, table, range),
        }
    }

    // What is to be found: an order, if any, and a range.
    fn wanted(order: Option<&[usize]>, grown: Range) -> Found {
        let order = order.map(|tasks| padded(tasks, 0));
        let settled = match order {
            Some(order) => Settled::Order(order),
            None => Settled::Grown(grown),
        };
        Found {
            order,
            grown,
            settled,
        }
    }

    impl Case<'_> {
        fn range(&self) -> Range {
            range_of(self.lows, self.highs)
        }

        fn find(&self) -> Result<Found, Fault> {
            let table = table_of(self.rows)?;
            let range = self.range();
            let test = NamedTest::new(self.test.as_bytes(), Processors::new(self.processors)?)?;
            match self.overhead {
                None => Ok(find(&test, &table, &range)),
                Some(extra) => Ok(find(&Overhead::new(extra, test)?, &table, &range)),
            }
        }
    }

    #[test]
    fn orders_open_ranges(rt: HostRuntime) -> Result<(), Fail> {
        for (place, open) in OPEN.iter().enumerate() {
            let same = open.case.range();
            assert_eq!(rt;
                open.case.find()?,
                wanted(Some(open.order), same),
                "OPEN[{place}]"
            );
        }
        Ok(())
    }

    #[test]
    fn grows_closed_ranges(rt: HostRuntime) -> Result<(), Fail> {
        for (place, closed) in CLOSED.iter().enumerate() {
            let grown = range_of(closed.grown_lows, closed.grown_highs);
            assert_eq!(rt; closed.case.find()?, wanted(None, grown), "CLOSED[{place}]");
        }
        Ok(())
    }

    #[test]
    fn gives_back_what_is_no_range(rt: HostRuntime) -> Result<(), Fail> {
        for (place, case) in NO_RANGES.iter().enumerate() {
            assert_eq!(rt;
                case.find()?,
                wanted(None, case.range()),
                "NO_RANGES[{place}]"
            );
        }
        Ok(())
    }

    #[test]
    fn judges_the_worked_table(rt: HostRuntime) -> Result<(), Fail> {
        let table = worked_table()?;
        let test = NamedTest::new("rta".as_bytes(), Processors::new(2)?)?;
        let lows = range_of(&[2, 2, 3], &[2, 2, 3]);
        let closed = range_of(&[2, 2, 3], &[3, 3, 4]);
        let open = range_of(&[2, 2, 3], &[3, 3, 5]);
        assert_eq!(rt; find(&test, &table, &lows), wanted(None, closed));
        assert_eq!(rt; find(&test, &table, &closed), wanted(None, closed));
        assert_eq!(rt; find(&test, &table, &open), wanted(Some(&[2, 1, 3]), open));
        Ok(())
    }
}
