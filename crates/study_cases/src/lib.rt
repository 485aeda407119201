// Tests of the study. The expected searches were found by trying every order of a table and every value of each
// end of a range.
#![tactic(auto)]

#[cfg(test)]
mod tests {
    use bounds::{NamedTest, Overhead, Processors, Test};
    use std::array;
    use std::process::Abort;
    use std::test::Fail;
    use study::{Call, Edit, Finding, Room, State, Study};
    use table::{Fault, Layer, Numbers, Place};

    // What stands in a lent list before anything is written there.
    const FOREIGN: u32 = 7;

    // A test with its overhead, if any, the rows as wcet, period and deadline, how many slots each list has, how the
    // search ends, how many ranges are then counted in each list, and the ranges written into each, from slot 1 on.
    struct Case<'a> {
        test: &'a str,
        processors: u32,
        overhead: Option<u32>,
        rows: &'a [(u32, u32, u32)],
        slots: (usize, usize),
        end: End<'a>,
        steps: usize,
        counts: (usize, usize),
        ledger: &'a [(&'a [u32], &'a [u32])],
        pending: &'a [(&'a [u32], &'a [u32])],
    }

    // How a search ends.
    enum End<'a> {
        Found {
            order: &'a [usize],
            estimates: &'a [u32],
        },
        None,
        Stopped,
    }

    const SEARCHES: [Case<'static>; 21] = [
        Case {
            test: "rta",
            processors: 2,
            overhead: None,
            rows: &[(2, 5, 5), (2, 5, 5), (3, 6, 6)],
            slots: (8, 8),
            end: End::Found {
                order: &[2, 1, 3],
                estimates: &[2, 2, 5],
            },
            steps: 2,
            counts: (1, 3),
            ledger: &[(&[2, 2, 3], &[3, 3, 4])],
            pending: &[
                (&[4, 2, 3], &[5, 5, 6]),
                (&[2, 4, 3], &[3, 5, 6]),
                (&[2, 2, 5], &[3, 3, 6]),
            ],
        },
        Case {
            test: "rta",
            processors: 2,
            overhead: None,
            rows: &[(2, 5, 5), (2, 5, 5), (3, 6, 6)],
            slots: (8, 3),
            end: End::Found {
                order: &[2, 1, 3],
                estimates: &[2, 2, 5],
            },
            steps: 2,
            counts: (1, 3),
            ledger: &[(&[2, 2, 3], &[3, 3, 4])],
            pending: &[
                (&[4, 2, 3], &[5, 5, 6]),
                (&[2, 4, 3], &[3, 5, 6]),
                (&[2, 2, 5], &[3, 3, 6]),
            ],
        },
        Case {
            test: "rta",
            processors: 2,
            overhead: None,
            rows: &[(2, 5, 5), (2, 5, 5), (3, 6, 6)],
            slots: (1, 3),
            end: End::Found {
                order: &[2, 1, 3],
                estimates: &[2, 2, 5],
            },
            steps: 2,
            counts: (1, 3),
            ledger: &[(&[2, 2, 3], &[3, 3, 4])],
            pending: &[
                (&[4, 2, 3], &[5, 5, 6]),
                (&[2, 4, 3], &[3, 5, 6]),
                (&[2, 2, 5], &[3, 3, 6]),
            ],
        },
        Case {
            test: "rta",
            processors: 2,
            overhead: None,
            rows: &[(2, 5, 5), (2, 5, 5), (3, 6, 6)],
            slots: (8, 2),
            end: End::Stopped,
            steps: 1,
            counts: (0, 1),
            ledger: &[],
            pending: &[(&[2, 2, 3], &[5, 5, 6])],
        },
        Case {
            test: "rta",
            processors: 1,
            overhead: None,
            rows: &[(2, 3, 3), (2, 3, 3)],
            slots: (1, 1),
            end: End::None,
            steps: 2,
            counts: (1, 0),
            ledger: &[(&[2, 2], &[3, 3])],
            pending: &[(&[2, 2], &[3, 3])],
        },
        Case {
            test: "rta",
            processors: 1,
            overhead: None,
            rows: &[(5, 5, 5)],
            slots: (1, 1),
            end: End::Found {
                order: &[1],
                estimates: &[5],
            },
            steps: 1,
            counts: (0, 1),
            ledger: &[],
            pending: &[(&[5], &[5])],
        },
        Case {
            test: "rta",
            processors: 3,
            overhead: Some(1),
            rows: &[(3, 6, 5), (1, 6, 2), (1, 4, 2), (4, 8, 6)],
            slots: (8, 8),
            end: End::Found {
                order: &[3, 2, 1, 4],
                estimates: &[4, 2, 2, 6],
            },
            steps: 6,
            counts: (5, 2),
            ledger: &[
                (&[3, 1, 1, 4], &[5, 2, 2, 4]),
                (&[3, 1, 1, 4], &[5, 2, 1, 6]),
                (&[3, 1, 1, 4], &[5, 1, 2, 6]),
                (&[3, 1, 1, 4], &[4, 2, 2, 5]),
                (&[3, 1, 1, 4], &[3, 2, 2, 6]),
            ],
            pending: &[
                (&[5, 2, 2, 5], &[5, 2, 2, 6]),
                (&[4, 2, 2, 6], &[4, 2, 2, 6]),
            ],
        },
        Case {
            test: "rta",
            processors: 3,
            overhead: Some(1),
            rows: &[(3, 6, 5), (1, 6, 2), (1, 4, 2), (4, 8, 6)],
            slots: (5, 8),
            end: End::Found {
                order: &[3, 2, 1, 4],
                estimates: &[4, 2, 2, 6],
            },
            steps: 6,
            counts: (5, 2),
            ledger: &[
                (&[3, 1, 1, 4], &[5, 2, 2, 4]),
                (&[3, 1, 1, 4], &[5, 2, 1, 6]),
                (&[3, 1, 1, 4], &[5, 1, 2, 6]),
                (&[3, 1, 1, 4], &[4, 2, 2, 5]),
                (&[3, 1, 1, 4], &[3, 2, 2, 6]),
            ],
            pending: &[
                (&[5, 2, 2, 5], &[5, 2, 2, 6]),
                (&[4, 2, 2, 6], &[4, 2, 2, 6]),
            ],
        },
        Case {
            test: "rta",
            processors: 3,
            overhead: Some(1),
            rows: &[(3, 6, 5), (1, 6, 2), (1, 4, 2), (4, 8, 6)],
            slots: (4, 8),
            end: End::Stopped,
            steps: 5,
            counts: (4, 2),
            ledger: &[
                (&[3, 1, 1, 4], &[5, 2, 2, 4]),
                (&[3, 1, 1, 4], &[5, 2, 1, 6]),
                (&[3, 1, 1, 4], &[5, 1, 2, 6]),
                (&[3, 1, 1, 4], &[4, 2, 2, 5]),
            ],
            pending: &[
                (&[5, 2, 2, 5], &[5, 2, 2, 6]),
                (&[3, 2, 2, 6], &[4, 2, 2, 6]),
            ],
        },
        Case {
            test: "rta",
            processors: 3,
            overhead: Some(1),
            rows: &[(3, 6, 5), (1, 6, 2), (1, 4, 2), (4, 8, 6)],
            slots: (8, 3),
            end: End::Found {
                order: &[3, 2, 1, 4],
                estimates: &[4, 2, 2, 6],
            },
            steps: 6,
            counts: (5, 2),
            ledger: &[
                (&[3, 1, 1, 4], &[5, 2, 2, 4]),
                (&[3, 1, 1, 4], &[5, 2, 1, 6]),
                (&[3, 1, 1, 4], &[5, 1, 2, 6]),
                (&[3, 1, 1, 4], &[4, 2, 2, 5]),
                (&[3, 1, 1, 4], &[3, 2, 2, 6]),
            ],
            pending: &[
                (&[5, 2, 2, 5], &[5, 2, 2, 6]),
                (&[4, 2, 2, 6], &[4, 2, 2, 6]),
            ],
        },
        Case {
            test: "rta",
            processors: 3,
            overhead: Some(1),
            rows: &[(1, 4, 3), (1, 8, 2), (1, 4, 3), (2, 6, 3)],
            slots: (8, 8),
            end: End::Found {
                order: &[4, 2, 1, 3],
                estimates: &[2, 2, 3, 3],
            },
            steps: 6,
            counts: (5, 2),
            ledger: &[
                (&[1, 1, 1, 2], &[3, 2, 3, 2]),
                (&[1, 1, 1, 2], &[3, 2, 1, 3]),
                (&[1, 1, 1, 2], &[3, 1, 3, 3]),
                (&[1, 1, 1, 2], &[2, 2, 2, 3]),
                (&[1, 1, 1, 2], &[1, 2, 3, 3]),
            ],
            pending: &[
                (&[3, 2, 2, 3], &[3, 2, 3, 3]),
                (&[2, 2, 3, 3], &[2, 2, 3, 3]),
            ],
        },
        Case {
            test: "rta",
            processors: 1,
            overhead: None,
            rows: &[(2, 7, 2), (1, 4, 4), (1, 4, 4)],
            slots: (4, 1),
            end: End::None,
            steps: 5,
            counts: (4, 0),
            ledger: &[
                (&[2, 1, 1], &[2, 4, 2]),
                (&[2, 1, 2], &[2, 4, 3]),
                (&[2, 1, 1], &[2, 2, 4]),
                (&[2, 2, 2], &[2, 4, 4]),
            ],
            pending: &[(&[2, 3, 4], &[2, 4, 4])],
        },
        Case {
            test: "rta",
            processors: 1,
            overhead: None,
            rows: &[(2, 7, 2), (1, 4, 4), (1, 4, 4)],
            slots: (3, 1),
            end: End::Stopped,
            steps: 4,
            counts: (3, 1),
            ledger: &[
                (&[2, 1, 1], &[2, 4, 2]),
                (&[2, 1, 2], &[2, 4, 3]),
                (&[2, 1, 1], &[2, 2, 4]),
            ],
            pending: &[(&[2, 3, 4], &[2, 4, 4])],
        },
        Case {
            test: "rta",
            processors: 2,
            overhead: None,
            rows: &[(1, 5, 4), (1, 5, 3), (6, 7, 6), (2, 8, 2)],
            slots: (8, 8),
            end: End::None,
            steps: 3,
            counts: (2, 0),
            ledger: &[
                (&[1, 1, 6, 2], &[4, 2, 6, 2]),
                (&[1, 3, 6, 2], &[4, 3, 6, 2]),
            ],
            pending: &[(&[1, 3, 6, 2], &[4, 3, 6, 2])],
        },
        Case {
            test: "da",
            processors: 3,
            overhead: Some(1),
            rows: &[(1, 4, 3), (2, 7, 6), (1, 8, 4), (1, 7, 2)],
            slots: (8, 8),
            end: End::Found {
                order: &[4, 2, 3, 1],
                estimates: &[3, 3, 3, 2],
            },
            steps: 6,
            counts: (5, 2),
            ledger: &[
                (&[1, 2, 1, 1], &[3, 6, 4, 1]),
                (&[1, 2, 1, 1], &[3, 6, 1, 2]),
                (&[1, 2, 1, 1], &[3, 3, 2, 2]),
                (&[1, 2, 1, 1], &[3, 2, 4, 2]),
                (&[1, 2, 1, 1], &[2, 3, 4, 2]),
            ],
            pending: &[
                (&[1, 4, 2, 2], &[3, 6, 4, 2]),
                (&[3, 3, 3, 2], &[3, 3, 4, 2]),
            ],
        },
        Case {
            test: "da",
            processors: 2,
            overhead: None,
            rows: &[(1, 7, 7), (1, 6, 6), (1, 7, 4), (1, 8, 6)],
            slots: (8, 8),
            end: End::Found {
                order: &[3, 2, 1, 4],
                estimates: &[3, 2, 1, 4],
            },
            steps: 6,
            counts: (5, 4),
            ledger: &[
                (&[1, 1, 1, 1], &[7, 6, 1, 1]),
                (&[1, 1, 1, 1], &[7, 2, 2, 2]),
                (&[1, 1, 1, 1], &[7, 1, 1, 6]),
                (&[1, 1, 1, 1], &[3, 3, 3, 3]),
                (&[1, 1, 1, 1], &[2, 2, 2, 6]),
            ],
            pending: &[
                (&[1, 1, 2, 1], &[7, 6, 4, 6]),
                (&[1, 3, 1, 2], &[7, 6, 1, 6]),
                (&[4, 2, 1, 3], &[7, 2, 1, 6]),
                (&[3, 2, 1, 4], &[3, 2, 1, 6]),
            ],
        },
        Case {
            test: "da",
            processors: 2,
            overhead: Some(1),
            rows: &[(1, 2, 1), (2, 6, 6), (2, 3, 3), (3, 5, 5)],
            slots: (8, 8),
            end: End::None,
            steps: 2,
            counts: (1, 0),
            ledger: &[(&[1, 2, 2, 3], &[1, 6, 3, 5])],
            pending: &[(&[1, 2, 2, 3], &[1, 6, 3, 5])],
        },
        Case {
            test: "lc",
            processors: 3,
            overhead: Some(1),
            rows: &[(2, 3, 3), (3, 7, 6), (2, 4, 3), (1, 3, 3)],
            slots: (8, 8),
            end: End::Found {
                order: &[4, 3, 1, 2],
                estimates: &[3, 6, 3, 2],
            },
            steps: 5,
            counts: (4, 1),
            ledger: &[
                (&[2, 3, 2, 1], &[3, 6, 3, 1]),
                (&[2, 3, 2, 1], &[3, 6, 2, 3]),
                (&[2, 3, 2, 1], &[3, 5, 3, 3]),
                (&[2, 3, 2, 1], &[2, 6, 3, 3]),
            ],
            pending: &[(&[3, 6, 3, 2], &[3, 6, 3, 3])],
        },
        Case {
            test: "lc",
            processors: 2,
            overhead: None,
            rows: &[(1, 5, 3), (2, 3, 2), (2, 7, 6), (1, 3, 2)],
            slots: (8, 8),
            end: End::Found {
                order: &[2, 1, 4, 3],
                estimates: &[1, 2, 5, 2],
            },
            steps: 4,
            counts: (3, 3),
            ledger: &[
                (&[1, 2, 2, 1], &[3, 2, 2, 2]),
                (&[1, 2, 2, 1], &[2, 2, 4, 2]),
                (&[1, 2, 2, 1], &[1, 2, 6, 1]),
            ],
            pending: &[
                (&[3, 2, 3, 1], &[3, 2, 6, 2]),
                (&[2, 2, 5, 1], &[2, 2, 6, 2]),
                (&[1, 2, 5, 2], &[1, 2, 6, 2]),
            ],
        },
        Case {
            test: "lc",
            processors: 2,
            overhead: None,
            rows: &[(3, 8, 8), (1, 7, 7), (6, 8, 6), (1, 2, 1)],
            slots: (8, 8),
            end: End::None,
            steps: 4,
            counts: (3, 0),
            ledger: &[
                (&[3, 1, 6, 1], &[8, 6, 6, 1]),
                (&[3, 1, 6, 1], &[5, 7, 6, 1]),
                (&[5, 1, 6, 1], &[8, 7, 6, 1]),
            ],
            pending: &[(&[6, 7, 6, 1], &[8, 7, 6, 1])],
        },
        Case {
            test: "lc",
            processors: 2,
            overhead: None,
            rows: &[(2, 5, 4), (1, 4, 3), (2, 6, 2), (1, 2, 2)],
            slots: (8, 8),
            end: End::None,
            steps: 4,
            counts: (3, 0),
            ledger: &[
                (&[2, 1, 2, 1], &[4, 1, 2, 1]),
                (&[2, 1, 2, 2], &[4, 3, 2, 2]),
                (&[2, 2, 2, 1], &[4, 3, 2, 2]),
            ],
            pending: &[
                (&[2, 2, 2, 1], &[4, 3, 2, 2]),
                (&[2, 1, 2, 2], &[4, 1, 2, 2]),
            ],
        },
    ];

    impl End<'_> {
        fn state(&self) -> State {
            match *self {
                End::Found { order, estimates } => State::Found(Finding {
                    order: array::from_fn(|level| order.get(level).copied().unwrap_or(0)),
                    estimates: array::from_fn(|place| estimates.get(place).copied().unwrap_or(0)),
                }),
                End::None => State::None,
                End::Stopped => State::Stopped,
            }
        }
    }

    // A list of 8 slots with these ranges in the first of them, and foreign numbers past them.
    fn list_of<'a>(ranges: &'a [(&'a [u32], &'a [u32])]) -> [u32; 512] {
        array::from_fn(|place| match ranges.get(place / 64) {
            None => FOREIGN,
            Some(&(lows, highs)) => {
                let row = place % 64;
                let ends = if row < 32 { lows } else { highs };
                ends.get(row % 32).copied().unwrap_or(0)
            }
        })
    }

    // All that can be read of a study.
    #[derive(Clone, Copy, PartialEq, Debug)]
    struct Seen {
        rows: [Option<(u32, u32, u32)>; 32],
        state: State,
        ledger: usize,
        pending: usize,
        steps: usize,
    }

    fn see(study: &Study) -> Seen {
        Seen {
            rows: array::from_fn(|place| {
                let row = study.table().rows().get(place)?;
                Some((row.wcet(), row.period(), row.deadline()))
            }),
            state: study.state(),
            ledger: study.ledger_count(),
            pending: study.pending_count(),
            steps: study.steps(),
        }
    }

    fn study_of(rows: &[(u32, u32, u32)]) -> Result<Study, Fault> {
        let mut study = Study::new();
        for &(wcet, period, deadline) in rows {
            study.add(Numbers::of(wcet, period, deadline))?;
        }
        Ok(study)
    }

    // A study and the two lists that its calls were lent.
    #[derive(Drop)]
    struct Lent {
        study: Study,
        ledger: [u32; 512],
        pending: [u32; 512],
    }

    impl Case<'_> {
        fn search_under<T: Test>(&self, test: &T) -> Result<Lent, Fault> {
            let mut lent = lend(self.rows)?;
            let kept = 64 * self.slots.0.min(8);
            let waiting = 64 * self.slots.1.min(8);
            let ledger = &mut lent.ledger[..kept];
            let pending = &mut lent.pending[..waiting];
            lent.study.search(test, ledger, pending)?;
            Ok(lent)
        }

        fn search(&self) -> Result<Lent, Fault> {
            let test = NamedTest::new(self.test.as_bytes(), Processors::new(self.processors)?)?;
            match self.overhead {
                None => self.search_under(&test),
                Some(extra) => self.search_under(&Overhead::new(extra, test)?),
            }
        }

        fn wanted(&self) -> Seen {
            Seen {
                rows: array::from_fn(|place| self.rows.get(place).copied()),
                state: self.end.state(),
                ledger: self.counts.0,
                pending: self.counts.1,
                steps: self.steps,
            }
        }
    }

    #[test]
    fn searches_small_tables(rt: HostRuntime) -> Result<(), Fail> {
        for (place, case) in SEARCHES.iter().enumerate() {
            let searched = case.search()?;
            assert_eq!(rt; see(&searched.study), case.wanted(), "SEARCHES[{place}]");
            assert!(rt;
                searched.ledger == list_of(case.ledger),
                "SEARCHES[{place}]"
            );
            assert!(rt;
                searched.pending == list_of(case.pending),
                "SEARCHES[{place}]"
            );
        }
        Ok(())
    }

    // All that a refused call must leave as it is.
    #[derive(Clone, Copy, PartialEq)]
    struct All {
        seen: Seen,
        ledger: [u32; 512],
        pending: [u32; 512],
    }

    impl Lent {
        fn all(&self) -> All {
            All {
                seen: see(&self.study),
                ledger: self.ledger,
                pending: self.pending,
            }
        }
    }

    // The worked tasks, and two that no order suits on 1 processor.
    const WORKED: [(u32, u32, u32); 3] = [(2, 5, 5), (2, 5, 5), (3, 6, 6)];

    const TIGHT: [(u32, u32, u32); 2] = [(2, 3, 3), (2, 3, 3)];

    fn rta(processors: u32) -> Result<NamedTest, Fault> {
        NamedTest::new("rta".as_bytes(), Processors::new(processors)?)
    }

    fn lend(rows: &[(u32, u32, u32)]) -> Result<Lent, Fault> {
        Ok(Lent {
            study: study_of(rows)?,
            ledger: [FOREIGN; 512],
            pending: [FOREIGN; 512],
        })
    }

    // A study that has searched, with so many pending slots.
    fn after_search(
        rows: &[(u32, u32, u32)],
        processors: u32,
        slots: usize,
    ) -> Result<Lent, Fault> {
        let mut lent = lend(rows)?;
        let waiting = 64 * slots.min(8);
        lent.study.search(
            &rta(processors)?,
            &mut lent.ledger,
            &mut lent.pending[..waiting],
        )?;
        Ok(lent)
    }

    fn running() -> Result<Lent, Fault> {
        let mut lent = lend(&WORKED)?;
        lent.study.begin(&mut lent.ledger, &mut lent.pending)?;
        Ok(lent)
    }

    // A study in each state: draft, running, found, none, stopped.
    fn in_each_state() -> Result<[Lent; 5], Fault> {
        Ok([
            lend(&WORKED)?,
            running()?,
            after_search(&WORKED, 2, 8)?,
            after_search(&TIGHT, 1, 8)?,
            after_search(&WORKED, 2, 2)?,
        ])
    }

    #[test]
    fn edits_in_every_state(rt: HostRuntime) -> Result<(), Fail> {
        for lent in in_each_state()? {
            let mut lent = lent;
            let before = lent.all();
            lent.study.add(Numbers::of(1, 9, 8))?;
            let rows = before.seen.rows.iter().flatten().count();
            let draft = Seen {
                rows: array::from_fn(|place| {
                    if place == rows {
                        Some((1, 9, 8))
                    } else {
                        before.seen.rows[place]
                    }
                }),
                state: State::Draft,
                ledger: 0,
                pending: 0,
                steps: 0,
            };
            assert_eq!(rt; see(&lent.study), draft);
            assert!(rt; lent.ledger == before.ledger && lent.pending == before.pending);
        }
        Ok(())
    }

    // Whether a call was refused so.
    fn is_refused(
        rt: &impl Abort,
        refusal: Result<(), Fault>,
        fault: Fault,
        number: u32,
        layer: Layer,
    ) {
        assert_eq!(rt; refusal, Err(fault));
        assert_eq!(rt; fault.number(), number);
        assert_eq!(rt; fault.layer(), layer);
        assert_eq!(rt; fault.place(), Place::NOWHERE);
    }

    #[test]
    fn refuses_edits_in_every_state(rt: HostRuntime) -> Result<(), Fail> {
        let bad_row = Fault::BadRow(Place::NOWHERE);
        for lent in in_each_state()? {
            let mut lent = lent;
            let before = lent.all();
            let rows = lent.study.table().len();
            is_refused(
                &rt,
                lent.study.add(Numbers::of(0, 5, 5)),
                bad_row,
                11,
                Layer::Table,
            );
            is_refused(
                &rt,
                lent.study.alter(1, Numbers::of(3, 5, 2)),
                bad_row,
                11,
                Layer::Table,
            );
            is_refused(
                &rt,
                lent.study.alter(0, Numbers::of(1, 1, 1)),
                Fault::NoRow,
                10,
                Layer::Table,
            );
            is_refused(
                &rt,
                lent.study.remove(rows + 1),
                Fault::NoRow,
                10,
                Layer::Table,
            );
            assert!(rt; lent.all() == before);
        }
        let mut full = lend(&[(1, 1, 1); 32])?;
        full.study.begin(&mut full.ledger, &mut full.pending)?;
        let before = full.all();
        is_refused(
            &rt,
            full.study.add(Numbers::of(1, 1, 1)),
            Fault::Full,
            9,
            Layer::Table,
        );
        assert!(rt; full.all() == before);
        Ok(())
    }

    #[test]
    fn begins_in_every_state(rt: HostRuntime) -> Result<(), Fail> {
        for lent in in_each_state()? {
            let mut lent = lent;
            let before = lent.all();
            lent.study.begin(&mut lent.ledger, &mut lent.pending)?;
            let seen = see(&lent.study);
            assert_eq!(rt;
                seen.state,
                State::Running(Room {
                    ledger: 8,
                    pending: 8
                })
            );
            assert_eq!(rt; (seen.ledger, seen.pending, seen.steps), (0, 1, 0));
            assert_eq!(rt; seen.rows, before.seen.rows);
            assert!(rt; lent.ledger == before.ledger);
            for place in 0..512 {
                let row = before.seen.rows.get(place % 64 % 32).copied().flatten();
                let wanted = match row {
                    _ if place >= 64 => before.pending[place],
                    None => 0,
                    Some((wcet, _, _)) if place < 32 => wcet,
                    Some((_, _, deadline)) => deadline,
                };
                assert_eq!(rt; lent.pending[place], wanted);
            }
        }
        Ok(())
    }

    #[test]
    fn refuses_begin(rt: HostRuntime) -> Result<(), Fail> {
        let mut empty = lend(&[])?;
        let before = empty.all();
        let begun = empty.study.begin(&mut empty.ledger, &mut empty.pending);
        is_refused(&rt, begun, Fault::Empty, 13, Layer::Study);
        assert!(rt; empty.all() == before);
        Ok(())
    }

    // One slot more than a list may have.
    const LONG: usize = 262_208;

    #[test]
    fn refuses_lists_of_other_lengths(rt: HostRuntime) -> Result<(), Fail> {
        let mut study = study_of(&WORKED)?;
        let mut long = [FOREIGN; LONG];
        let mut short = [FOREIGN; 64];
        let before = see(&study);
        for length in [0, 63, 65, 262_145, 262_208] {
            let part = &mut long[..length.min(LONG)];
            let begun = study.begin(part, &mut short);
            is_refused(&rt, begun, Fault::BadSlots, 14, Layer::Study);
            let begun = study.begin(&mut short, part);
            is_refused(&rt, begun, Fault::BadSlots, 14, Layer::Study);
        }
        assert_eq!(rt; see(&study), before);
        assert!(rt; long.iter().all(|&number| number == FOREIGN));
        assert!(rt; short.iter().all(|&number| number == FOREIGN));
        Ok(())
    }

    #[test]
    fn begins_on_lists_of_each_length(rt: HostRuntime) -> Result<(), Fail> {
        let mut study = study_of(&WORKED)?;
        let mut long = [FOREIGN; LONG];
        let mut short = [FOREIGN; 64];
        for length in [64, 262_144] {
            let part = &mut long[..length.min(LONG)];
            study.begin(&mut short, part)?;
            study.begin(part, &mut short)?;
            let room = Room {
                ledger: length / 64,
                pending: 1,
            };
            assert_eq!(rt; study.state(), State::Running(room));
        }
        Ok(())
    }

    #[test]
    fn refuses_a_step_unless_a_search_is_running(rt: HostRuntime) -> Result<(), Fail> {
        let test = rta(2)?;
        for lent in in_each_state()? {
            let mut lent = lent;
            let before = lent.all();
            if let State::Running(_) = before.seen.state {
                continue;
            }
            let step = lent.study.step(&test, &mut lent.ledger, &mut lent.pending);
            is_refused(&rt, step, Fault::NotRunning, 15, Layer::Study);
            assert!(rt; lent.all() == before);
        }
        Ok(())
    }

    // Foreign numbers in the pending slot: by place, what is written there.
    const FOREIGN_NUMBERS: [(usize, u32); 8] = [
        // a's low below its wcet, and above its high
        (0, 1),
        (0, 6),
        // b's high below its low, and above its deadline
        (33, 1),
        (33, 6),
        // c's low above its high
        (2, 7),
        // no row has these places
        (3, 1),
        (31, 1),
        (63, 1),
    ];

    #[test]
    fn refuses_a_step_on_foreign_numbers(rt: HostRuntime) -> Result<(), Fail> {
        let test = rta(2)?;
        for &(place, number) in &FOREIGN_NUMBERS {
            let mut lent = running()?;
            let own = lent.pending[place.min(511)];
            lent.pending[place.min(511)] = number;
            let before = lent.all();
            let step = lent.study.step(&test, &mut lent.ledger, &mut lent.pending);
            is_refused(&rt, step, Fault::OtherLists, 16, Layer::Study);
            assert!(rt; lent.all() == before);
            lent.pending[place.min(511)] = own;
            lent.study.step(&test, &mut lent.ledger, &mut lent.pending)?;
            assert_eq!(rt; lent.study.steps(), 1);
        }
        Ok(())
    }

    #[test]
    fn refuses_a_step_on_lists_of_other_lengths(rt: HostRuntime) -> Result<(), Fail> {
        let test = rta(2)?;
        let mut lent = running()?;
        let before = lent.all();
        for length in [0, 64, 448, 511] {
            let ledger = &mut lent.ledger[..length.min(512)];
            let step = lent.study.step(&test, ledger, &mut lent.pending);
            is_refused(&rt, step, Fault::OtherLists, 16, Layer::Study);
            let pending = &mut lent.pending[..length.min(512)];
            let step = lent.study.step(&test, &mut lent.ledger, pending);
            is_refused(&rt, step, Fault::OtherLists, 16, Layer::Study);
        }
        assert!(rt; lent.all() == before);
        Ok(())
    }

    // The last counted slot is looked at, not the first.
    #[test]
    fn refuses_a_step_on_foreign_numbers_in_a_later_slot(rt: HostRuntime) -> Result<(), Fail> {
        let test = rta(2)?;
        let mut lent = running()?;
        lent.study.step(&test, &mut lent.ledger, &mut lent.pending)?;
        assert_eq!(rt; lent.study.pending_count(), 3);
        lent.pending[128 + 3] = 1;
        let before = lent.all();
        let step = lent.study.step(&test, &mut lent.ledger, &mut lent.pending);
        is_refused(&rt, step, Fault::OtherLists, 16, Layer::Study);
        assert!(rt; lent.all() == before);
        Ok(())
    }

    #[test]
    fn refuses_a_step_on_longer_lists(rt: HostRuntime) -> Result<(), Fail> {
        let test = rta(2)?;
        let mut study = study_of(&WORKED)?;
        let mut ledger = [FOREIGN; 64];
        let mut pending = [FOREIGN; 64];
        study.begin(&mut ledger, &mut pending)?;
        let mut longer = [0; 128];
        for place in 0..64 {
            longer[place] = pending[place];
        }
        let before = (see(&study), ledger, pending, longer);
        let step = study.step(&test, &mut longer, &mut pending);
        is_refused(&rt, step, Fault::OtherLists, 16, Layer::Study);
        let step = study.step(&test, &mut ledger, &mut longer);
        is_refused(&rt, step, Fault::OtherLists, 16, Layer::Study);
        assert!(rt; (see(&study), ledger, pending, longer) == before);
        Ok(())
    }

    // The calls that make the worked table, on the way a row that is removed, and search it.
    const CALLS: [Call; 9] = [
        Call::Edit(Edit::Add {
            numbers: Numbers {
                wcet: 2,
                period: 5,
                deadline: 5,
            },
        }),
        Call::Edit(Edit::Add {
            numbers: Numbers {
                wcet: 1,
                period: 4,
                deadline: 4,
            },
        }),
        Call::Edit(Edit::Add {
            numbers: Numbers {
                wcet: 3,
                period: 6,
                deadline: 6,
            },
        }),
        Call::Edit(Edit::Add {
            numbers: Numbers {
                wcet: 9,
                period: 9,
                deadline: 9,
            },
        }),
        Call::Edit(Edit::Alter {
            k: 2,
            numbers: Numbers {
                wcet: 2,
                period: 5,
                deadline: 5,
            },
        }),
        Call::Edit(Edit::Remove { k: 4 }),
        Call::Begin,
        Call::Step,
        Call::Step,
    ];

    // The calls as data do what the methods do.
    #[test]
    fn takes_calls(rt: HostRuntime) -> Result<(), Fail> {
        let test = rta(2)?;
        let mut lent = lend(&[])?;
        for call in CALLS {
            lent.study
                .call(call, &test, &mut lent.ledger, &mut lent.pending)?;
        }
        let wanted = after_search(&WORKED, 2, 8)?;
        assert!(rt; lent.all() == wanted.all());
        Ok(())
    }

    // The first step does one step's work, and so does the second.
    #[test]
    fn steps_one_at_a_time(rt: HostRuntime) -> Result<(), Fail> {
        let test = rta(2)?;
        let mut lent = running()?;
        lent.study.step(&test, &mut lent.ledger, &mut lent.pending)?;
        let seen = see(&lent.study);
        assert_eq!(rt;
            seen.state,
            State::Running(Room {
                ledger: 8,
                pending: 8
            })
        );
        assert_eq!(rt; (seen.ledger, seen.pending, seen.steps), (1, 3, 1));
        lent.study.step(&test, &mut lent.ledger, &mut lent.pending)?;
        assert_eq!(rt; see(&lent.study), see(&after_search(&WORKED, 2, 8)?.study));
        let found = lent.study.state().finding();
        assert_eq!(rt; found.map(|finding| finding.order[0]), Some(2));
        Ok(())
    }
}
