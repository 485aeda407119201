// Tests of the table layer.
#![tactic(auto)]

#[cfg(test)]
mod tests {
    use std::process::Abort;
    use std::test::Fail;
    use table::{Fault, Layer, Numbers, Place, Row, Table};

    // The fault has this number, layer and place.
    fn is_fault(rt: &impl Abort, fault: Fault, number: u32, layer: Layer, place: Place) {
        assert_eq!(rt; fault.number(), number);
        assert_eq!(rt; fault.layer(), layer);
        assert_eq!(rt; fault.place(), place);
    }

    // The call was refused by the table layer with this number, and without a sheet.
    fn refused<T: Drop>(rt: &impl Abort, given: Result<T, Fault>, number: u32) -> Result<(), Fail> {
        let fault = given
            .err()
            .ok_or_else(|| Fail::new("the call was accepted"))?;
        is_fault(rt, fault, number, Layer::Table, Place::NOWHERE);
        Ok(())
    }

    // The wcet, the period and the deadline of row `k`.
    fn numbers_of(table: &Table, k: usize) -> Result<(u32, u32, u32), Fault> {
        let row = table.row(k)?;
        Ok((row.wcet(), row.period(), row.deadline()))
    }

    // Rows 1/10/5, 2/10/5, 3/10/5, and so on.
    fn rows_of(count: u32) -> Result<Table, Fail> {
        let mut table = Table::new();
        for k in 0..count {
            table.add(Numbers::of(k % 5 + 1, 10, 5))?;
        }
        Ok(table)
    }

    #[test]
    fn takes_the_largest_row(rt: HostRuntime) -> Result<(), Fail> {
        let mut table = Table::new();
        table.add(Numbers::of(1_000_000, 1_000_000, 1_000_000))?;
        table.add(Numbers::of(1, 1, 1))?;
        assert_eq!(rt; numbers_of(&table, 1)?, (1_000_000, 1_000_000, 1_000_000));
        assert_eq!(rt; numbers_of(&table, 2)?, (1, 1, 1));
        Ok(())
    }

    #[test]
    fn refuses_what_is_no_row(rt: HostRuntime) -> Result<(), Fail> {
        let mut table = rows_of(3)?;
        refused(&rt, table.add(Numbers::of(0, 5, 5)), 11)?;
        refused(&rt, table.add(Numbers::of(3, 5, 2)), 11)?;
        refused(&rt, table.add(Numbers::of(2, 5, 6)), 11)?;
        refused(&rt, table.add(Numbers::of(1, 1_000_001, 1)), 11)?;
        refused(
            &rt,
            table.add(Numbers::of(4_294_967_295, 4_294_967_295, 4_294_967_295)),
            11,
        )?;
        refused(&rt, table.alter(2, Numbers::of(0, 5, 5)), 11)?;
        refused(&rt, table.alter(2, Numbers::of(3, 5, 2)), 11)?;
        refused(&rt, table.alter(2, Numbers::of(2, 5, 6)), 11)?;
        assert!(rt; table.same(&rows_of(3)?));
        Ok(())
    }

    #[test]
    fn refuses_the_next_row_when_full(rt: HostRuntime) -> Result<(), Fail> {
        let mut table = rows_of(32)?;
        assert_eq!(rt; table.len(), 32);
        refused(&rt, table.add(Numbers::of(1, 5, 5)), 9)?;
        refused(&rt, table.add(Numbers::of(0, 5, 5)), 9)?;
        assert!(rt; table.same(&rows_of(32)?));
        Ok(())
    }

    #[test]
    fn refuses_a_row_that_is_not_there(rt: HostRuntime) -> Result<(), Fail> {
        let mut table = rows_of(3)?;
        refused(&rt, table.alter(0, Numbers::of(1, 5, 5)), 10)?;
        refused(&rt, table.alter(0, Numbers::of(0, 5, 5)), 10)?;
        refused(&rt, table.alter(4, Numbers::of(1, 5, 5)), 10)?;
        refused(&rt, table.remove(0), 10)?;
        refused(&rt, table.remove(4), 10)?;
        refused(&rt, table.row(0), 10)?;
        refused(&rt, table.row(4), 10)?;
        assert!(rt; table.same(&rows_of(3)?));
        Ok(())
    }

    #[test]
    fn alters_one_row(rt: HostRuntime) -> Result<(), Fail> {
        let mut table = rows_of(3)?;
        table.alter(2, Numbers::of(7, 9, 8))?;
        assert_eq!(rt; table.len(), 3);
        assert_eq!(rt; numbers_of(&table, 1)?, (1, 10, 5));
        assert_eq!(rt; numbers_of(&table, 2)?, (7, 9, 8));
        assert_eq!(rt; numbers_of(&table, 3)?, (3, 10, 5));
        Ok(())
    }

    #[test]
    fn removes_one_row(rt: HostRuntime) -> Result<(), Fail> {
        let mut table = rows_of(3)?;
        table.remove(1)?;
        assert_eq!(rt; table.len(), 2);
        assert_eq!(rt; numbers_of(&table, 1)?, (2, 10, 5));
        assert_eq!(rt; numbers_of(&table, 2)?, (3, 10, 5));
        table.remove(2)?;
        table.remove(1)?;
        assert!(rt; table.same(&Table::new()));
        Ok(())
    }

    #[test]
    fn tells_tables_apart(rt: HostRuntime) -> Result<(), Fail> {
        let table = rows_of(2)?;
        assert!(rt; !table.same(&rows_of(1)?));
        assert!(rt; !table.same(&rows_of(3)?));
        let mut other = rows_of(2)?;
        other.alter(2, Numbers::of(2, 10, 6))?;
        assert!(rt; !table.same(&other));
        other.alter(2, Numbers::of(2, 11, 5))?;
        assert!(rt; !table.same(&other));
        other.alter(2, Numbers::of(3, 10, 5))?;
        assert!(rt; !table.same(&other));
        other.alter(2, Numbers::of(2, 10, 5))?;
        assert!(rt; table.same(&other));
        Ok(())
    }

    #[test]
    fn lists_the_faults(rt: HostRuntime) {
        let place = Place {
            sheet: 2,
            line: 5,
            field: 3,
        };
        is_fault(&rt, Fault::BadText(place), 1, Layer::Sheet, place);
        is_fault(&rt, Fault::BadNames(place), 2, Layer::Sheet, place);
        is_fault(&rt, Fault::BadFieldCount(place), 3, Layer::Sheet, place);
        is_fault(&rt, Fault::BadField(place), 4, Layer::Sheet, place);
        is_fault(&rt, Fault::BadLineCount(place), 5, Layer::Sheet, place);
        is_fault(&rt, Fault::RepeatedTask(place), 6, Layer::Pair, place);
        is_fault(&rt, Fault::BadAnswer(place), 7, Layer::Pair, place);
        is_fault(&rt, Fault::NoAnswer(place), 8, Layer::Pair, place);
        is_fault(&rt, Fault::Full, 9, Layer::Table, Place::NOWHERE);
        is_fault(&rt, Fault::NoRow, 10, Layer::Table, Place::NOWHERE);
        is_fault(&rt, Fault::BadRow(place), 11, Layer::Table, place);
        is_fault(&rt, Fault::BadTest(place), 12, Layer::Board, place);
        is_fault(&rt, Fault::Empty, 13, Layer::Study, Place::NOWHERE);
        is_fault(&rt, Fault::BadSlots, 14, Layer::Study, Place::NOWHERE);
        is_fault(&rt, Fault::NotRunning, 15, Layer::Study, Place::NOWHERE);
        is_fault(&rt, Fault::OtherLists, 16, Layer::Study, Place::NOWHERE);
        is_fault(&rt, Fault::BadOrder(place), 17, Layer::Study, place);
        is_fault(&rt, Fault::BadLength, 18, Layer::Study, Place::NOWHERE);
    }
}
