// Sheets at their limits: each expected verdict is worked out by hand from the rules of the format.
#![tactic(auto)]

#[cfg(test)]
mod tests {
    use sheet::sheet::Sheet;
    use std::alloc::AllocError;
    use std::process::Abort;
    use std::test::*;
    use task::task_source::TaskSource;

    // The number, record and byte of a refusal; nothing where the sheet is read.
    type Verdict = Option<(u8, usize, u8)>;

    const READ: Verdict = None;

    // These helpers stand in paper_tests too: what stops a test may stand in tests alone, and no crate can call another's tests.
    fn verdict(rt: &impl AllocGlobal, bytes: &[u8]) -> Result<Verdict, Fail> {
        match Sheet::read(rt.alloc(), bytes) {
            Ok(_) => Ok(READ),
            Err(fault) => {
                let line = fault.line().ok_or(fault)?;
                Ok(Some((line.number, line.place, line.byte)))
            }
        }
    }

    // Each record, put after the same records, gets its verdict.
    fn check_after(
        rt: &(impl Abort + AllocGlobal),
        before: &[u8],
        cases: &[([u8; 4], Verdict)],
    ) -> Result<(), Fail> {
        for (record, expected) in cases {
            let mut bytes = before.to_vec(rt.alloc())?;
            bytes.extend_from_slice(record)?;
            assert_eq!(rt; verdict(rt, bytes.as_slice())?, *expected);
        }
        Ok(())
    }

    // Adds records of a kind on the facts from 0 on.
    fn count(bytes: &mut Vec<u8>, times: u8, kind: u8) -> Result<(), AllocError> {
        for fact in 0..times {
            bytes.extend_from_slice(&[kind, fact, 0, 0])?;
        }
        Ok(())
    }

    // Records that come before, one more record, and the verdict on all.
    static CASES: [(&[u8], [u8; 4], Verdict); 75] = [
        // facts at the start
        (&[], [6, 0, 0, 0], READ),
        (&[], [6, 1, 0, 0], READ),
        (&[], [6, 2, 0, 0], Some((4, 0, 1))),
        (&[], [6, 255, 0, 0], Some((4, 0, 1))),
        (&[], [6, 2, 1, 0], Some((2, 0, 2))),
        // kinds of no form and of the other form
        (&[], [0, 0, 0, 0], Some((2, 0, 0))),
        (&[], [1, 3, 0, 0], Some((2, 0, 0))),
        (&[], [5, 3, 3, 3], Some((2, 0, 0))),
        (&[], [12, 0, 0, 0], Some((2, 0, 0))),
        // the same after a fact
        (&[6, 1, 0, 0], [1, 3, 0, 0], Some((2, 1, 0))),
        (&[6, 1, 0, 0], [12, 0, 0, 0], Some((2, 1, 0))),
        // unused bytes, lowest first
        (&[6, 1, 0, 0], [6, 1, 1, 0], Some((2, 1, 2))),
        (&[6, 1, 0, 0], [6, 1, 0, 1], Some((2, 1, 3))),
        (&[6, 1, 0, 0], [7, 0, 1, 1], Some((2, 1, 2))),
        (&[6, 1, 0, 0], [7, 0, 0, 1], Some((2, 1, 3))),
        (&[6, 1, 0, 0], [8, 1, 1, 1], Some((2, 1, 1))),
        (&[6, 1, 0, 0], [8, 0, 1, 1], Some((2, 1, 2))),
        (&[6, 1, 0, 0], [8, 0, 0, 1], Some((2, 1, 3))),
        // unused bytes of conditions, adds and deletes
        (&[6, 1, 0, 0, 8, 0, 0, 0], [9, 0, 1, 0], Some((2, 2, 2))),
        (&[6, 1, 0, 0, 8, 0, 0, 0], [9, 0, 0, 1], Some((2, 2, 3))),
        (&[6, 1, 0, 0, 8, 0, 0, 0], [10, 0, 1, 0], Some((2, 2, 2))),
        (&[6, 1, 0, 0, 8, 0, 0, 0], [10, 0, 0, 1], Some((2, 2, 3))),
        (&[6, 1, 0, 0, 8, 0, 0, 0], [11, 0, 1, 0], Some((2, 2, 2))),
        (&[6, 1, 0, 0, 8, 0, 0, 0], [11, 0, 0, 1], Some((2, 2, 3))),
        // the first record is a fact
        (&[], [7, 0, 0, 0], Some((3, 0, 0))),
        (&[], [8, 0, 0, 0], Some((3, 0, 0))),
        (&[], [9, 9, 0, 0], Some((3, 0, 0))),
        (&[], [10, 0, 0, 0], Some((3, 0, 0))),
        (&[], [11, 0, 0, 0], Some((3, 0, 0))),
        // after a fact
        (&[6, 1, 0, 0], [7, 0, 0, 0], READ),
        (&[6, 1, 0, 0], [8, 0, 0, 0], READ),
        (&[6, 1, 0, 0], [9, 0, 0, 0], Some((3, 1, 0))),
        (&[6, 1, 0, 0], [10, 0, 0, 0], Some((3, 1, 0))),
        (&[6, 1, 0, 0], [11, 0, 0, 0], Some((3, 1, 0))),
        // after a goal
        (&[6, 1, 0, 0, 7, 0, 0, 0], [6, 1, 0, 0], Some((3, 2, 0))),
        (&[6, 1, 0, 0, 7, 0, 0, 0], [8, 0, 0, 0], READ),
        (&[6, 1, 0, 0, 7, 0, 0, 0], [9, 0, 0, 0], Some((3, 2, 0))),
        (&[6, 1, 0, 0, 7, 0, 0, 0], [10, 0, 0, 0], Some((3, 2, 0))),
        (&[6, 1, 0, 0, 7, 0, 0, 0], [11, 0, 0, 0], Some((3, 2, 0))),
        // after an action
        (&[6, 1, 0, 0, 8, 0, 0, 0], [6, 1, 0, 0], Some((3, 2, 0))),
        (&[6, 1, 0, 0, 8, 0, 0, 0], [7, 0, 0, 0], Some((3, 2, 0))),
        (&[6, 1, 0, 0, 8, 0, 0, 0], [8, 0, 0, 0], READ),
        (&[6, 1, 0, 0, 8, 0, 0, 0], [9, 0, 0, 0], READ),
        (&[6, 1, 0, 0, 8, 0, 0, 0], [10, 0, 0, 0], READ),
        (&[6, 1, 0, 0, 8, 0, 0, 0], [11, 0, 0, 0], READ),
        // after a condition
        (
            &[6, 1, 0, 0, 8, 0, 0, 0, 9, 0, 0, 0],
            [6, 1, 0, 0],
            Some((3, 3, 0)),
        ),
        (
            &[6, 1, 0, 0, 8, 0, 0, 0, 9, 0, 0, 0],
            [7, 0, 0, 0],
            Some((3, 3, 0)),
        ),
        (&[6, 1, 0, 0, 8, 0, 0, 0, 9, 0, 0, 0], [8, 0, 0, 0], READ),
        // after an add
        (
            &[6, 1, 0, 0, 8, 0, 0, 0, 10, 0, 0, 0],
            [6, 1, 0, 0],
            Some((3, 3, 0)),
        ),
        (
            &[6, 1, 0, 0, 8, 0, 0, 0, 10, 0, 0, 0],
            [7, 0, 0, 0],
            Some((3, 3, 0)),
        ),
        (
            &[6, 1, 0, 0, 8, 0, 0, 0, 10, 0, 0, 0],
            [9, 0, 0, 0],
            Some((3, 3, 0)),
        ),
        (&[6, 1, 0, 0, 8, 0, 0, 0, 10, 0, 0, 0], [8, 0, 0, 0], READ),
        // after a delete
        (
            &[6, 1, 0, 0, 8, 0, 0, 0, 11, 0, 0, 0],
            [6, 1, 0, 0],
            Some((3, 3, 0)),
        ),
        (
            &[6, 1, 0, 0, 8, 0, 0, 0, 11, 0, 0, 0],
            [7, 0, 0, 0],
            Some((3, 3, 0)),
        ),
        (
            &[6, 1, 0, 0, 8, 0, 0, 0, 11, 0, 0, 0],
            [9, 0, 0, 0],
            Some((3, 3, 0)),
        ),
        (
            &[6, 1, 0, 0, 8, 0, 0, 0, 11, 0, 0, 0],
            [10, 0, 0, 0],
            Some((3, 3, 0)),
        ),
        (&[6, 1, 0, 0, 8, 0, 0, 0, 11, 0, 0, 0], [8, 0, 0, 0], READ),
        // ranges, with two facts
        (&[6, 1, 0, 0, 6, 0, 0, 0], [7, 1, 0, 0], READ),
        (&[6, 1, 0, 0, 6, 0, 0, 0], [7, 2, 0, 0], Some((4, 2, 1))),
        // ranges of conditions, adds and deletes
        (&[6, 1, 0, 0, 6, 0, 0, 0, 8, 0, 0, 0], [9, 1, 0, 0], READ),
        (
            &[6, 1, 0, 0, 6, 0, 0, 0, 8, 0, 0, 0],
            [9, 2, 0, 0],
            Some((4, 3, 1)),
        ),
        (&[6, 1, 0, 0, 6, 0, 0, 0, 8, 0, 0, 0], [10, 1, 0, 0], READ),
        (
            &[6, 1, 0, 0, 6, 0, 0, 0, 8, 0, 0, 0],
            [10, 2, 0, 0],
            Some((4, 3, 1)),
        ),
        (&[6, 1, 0, 0, 6, 0, 0, 0, 8, 0, 0, 0], [11, 1, 0, 0], READ),
        (
            &[6, 1, 0, 0, 6, 0, 0, 0, 8, 0, 0, 0],
            [11, 255, 0, 0],
            Some((4, 3, 1)),
        ),
        // repeats in the goal
        (
            &[6, 1, 0, 0, 6, 1, 0, 0, 7, 0, 0, 0],
            [7, 0, 0, 0],
            Some((5, 3, 1)),
        ),
        (&[6, 1, 0, 0, 6, 1, 0, 0, 7, 0, 0, 0], [7, 1, 0, 0], READ),
        // repeats in conditions; a condition, an add and a delete may name one fact
        (
            &[6, 1, 0, 0, 6, 1, 0, 0, 8, 0, 0, 0, 9, 0, 0, 0],
            [9, 0, 0, 0],
            Some((5, 4, 1)),
        ),
        (
            &[6, 1, 0, 0, 6, 1, 0, 0, 8, 0, 0, 0, 9, 0, 0, 0],
            [9, 1, 0, 0],
            READ,
        ),
        (
            &[6, 1, 0, 0, 6, 1, 0, 0, 8, 0, 0, 0, 9, 0, 0, 0],
            [10, 0, 0, 0],
            READ,
        ),
        (
            &[6, 1, 0, 0, 6, 1, 0, 0, 8, 0, 0, 0, 9, 0, 0, 0],
            [11, 0, 0, 0],
            READ,
        ),
        // repeats in adds; an add and a delete may name one fact
        (
            &[6, 1, 0, 0, 8, 0, 0, 0, 10, 0, 0, 0],
            [10, 0, 0, 0],
            Some((5, 3, 1)),
        ),
        (&[6, 1, 0, 0, 8, 0, 0, 0, 10, 0, 0, 0], [11, 0, 0, 0], READ),
        // repeats in deletes
        (
            &[6, 1, 0, 0, 8, 0, 0, 0, 10, 0, 0, 0, 11, 0, 0, 0],
            [11, 0, 0, 0],
            Some((5, 4, 1)),
        ),
        (
            &[6, 1, 0, 0, 8, 0, 0, 0, 10, 0, 0, 0, 11, 0, 0, 0],
            [8, 0, 0, 0],
            READ,
        ),
    ];

    #[test]
    fn cases(rt: HostRuntime) -> Result<(), Fail> {
        for (before, record, expected) in &CASES {
            check_after(&rt, before, &[(*record, *expected)])?;
        }
        Ok(())
    }

    #[test]
    fn facts(rt: HostRuntime) -> Result<(), Fail> {
        let bytes = [6, 1, 0, 0].repeat(rt.alloc(), 64)?;
        assert_eq!(rt; verdict(&rt, bytes.as_slice())?, READ);
        check_after(
            &rt,
            bytes.as_slice(),
            &[
                ([6, 1, 0, 0], Some((6, 64, 0))),
                ([6, 2, 0, 0], Some((6, 64, 0))),
                ([7, 63, 0, 0], READ),
                ([7, 64, 0, 0], Some((4, 64, 1))),
            ],
        )
    }

    #[test]
    fn actions(rt: HostRuntime) -> Result<(), Fail> {
        let mut bytes = [6, 1, 0, 0].to_vec(rt.alloc())?;
        bytes.extend_from_slice([[8, 0, 0, 0]; 512].as_flattened())?;
        assert_eq!(rt; verdict(&rt, bytes.as_slice())?, READ);
        check_after(
            &rt,
            bytes.as_slice(),
            &[([8, 0, 0, 0], Some((6, 513, 0))), ([11, 0, 0, 0], READ)],
        )
    }

    #[test]
    fn conditions(rt: HostRuntime) -> Result<(), Fail> {
        let mut bytes = [6, 1, 0, 0].repeat(rt.alloc(), 9)?;
        bytes.extend_from_slice(&[8, 0, 0, 0])?;
        count(&mut bytes, 8, 9)?;
        assert_eq!(rt; verdict(&rt, bytes.as_slice())?, READ);
        check_after(
            &rt,
            bytes.as_slice(),
            &[
                ([9, 8, 0, 0], Some((6, 18, 0))),
                ([9, 0, 0, 0], Some((6, 18, 0))),
                ([10, 8, 0, 0], READ),
            ],
        )
    }

    // An action of so many adds and deletes, and one more record.
    fn after_effects(
        rt: &(impl Abort + AllocGlobal),
        adds: u8,
        deletes: u8,
        cases: &[([u8; 4], Verdict)],
    ) -> Result<(), Fail> {
        let mut bytes = [6, 1, 0, 0].repeat(rt.alloc(), 9)?;
        bytes.extend_from_slice(&[8, 0, 0, 0])?;
        count(&mut bytes, adds, 10)?;
        count(&mut bytes, deletes, 11)?;
        check_after(rt, bytes.as_slice(), cases)
    }

    // The eighth add or delete is the record 17, the ninth the record 18.
    #[test]
    fn adds_and_deletes(rt: HostRuntime) -> Result<(), Fail> {
        after_effects(&rt, 7, 0, &[([10, 7, 0, 0], READ), ([11, 7, 0, 0], READ)])?;
        after_effects(&rt, 0, 7, &[([11, 7, 0, 0], READ)])?;
        after_effects(&rt, 5, 2, &[([11, 7, 0, 0], READ)])?;
        after_effects(
            &rt,
            8,
            0,
            &[
                ([10, 8, 0, 0], Some((6, 18, 0))),
                ([11, 8, 0, 0], Some((6, 18, 0))),
                ([11, 0, 0, 0], Some((6, 18, 0))),
            ],
        )?;
        after_effects(
            &rt,
            0,
            8,
            &[
                ([11, 8, 0, 0], Some((6, 18, 0))),
                ([10, 8, 0, 0], Some((3, 18, 0))),
                ([8, 0, 0, 0], READ),
            ],
        )?;
        after_effects(&rt, 5, 3, &[([11, 8, 0, 0], Some((6, 18, 0)))])
    }

    #[test]
    fn lengths(rt: HostRuntime) -> Result<(), Fail> {
        assert_eq!(rt; verdict(&rt, &[])?, Some((1, 0, 0)));
        assert_eq!(rt; verdict(&rt, &[6, 1, 0])?, Some((1, 0, 0)));
        assert_eq!(rt; verdict(&rt, &[6, 1, 0, 0, 6])?, Some((1, 0, 0)));
        let mut bytes = [6, 1, 0, 0].repeat(rt.alloc(), 8832)?;
        assert_eq!(rt; verdict(&rt, bytes.as_slice())?, Some((6, 64, 0)));
        bytes.extend_from_slice(&[6, 1, 0, 0])?;
        assert_eq!(rt; verdict(&rt, bytes.as_slice())?, Some((1, 0, 0)));
        Ok(())
    }

    // Two facts, of which the second holds; the goal is the first; the action needs the second, adds the first and deletes both.
    fn small(rt: &HostRuntime) -> Result<Sheet, Fail> {
        let records = [
            [6, 0, 0, 0],
            [6, 1, 0, 0],
            [7, 0, 0, 0],
            [8, 0, 0, 0],
            [9, 1, 0, 0],
            [10, 0, 0, 0],
            [11, 0, 0, 0],
            [11, 1, 0, 0],
        ];
        Ok(Sheet::read(rt.alloc(), records.as_flattened())?)
    }

    #[test]
    fn fact_answers(rt: HostRuntime) -> Result<(), Fail> {
        let sheet = small(&rt)?;
        assert_eq!(rt; sheet.variables(), 2);
        assert_eq!(rt; (sheet.size(0), sheet.size(1), sheet.size(2)), (2, 2, 0));
        assert_eq!(rt; (sheet.start(0), sheet.start(1), sheet.start(2)), (0, 1, 0));
        assert_eq!(rt; (sheet.goal(0), sheet.goal(1)), (Some(1), None));
        assert_eq!(rt; sheet.goal(2), None);
        Ok(())
    }

    // The add of the first fact beats its delete.
    #[test]
    fn action_answers(rt: HostRuntime) -> Result<(), Fail> {
        let sheet = small(&rt)?;
        assert_eq!(rt; sheet.actions(), 1);
        assert_eq!(rt; (sheet.is_present(0), sheet.is_present(1)), (true, false));
        assert_eq!(rt; (sheet.need(0, 0), sheet.need(0, 1)), (None, Some(1)));
        assert_eq!(rt;
            (sheet.effect(0, 0), sheet.effect(0, 1)),
            (Some(1), Some(0))
        );
        assert_eq!(rt; (sheet.need(1, 1), sheet.effect(1, 0)), (None, None));
        assert_eq!(rt; (sheet.need(0, 2), sheet.effect(0, 2)), (None, None));
        Ok(())
    }
}
