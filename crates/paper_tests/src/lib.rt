// Papers at their limits: each expected verdict is worked out by hand from the rules of the format.
#![tactic(auto)]

#[cfg(test)]
mod tests {
    use paper::paper::Paper;
    use records::fault::FaultLine;
    use std::alloc::AllocError;
    use std::process::Abort;
    use std::test::*;
    use task::task_source::TaskSource;

    // The number, record and byte of a refusal; nothing where the paper is read.
    type Verdict = Option<(u8, usize, u8)>;

    const READ: Verdict = None;

    // What is printed of a refusal; nothing where the paper is read.
    fn line(rt: &HostRuntime, bytes: &[u8]) -> Option<FaultLine> {
        Paper::read(rt.alloc(), bytes).err()?.line()
    }

    // These helpers stand in sheet_tests too: what stops a test may stand in tests alone, and no crate can call another's tests.
    fn verdict(rt: &impl AllocGlobal, bytes: &[u8]) -> Result<Verdict, Fail> {
        match Paper::read(rt.alloc(), bytes) {
            Ok(_) => Ok(READ),
            Err(fault) => {
                let line = fault.line().ok_or(fault)?;
                Ok(Some((line.number, line.place, line.byte)))
            }
        }
    }

    // Each record, put after the same records, gets its verdict.
    fn check_after(
        rt: &(impl Abort + AllocGlobal),
        before: &[u8],
        cases: &[([u8; 4], Verdict)],
    ) -> Result<(), Fail> {
        for (record, expected) in cases {
            let mut bytes = before.to_vec(rt.alloc())?;
            bytes.extend_from_slice(record)?;
            assert_eq!(rt; verdict(rt, bytes.as_slice())?, *expected);
        }
        Ok(())
    }

    // Adds records of a kind on the variables from 0 on.
    fn count(bytes: &mut Vec<u8>, times: u8, kind: u8, value: u8) -> Result<(), AllocError> {
        for variable in 0..times {
            bytes.extend_from_slice(&[kind, variable, value, 0])?;
        }
        Ok(())
    }

    // Records that come before, one more record, and the verdict on all.
    static CASES: [(&[u8], [u8; 4], Verdict); 75] = [
        // sizes and start values
        (&[], [1, 0, 0, 0], Some((4, 0, 1))),
        (&[], [1, 1, 0, 0], READ),
        (&[], [1, 1, 1, 0], Some((4, 0, 2))),
        (&[], [1, 16, 15, 0], READ),
        (&[], [1, 16, 16, 0], Some((4, 0, 2))),
        (&[], [1, 17, 0, 0], Some((4, 0, 1))),
        (&[], [1, 17, 17, 0], Some((4, 0, 1))),
        (&[], [1, 255, 0, 0], Some((4, 0, 1))),
        // kinds of no form and of the other form
        (&[], [0, 3, 0, 0], Some((2, 0, 0))),
        (&[], [6, 1, 0, 0], Some((2, 0, 0))),
        (&[], [255, 1, 1, 1], Some((2, 0, 0))),
        // the same after a variable
        (&[1, 3, 0, 0], [6, 1, 0, 0], Some((2, 1, 0))),
        (&[1, 3, 0, 0], [11, 0, 0, 0], Some((2, 1, 0))),
        // unused bytes, before place and range
        (&[], [1, 3, 0, 1], Some((2, 0, 3))),
        (&[], [1, 0, 9, 1], Some((2, 0, 3))),
        (&[], [4, 9, 9, 1], Some((2, 0, 3))),
        // unused bytes of goals and actions, lowest first
        (&[1, 3, 0, 0], [2, 0, 1, 1], Some((2, 1, 3))),
        (&[1, 3, 0, 0], [3, 1, 0, 0], Some((2, 1, 1))),
        (&[1, 3, 0, 0], [3, 0, 1, 0], Some((2, 1, 2))),
        (&[1, 3, 0, 0], [3, 0, 0, 1], Some((2, 1, 3))),
        (&[1, 3, 0, 0], [3, 1, 1, 1], Some((2, 1, 1))),
        // unused bytes of conditions and effects
        (&[1, 3, 0, 0, 3, 0, 0, 0], [4, 0, 1, 255], Some((2, 2, 3))),
        (&[1, 3, 0, 0, 3, 0, 0, 0], [5, 0, 1, 255], Some((2, 2, 3))),
        // the first record is a variable
        (&[], [2, 0, 0, 0], Some((3, 0, 0))),
        (&[], [2, 9, 9, 0], Some((3, 0, 0))),
        (&[], [3, 0, 0, 0], Some((3, 0, 0))),
        (&[], [4, 0, 0, 0], Some((3, 0, 0))),
        (&[], [5, 0, 0, 0], Some((3, 0, 0))),
        // after a variable
        (&[1, 3, 0, 0], [1, 2, 1, 0], READ),
        (&[1, 3, 0, 0], [2, 0, 2, 0], READ),
        (&[1, 3, 0, 0], [3, 0, 0, 0], READ),
        (&[1, 3, 0, 0], [4, 0, 0, 0], Some((3, 1, 0))),
        (&[1, 3, 0, 0], [5, 0, 0, 0], Some((3, 1, 0))),
        // after a goal
        (&[1, 3, 0, 0, 2, 0, 1, 0], [1, 2, 0, 0], Some((3, 2, 0))),
        (&[1, 3, 0, 0, 2, 0, 1, 0], [3, 0, 0, 0], READ),
        (&[1, 3, 0, 0, 2, 0, 1, 0], [4, 0, 0, 0], Some((3, 2, 0))),
        (&[1, 3, 0, 0, 2, 0, 1, 0], [5, 0, 0, 0], Some((3, 2, 0))),
        // after an action
        (&[1, 3, 0, 0, 3, 0, 0, 0], [1, 2, 0, 0], Some((3, 2, 0))),
        (&[1, 3, 0, 0, 3, 0, 0, 0], [2, 0, 1, 0], Some((3, 2, 0))),
        (&[1, 3, 0, 0, 3, 0, 0, 0], [3, 0, 0, 0], READ),
        (&[1, 3, 0, 0, 3, 0, 0, 0], [4, 0, 0, 0], READ),
        (&[1, 3, 0, 0, 3, 0, 0, 0], [5, 0, 0, 0], READ),
        // after a condition
        (
            &[1, 3, 0, 0, 3, 0, 0, 0, 4, 0, 1, 0],
            [1, 2, 0, 0],
            Some((3, 3, 0)),
        ),
        (
            &[1, 3, 0, 0, 3, 0, 0, 0, 4, 0, 1, 0],
            [2, 0, 1, 0],
            Some((3, 3, 0)),
        ),
        (&[1, 3, 0, 0, 3, 0, 0, 0, 4, 0, 1, 0], [3, 0, 0, 0], READ),
        (&[1, 3, 0, 0, 3, 0, 0, 0, 4, 0, 1, 0], [5, 0, 0, 0], READ),
        // after an effect
        (
            &[1, 3, 0, 0, 3, 0, 0, 0, 5, 0, 1, 0],
            [1, 2, 0, 0],
            Some((3, 3, 0)),
        ),
        (
            &[1, 3, 0, 0, 3, 0, 0, 0, 5, 0, 1, 0],
            [2, 0, 1, 0],
            Some((3, 3, 0)),
        ),
        (&[1, 3, 0, 0, 3, 0, 0, 0, 5, 0, 1, 0], [3, 0, 0, 0], READ),
        (
            &[1, 3, 0, 0, 3, 0, 0, 0, 5, 0, 1, 0],
            [4, 0, 0, 0],
            Some((3, 3, 0)),
        ),
        // after the effect of the action before
        (
            &[1, 3, 0, 0, 3, 0, 0, 0, 5, 0, 1, 0, 3, 0, 0, 0],
            [4, 0, 0, 0],
            READ,
        ),
        // ranges of a goal, with sizes 3 and 2
        (&[1, 3, 0, 0, 1, 2, 0, 0], [2, 0, 2, 0], READ),
        (&[1, 3, 0, 0, 1, 2, 0, 0], [2, 0, 3, 0], Some((4, 2, 2))),
        (&[1, 3, 0, 0, 1, 2, 0, 0], [2, 1, 1, 0], READ),
        (&[1, 3, 0, 0, 1, 2, 0, 0], [2, 1, 2, 0], Some((4, 2, 2))),
        (&[1, 3, 0, 0, 1, 2, 0, 0], [2, 2, 0, 0], Some((4, 2, 1))),
        (&[1, 3, 0, 0, 1, 2, 0, 0], [2, 255, 255, 0], Some((4, 2, 1))),
        // ranges of a condition and an effect
        (&[1, 3, 0, 0, 1, 2, 0, 0, 3, 0, 0, 0], [4, 0, 2, 0], READ),
        (
            &[1, 3, 0, 0, 1, 2, 0, 0, 3, 0, 0, 0],
            [4, 0, 3, 0],
            Some((4, 3, 2)),
        ),
        (
            &[1, 3, 0, 0, 1, 2, 0, 0, 3, 0, 0, 0],
            [4, 2, 0, 0],
            Some((4, 3, 1)),
        ),
        (&[1, 3, 0, 0, 1, 2, 0, 0, 3, 0, 0, 0], [5, 1, 1, 0], READ),
        (
            &[1, 3, 0, 0, 1, 2, 0, 0, 3, 0, 0, 0],
            [5, 1, 2, 0],
            Some((4, 3, 2)),
        ),
        (
            &[1, 3, 0, 0, 1, 2, 0, 0, 3, 0, 0, 0],
            [5, 2, 0, 0],
            Some((4, 3, 1)),
        ),
        // repeats in the goal, after ranges
        (
            &[1, 3, 0, 0, 1, 2, 0, 0, 2, 0, 1, 0],
            [2, 0, 1, 0],
            Some((5, 3, 1)),
        ),
        (
            &[1, 3, 0, 0, 1, 2, 0, 0, 2, 0, 1, 0],
            [2, 0, 2, 0],
            Some((5, 3, 1)),
        ),
        (
            &[1, 3, 0, 0, 1, 2, 0, 0, 2, 0, 1, 0],
            [2, 0, 3, 0],
            Some((4, 3, 2)),
        ),
        (&[1, 3, 0, 0, 1, 2, 0, 0, 2, 0, 1, 0], [2, 1, 0, 0], READ),
        // repeats in conditions; goal, condition and effect may name one variable
        (
            &[1, 3, 0, 0, 1, 2, 0, 0, 2, 0, 1, 0, 3, 0, 0, 0, 4, 0, 1, 0],
            [4, 0, 1, 0],
            Some((5, 5, 1)),
        ),
        (
            &[1, 3, 0, 0, 1, 2, 0, 0, 2, 0, 1, 0, 3, 0, 0, 0, 4, 0, 1, 0],
            [4, 1, 0, 0],
            READ,
        ),
        (
            &[1, 3, 0, 0, 1, 2, 0, 0, 2, 0, 1, 0, 3, 0, 0, 0, 4, 0, 1, 0],
            [5, 0, 1, 0],
            READ,
        ),
        // repeats in effects
        (
            &[1, 3, 0, 0, 3, 0, 0, 0, 4, 0, 1, 0, 5, 0, 2, 0],
            [5, 0, 0, 0],
            Some((5, 4, 1)),
        ),
        (
            &[1, 3, 0, 0, 3, 0, 0, 0, 4, 0, 1, 0, 5, 0, 2, 0],
            [5, 0, 2, 0],
            Some((5, 4, 1)),
        ),
        (
            &[1, 3, 0, 0, 3, 0, 0, 0, 4, 0, 1, 0, 5, 0, 2, 0],
            [3, 0, 0, 0],
            READ,
        ),
        // no repeat from action to action
        (
            &[1, 3, 0, 0, 3, 0, 0, 0, 4, 0, 1, 0, 3, 0, 0, 0],
            [4, 0, 1, 0],
            READ,
        ),
        // of two faulty records the first counts
        (&[1, 3, 0, 0, 2, 9, 9, 0], [9, 9, 9, 9], Some((4, 1, 1))),
    ];

    #[test]
    fn cases(rt: HostRuntime) -> Result<(), Fail> {
        for (before, record, expected) in &CASES {
            check_after(&rt, before, &[(*record, *expected)])?;
        }
        Ok(())
    }

    #[test]
    fn variables(rt: HostRuntime) -> Result<(), Fail> {
        let bytes = [1, 2, 0, 0].repeat(rt.alloc(), 64)?;
        assert_eq!(rt; verdict(&rt, bytes.as_slice())?, READ);
        check_after(
            &rt,
            bytes.as_slice(),
            &[
                ([1, 1, 0, 0], Some((6, 64, 0))),
                ([1, 17, 0, 0], Some((6, 64, 0))),
                ([3, 0, 0, 0], READ),
            ],
        )
    }

    // The limit of facts counts the size as written, and comes before its range.
    #[test]
    fn facts(rt: HostRuntime) -> Result<(), Fail> {
        let mut bytes = [1, 16, 0, 0].repeat(rt.alloc(), 15)?;
        check_after(
            &rt,
            bytes.as_slice(),
            &[([1, 16, 0, 0], READ), ([1, 17, 0, 0], Some((6, 15, 0)))],
        )?;
        bytes.extend_from_slice(&[1, 16, 0, 0])?;
        check_after(
            &rt,
            bytes.as_slice(),
            &[
                ([1, 1, 0, 0], Some((6, 16, 0))),
                ([1, 0, 0, 0], Some((4, 16, 1))),
            ],
        )
    }

    #[test]
    fn facts_before_17(rt: HostRuntime) -> Result<(), Fail> {
        let mut bytes = [1, 16, 0, 0].repeat(rt.alloc(), 14)?;
        bytes.extend_from_slice(&[1, 15, 0, 0])?;
        check_after(
            &rt,
            bytes.as_slice(),
            &[
                ([1, 17, 0, 0], Some((4, 15, 1))),
                ([1, 18, 0, 0], Some((6, 15, 0))),
            ],
        )
    }

    #[test]
    fn actions(rt: HostRuntime) -> Result<(), Fail> {
        let mut bytes = [1, 2, 0, 0].to_vec(rt.alloc())?;
        bytes.extend_from_slice([[3, 0, 0, 0]; 512].as_flattened())?;
        assert_eq!(rt; verdict(&rt, bytes.as_slice())?, READ);
        check_after(
            &rt,
            bytes.as_slice(),
            &[([3, 0, 0, 0], Some((6, 513, 0))), ([4, 0, 1, 0], READ)],
        )
    }

    // Nine variables, one action, and eight conditions; then eight effects too.
    #[test]
    fn conditions_and_effects(rt: HostRuntime) -> Result<(), Fail> {
        let mut bytes = [1, 2, 0, 0].repeat(rt.alloc(), 9)?;
        bytes.extend_from_slice(&[3, 0, 0, 0])?;
        count(&mut bytes, 8, 4, 1)?;
        assert_eq!(rt; verdict(&rt, bytes.as_slice())?, READ);
        check_after(
            &rt,
            bytes.as_slice(),
            &[
                ([4, 8, 1, 0], Some((6, 18, 0))),
                ([4, 0, 1, 0], Some((6, 18, 0))),
                ([4, 9, 9, 0], Some((6, 18, 0))),
            ],
        )?;
        count(&mut bytes, 8, 5, 1)?;
        assert_eq!(rt; verdict(&rt, bytes.as_slice())?, READ);
        check_after(
            &rt,
            bytes.as_slice(),
            &[([5, 8, 1, 0], Some((6, 26, 0))), ([3, 0, 0, 0], READ)],
        )
    }

    #[test]
    fn short_lengths(rt: HostRuntime) -> Result<(), Fail> {
        assert_eq!(rt; verdict(&rt, &[])?, Some((1, 0, 0)));
        assert_eq!(rt; verdict(&rt, &[1])?, Some((1, 0, 0)));
        assert_eq!(rt; verdict(&rt, &[1, 2])?, Some((1, 0, 0)));
        assert_eq!(rt; verdict(&rt, &[1, 2, 0])?, Some((1, 0, 0)));
        assert_eq!(rt; verdict(&rt, &[9, 9, 9, 9, 9])?, Some((1, 0, 0)));
        Ok(())
    }

    // The longest paper: 64 variables, 64 goals, and 512 actions of 8 conditions and 8 effects.
    #[test]
    fn longest(rt: HostRuntime) -> Result<(), Fail> {
        let mut bytes = [1, 2, 0, 0].repeat(rt.alloc(), 64)?;
        count(&mut bytes, 64, 2, 1)?;
        for _ in 0..512 {
            bytes.extend_from_slice(&[3, 0, 0, 0])?;
            count(&mut bytes, 8, 4, 0)?;
            count(&mut bytes, 8, 5, 1)?;
        }
        assert_eq!(rt; bytes.len(), 35328);
        assert_eq!(rt; verdict(&rt, bytes.as_slice())?, READ);
        bytes.extend_from_slice(&[9, 9, 9, 9])?;
        assert_eq!(rt; verdict(&rt, bytes.as_slice())?, Some((1, 0, 0)));
        Ok(())
    }

    #[test]
    fn lines(rt: HostRuntime) -> Result<(), Fail> {
        assert_eq!(rt;
            line(&rt, &[]),
            Some(FaultLine {
                layer: 1,
                number: 1,
                place: 0,
                byte: 0,
            })
        );
        assert_eq!(rt;
            line(&rt, &[1, 3, 0, 0, 3, 0, 7, 0]),
            Some(FaultLine {
                layer: 1,
                number: 2,
                place: 1,
                byte: 2,
            })
        );
        assert_eq!(rt;
            line(&rt, &[1, 3, 0, 0, 2, 0, 3, 0]),
            Some(FaultLine {
                layer: 2,
                number: 4,
                place: 1,
                byte: 2,
            })
        );
        assert_eq!(rt; line(&rt, &[1, 3, 0, 0]), None);
        Ok(())
    }

    // One variable of size 3 from 2 with the goal 1, and two actions from 0, to 1 and to 2.
    fn small(rt: &HostRuntime) -> Result<Paper, Fail> {
        let records = [
            [1, 3, 2, 0],
            [2, 0, 1, 0],
            [3, 0, 0, 0],
            [4, 0, 0, 0],
            [5, 0, 1, 0],
            [3, 0, 0, 0],
            [5, 0, 2, 0],
        ];
        Ok(Paper::read(rt.alloc(), records.as_flattened())?)
    }

    #[test]
    fn variable_answers(rt: HostRuntime) -> Result<(), Fail> {
        let paper = small(&rt)?;
        assert_eq!(rt; paper.variables(), 1);
        assert_eq!(rt; (paper.size(0), paper.size(1)), (3, 0));
        assert_eq!(rt; (paper.start(0), paper.start(1)), (2, 0));
        assert_eq!(rt; (paper.goal(0), paper.goal(1)), (Some(1), None));
        Ok(())
    }

    #[test]
    fn action_answers(rt: HostRuntime) -> Result<(), Fail> {
        let paper = small(&rt)?;
        assert_eq!(rt; paper.actions(), 2);
        assert_eq!(rt; (paper.is_present(1), paper.is_present(2)), (true, false));
        assert_eq!(rt; (paper.need(0, 0), paper.need(1, 0)), (Some(0), None));
        assert_eq!(rt; (paper.need(0, 1), paper.need(2, 0)), (None, None));
        assert_eq!(rt;
            (paper.effect(0, 0), paper.effect(1, 0)),
            (Some(1), Some(2))
        );
        assert_eq!(rt; (paper.effect(0, 1), paper.effect(2, 0)), (None, None));
        Ok(())
    }
}
