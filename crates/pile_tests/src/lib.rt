// Layers piled on a paper: the board of the rules page, barred and restarted, with levels worked out by hand.
#![tactic(auto)]

#[cfg(test)]
mod tests {
    use paper::paper::Paper;
    use reach::measure::AtLevel;
    use reach::reach::build_levels;
    use std::array;
    use std::test::Fail;
    use task::barred::Barred;
    use task::restarted::Restarted;
    use task::task_source::TaskSource;

    const BOARD: [u8; 164] = [
        1, 2, 0, 0, 1, 2, 0, 0, 1, 2, 0, 0, 1, 2, 0, 0, 1, 2, 0, 0, 1, 3, 0, 0, 2, 5, 1, 0, 3, 0,
        0, 0, 4, 0, 0, 0, 5, 0, 1, 0, 3, 0, 0, 0, 4, 0, 1, 0, 5, 1, 1, 0, 3, 0, 0, 0, 4, 1, 1, 0,
        4, 2, 0, 0, 5, 2, 1, 0, 3, 0, 0, 0, 4, 2, 1, 0, 5, 3, 1, 0, 3, 0, 0, 0, 4, 3, 1, 0, 5, 4,
        1, 0, 3, 0, 0, 0, 4, 2, 1, 0, 5, 2, 0, 0, 5, 4, 1, 0, 3, 0, 0, 0, 4, 0, 1, 0, 4, 4, 1, 0,
        4, 5, 0, 0, 5, 5, 1, 0, 3, 0, 0, 0, 4, 4, 1, 0, 5, 1, 0, 0, 3, 0, 0, 0, 4, 4, 1, 0, 5, 1,
        1, 0, 3, 0, 0, 0, 4, 4, 1, 0, 5, 5, 2, 0,
    ];

    // The levels of the thirteen facts, and the number of layers; by `build_levels` itself, which is tried with them.
    fn levels_of<S: TaskSource>(source: &S) -> (Option<usize>, [Option<u16>; 13]) {
        let mut levels = [AtLevel { level: 7 }; 256];
        let mut scratch = [AtLevel { level: 7 }; 256];
        let layers = build_levels(source, &mut levels, &mut scratch);
        (layers, array::from_fn(|number| levels[number].layer()))
    }

    // Powered, clocked and out of reset, but the debug port stays closed: the core is halted through reset.
    const HALTED: [Option<u16>; 13] = [
        None,
        Some(0),
        Some(2),
        Some(0),
        Some(1),
        Some(0),
        Some(0),
        None,
        Some(0),
        Some(1),
        Some(0),
        Some(2),
        Some(2),
    ];

    #[test]
    fn barred_over_restarted(rt: HostRuntime) -> Result<(), Fail> {
        let paper = Paper::read(rt.alloc(), &BOARD)?;
        let state = [1, 1, 1, 0, 0, 0];
        let source = Barred::by_number(Restarted::new(&paper, &state), 7);
        assert_eq!(rt; levels_of(&source), (Some(2), HALTED));
        Ok(())
    }

    #[test]
    fn restarted_over_barred(rt: HostRuntime) -> Result<(), Fail> {
        let paper = Paper::read(rt.alloc(), &BOARD)?;
        let state = [1, 1, 1, 0, 0, 0];
        let source = Restarted::new(Barred::by_number(&paper, 7), &state);
        assert_eq!(rt; levels_of(&source), (Some(2), HALTED));
        Ok(())
    }

    // Values past a variable's size, and missing ones, count as 0; a number that no fact has bars nothing.
    #[test]
    fn values_and_numbers_out_of_range(rt: HostRuntime) -> Result<(), Fail> {
        let paper = Paper::read(rt.alloc(), &BOARD)?;
        let state = [2, 9, 0];
        let source = Barred::by_number(Restarted::new(&paper, &state), 13);
        assert_eq!(rt; levels_of(&source), levels_of(&paper));
        assert!(rt; source.is_present(9));
        assert!(rt; !source.is_present(10));
        assert_eq!(rt; source.start(1), 0);
        Ok(())
    }

    // Without released reset only power and clock are to be had.
    #[test]
    fn barred_alone(rt: HostRuntime) -> Result<(), Fail> {
        let paper = Paper::read(rt.alloc(), &BOARD)?;
        let source = Barred::by_number(&paper, 5);
        let (layers, found) = levels_of(&source);
        assert_eq!(rt; layers, Some(2));
        assert_eq!(rt; found[3], Some(2));
        assert_eq!(rt; found[5], None);
        assert_eq!(rt; found[9], None);
        assert_eq!(rt; found[11], None);
        Ok(())
    }
}
