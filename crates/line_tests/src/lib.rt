// The printed lines that no example of a program shows, written out by hand from the page of formats.
#![tactic(auto)]

#[cfg(test)]
mod tests {
    use account::account::FactLevel;
    use lines::line::FactLine;
    use printer::print::goal_line;
    use std::test::Fail;
    use task::facts::Fact;

    #[test]
    fn a_goal_out_of_reach(rt: HostRuntime) -> Result<(), Fail> {
        let line = goal_line(1);
        let text = format!(in rt.alloc(); "{line}")?;
        assert_eq!(rt; text.as_str(), "E 3 7 1 0");
        Ok(())
    }

    #[test]
    fn a_fact_without_level(rt: HostRuntime) -> Result<(), Fail> {
        let line = FactLevel {
            number: 9,
            fact: Fact {
                variable: 3,
                value: 1,
            },
            level: None,
        };
        let text = format!(in rt.alloc(); "{line}")?;
        assert_eq!(rt; text.as_str(), "fact 9: variable 3 is 1, out of reach");
        Ok(())
    }

    #[test]
    fn a_line_without_level(rt: HostRuntime) -> Result<(), Fail> {
        let line = FactLine {
            number: 12,
            variable: 5,
            value: 2,
            level: None,
        };
        let text = format!(in rt.alloc(); "{line}")?;
        assert_eq!(rt; text.as_str(), "F 12 5 2 -\n");
        Ok(())
    }
}
