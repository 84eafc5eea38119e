// Lines that are requests and lines that are none, and the text of answers.
#![tactic(auto)]

#[cfg(test)]
mod tests {
    use rules::calls::{Answer, Call, Mark, Refusal, Remainder, Standing};
    use sitting::answers::AnswerText;
    use sitting::parsing::parse_request;
    use sitting::requests::Request;
    use std::process::Abort;
    use std::test::Fail;

    fn reads(rt: &impl Abort, line: &str, call: Call) {
        assert_eq!(rt; parse_request(line), Some(Request::Call(call)), "{}", line);
    }

    fn reads_none(rt: &impl Abort, line: &str) {
        assert_eq!(rt; parse_request(line), None, "{}", line);
    }

    fn writes(rt: &(impl Abort + AllocGlobal), answer: Answer, text: &str) -> Result<(), Fail> {
        let shown = AnswerText { answer };
        let written = format!(in rt.alloc(); "{shown}")?;
        assert_eq!(rt; written.as_str(), text);
        Ok(())
    }

    #[test]
    fn reads_every_request(rt: HostRuntime) {
        reads(&rt, "propose 12", Call::Propose(12));
        reads(&rt, "order 1 0 255", Call::Order(1, 0, 255));
        reads(&rt, "begin", Call::Begin);
        reads(&rt, "step 007", Call::Step(7));
        reads(&rt, "report", Call::Report);
        assert_eq!(rt; parse_request("tally"), Some(Request::Tally));
        assert_eq!(rt; parse_request("held"), Some(Request::Held));
    }

    #[test]
    fn takes_blanks_at_the_ends_and_between(rt: HostRuntime) {
        reads(&rt, "  begin \r", Call::Begin);
        reads(&rt, "step   3\r", Call::Step(3));
    }

    #[test]
    fn stops_at_the_largest_number(rt: HostRuntime) {
        reads(
            &rt,
            "propose 18446744073709551615",
            Call::Propose(18446744073709551615),
        );
        reads(
            &rt,
            "propose 18446744073709551616",
            Call::Propose(18446744073709551615),
        );
        reads(
            &rt,
            "propose 99999999999999999999999",
            Call::Propose(18446744073709551615),
        );
    }

    #[test]
    fn refuses_other_lines(rt: HostRuntime) {
        reads_none(&rt, "");
        reads_none(&rt, "  \r");
        reads_none(&rt, "proposed 1");
        reads_none(&rt, "propose");
        reads_none(&rt, "propose 1 2");
        reads_none(&rt, "propose 1x");
        reads_none(&rt, "propose -1");
        reads_none(&rt, "order 1 2");
        reads_none(&rt, "begin 0");
        reads_none(&rt, "BEGIN");
    }

    #[test]
    fn writes_every_answer(rt: HostRuntime) -> Result<(), Fail> {
        writes(&rt, Answer::Done, "0")?;
        writes(&rt, Answer::Marked(Mark::Accepted), "1")?;
        writes(&rt, Answer::Marked(Mark::Known), "2")?;
        writes(&rt, Answer::Refused(Refusal::NoLandmark(4)), "refused 9 4")?;
        let remainder = Remainder::AtLeast(2);
        let steps = 3;
        let visited = 5;
        let standing = Standing {
            steps,
            visited,
            remainder,
        };
        writes(&rt, Answer::Reported(standing), "3 5 2")?;
        let remainder = Remainder::DeadEnd;
        let stuck = Standing {
            steps,
            visited,
            remainder,
        };
        writes(&rt, Answer::Reported(stuck), "3 5 dead end")
    }
}
