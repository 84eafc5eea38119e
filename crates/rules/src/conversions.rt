// The kind with a number, the number of a kind, and results of the single calls as answers. The last three blocks have one shape, since an
// own macro may write no `impl`, and one block for any result would need a trait to say which answer a value is.
use crate::calls::{Answer, Kind, Mark, Refusal, Standing};

impl TryFrom<usize> for Kind {
    type Error = Refusal;

    ghost use Rattle.rules.specs.Results.{KindOf};

    ghost try_from_gives = { KindOf };

    fn try_from(number: usize) -> Result<Kind, Refusal> {
        match number {
            1 => Ok(Kind::Greedy),
            2 => Ok(Kind::Necessary),
            _ => Err(Refusal::NoSuch(number)),
        }
    }
}

impl From<Kind> for usize {
    ghost use Rattle.rules.specs.Machine.{KindNumber};

    ghost from_gives = { λ kind number. KindNumber number kind };

    fn from(kind: Kind) -> usize {
        match kind {
            Kind::Greedy => 1,
            Kind::Necessary => 2,
        }
    }
}

impl From<Result<Mark, Refusal>> for Answer {
    ghost use Rattle.rules.specs.Results.{marked};
    ghost use Rattle.std.specs.Prelude.{◌≡◌};

    ghost from_gives = { λ res answer. answer ≡ marked res };

    fn from(res: Result<Mark, Refusal>) -> Answer {
        match res {
            Ok(mark) => Answer::Marked(mark),
            Err(refusal) => Answer::Refused(refusal),
        }
    }
}

impl From<Result<(), Refusal>> for Answer {
    ghost use Rattle.rules.specs.Results.{acted};
    ghost use Rattle.std.specs.Prelude.{◌≡◌};

    ghost from_gives = { λ res answer. answer ≡ acted res };

    fn from(res: Result<(), Refusal>) -> Answer {
        match res {
            Ok(_) => Answer::Done,
            Err(refusal) => Answer::Refused(refusal),
        }
    }
}

impl From<Result<Standing, Refusal>> for Answer {
    ghost use Rattle.rules.specs.Results.{reported};
    ghost use Rattle.std.specs.Prelude.{◌≡◌};

    ghost from_gives = { λ res answer. answer ≡ reported res };

    fn from(res: Result<Standing, Refusal>) -> Answer {
        match res {
            Ok(standing) => Answer::Reported(standing),
            Err(refusal) => Answer::Refused(refusal),
        }
    }
}
