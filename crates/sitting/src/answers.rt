// The text of an answer.
ghost use Rattle.sitting.specs.Answers.{answer_text};
ghost use Rattle.std.specs.Prelude.{Some};

use rules::calls::{Answer, Remainder, Standing};
use std::fmt;

// An answer to be written: the number answered; `refused`, the refusal's number and what it returns; or the steps taken, the facts visited
// and what is left. A type of its own round `Answer`, which is of another crate and so can't be given a `Display` here.
#[derive(Clone, Copy)]
pub struct AnswerText {
    pub answer: Answer,
}

impl fmt::Display for AnswerText {
    ghost output = { λ x. Some (answer_text x.answer) };

    fn fmt<W: fmt::Write>(&self, f: &mut fmt::Formatter<W>) -> fmt::Result {
        match self.answer {
            Answer::Done => write!(f, "0"),
            Answer::Marked(mark) => write!(f, "{}", mark.number()),
            Answer::Reported(standing) => {
                let Standing {
                    steps,
                    visited,
                    remainder,
                } = standing;
                match remainder {
                    Remainder::AtLeast(least) => write!(f, "{steps} {visited} {least}"),
                    Remainder::DeadEnd => write!(f, "{steps} {visited} dead end"),
                }
            }
            Answer::Refused(refusal) => {
                write!(f, "refused {} {}", refusal.number(), refusal.returned())
            }
        }
    }
}
