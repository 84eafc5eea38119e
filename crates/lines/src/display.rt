// Printing a line.
ghost use Rattle.lines.specs.Text.{fact_text, line_text, order_text};
ghost use Rattle.std.specs.Prelude.{Some};

use crate::line::{FactLine, Line, OrderLine};
use rules::calls::Kind;
use std::fmt;

impl fmt::Display for FactLine {
    ghost output = { λ x. Some (fact_text x) };

    fn fmt<W: fmt::Write>(&self, f: &mut fmt::Formatter<W>) -> fmt::Result {
        write!(f, "F {} {} {} ", self.number, self.variable, self.value)?;
        match self.level {
            Some(level) => writeln!(f, "{level}"),
            None => writeln!(f, "-"),
        }
    }
}

impl fmt::Display for OrderLine {
    ghost output = { λ x. Some (order_text x) };

    fn fmt<W: fmt::Write>(&self, f: &mut fmt::Formatter<W>) -> fmt::Result {
        match self.kind {
            Kind::Necessary => write!(f, "N")?,
            Kind::Greedy => write!(f, "G")?,
        }
        writeln!(f, " {} {}", self.earlier, self.later)
    }
}

impl fmt::Display for Line {
    ghost output = { λ x. Some (line_text x) };

    fn fmt<W: fmt::Write>(&self, f: &mut fmt::Formatter<W>) -> fmt::Result {
        match self {
            Line::Fact(fact) => write!(f, "{fact}"),
            Line::Order(order) => write!(f, "{order}"),
        }
    }
}
