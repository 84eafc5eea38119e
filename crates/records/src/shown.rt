// How a refusal is printed.
ghost use Rattle.records.specs.Lines.{printed};
ghost use Rattle.std.specs.Prelude.{Some};

use crate::fault::FaultLine;
use std::fmt;

impl fmt::Display for FaultLine {
    ghost output = { λ x. Some (printed x) };

    fn fmt<W: fmt::Write>(&self, f: &mut fmt::Formatter<W>) -> fmt::Result {
        let FaultLine {
            layer,
            number,
            place,
            byte,
        } = *self;
        write!(f, "E {layer} {number} {place} {byte}")
    }
}
