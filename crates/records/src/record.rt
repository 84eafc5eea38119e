// A record, and what it can be.
ghost use Rattle.std.specs.Prelude.{◌≡◌};
ghost use Rattle.records.specs.Records.{of_quad};

// Four bytes, of which the first tells the kind.
#[derive(Clone, Copy)]
pub struct Record {
    pub kind: u8,
    pub one: u8,
    pub two: u8,
    pub three: u8,
}

impl From<[u8; 4]> for Record {
    ghost from_gives = { λ q r. r ≡ of_quad q };

    fn from([kind, one, two, three]: [u8; 4]) -> Record {
        Record {
            kind,
            one,
            two,
            three,
        }
    }
}

// What a record can be. A sheet's facts are variables and its adds are effects; a paper has no deletes.
#[derive(Clone, Copy)]
pub enum Kind {
    Variable,
    Goal,
    Action,
    Condition,
    Effect,
    Delete,
}
