// Why bytes are refused, and how that is printed.
ghost use Rattle.std.specs.Prelude.{◌≡◌};
ghost use Rattle.records.specs.Lines.{number_of, layer_of, line_of};
ghost use Rattle.records.specs.declared.fault.ReadFault.TheVariants.{Memory, Record as AtRecord};

use std::alloc::AllocError;

// Why a record is refused, and the number that it goes by.
#[derive(Clone, Copy, Debug, PartialEq, Eq)]
pub enum Refusal {
    Form = 2,
    Place = 3,
    Range = 4,
    Repeated = 5,
    Limit = 6,
}

// Why, and at which byte of the record.
#[derive(Clone, Copy, Debug, PartialEq, Eq)]
pub struct Ground {
    pub refusal: Refusal,
    pub byte: u8,
}

// What is wrong with a record, and its number from 0.
#[derive(Clone, Copy, Debug, PartialEq, Eq)]
pub struct RecordFault {
    pub index: usize,
    pub ground: Ground,
}

// Why bytes are not read: their length, a record, or want of memory.
#[derive(Clone, Copy, Debug, PartialEq, Eq)]
pub enum ReadFault {
    Length,
    Record(RecordFault),
    Memory,
}

// What is printed of a refusal: `E LAYER NUMBER PLACE BYTE`.
#[derive(Clone, Copy, Debug, PartialEq, Eq)]
pub struct FaultLine {
    pub layer: u8,
    pub number: u8,
    pub place: usize,
    pub byte: u8,
}

impl Refusal {
    // This refusal, at a byte.
    pub fn at(self, byte: u8) -> Ground
        ensures { result ≡ record { refusal = self; byte = byte } }
    {
        Ground {
            refusal: self,
            byte,
        }
    }

    // The number that it goes by.
    pub fn number(self) -> u8
        ensures { result ≡ number_of self }
    {
        self as u8
    }

    // The layer of checks that it comes from.
    pub fn layer(self) -> u8
        ensures { result ≡ layer_of self }
    {
        match self {
            Refusal::Form => 1,
            Refusal::Place | Refusal::Range | Refusal::Repeated | Refusal::Limit => 2,
        }
    }
}

impl ReadFault {
    // What is printed of it: nothing for want of memory, which is no refusal.
    pub fn line(self) -> Option<FaultLine>
        ensures { result ≡ line_of self }
    {
        match self {
            ReadFault::Length => Some(FaultLine {
                layer: 1,
                number: 1,
                place: 0,
                byte: 0,
            }),
            ReadFault::Record(fault) => Some(FaultLine {
                layer: fault.ground.refusal.layer(),
                number: fault.ground.refusal.number(),
                place: fault.index,
                byte: fault.ground.byte,
            }),
            ReadFault::Memory => None,
        }
    }
}

// By hand, since what `?` makes of an error stands in a contract.
impl From<RecordFault> for ReadFault {
    ghost from_gives = { λ e r. r ≡ AtRecord e };

    fn from(e: RecordFault) -> ReadFault {
        ReadFault::Record(e)
    }
}

impl From<AllocError> for ReadFault {
    ghost from_gives = { λ _ r. r ≡ Memory };

    fn from(_e: AllocError) -> ReadFault {
        Self::Memory
    }
}
