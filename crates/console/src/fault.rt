// Why a program has no answer.
ghost use Rattle.console.specs.declared.fault.ProgramFault.TheVariants.{Memory, Read, Unreadable};
ghost use Rattle.console.specs.Lines.{line_of};
ghost use Rattle.std.specs.Prelude.{◌≡◌};

use records::fault::{FaultLine, ReadFault};
use std::alloc::AllocError;
use std::io;

// The bytes were refused, there was no memory, or the input could not be read.
#[derive(Drop)]
pub enum ProgramFault {
    Read(ReadFault),
    Memory,
    Unreadable,
}

impl ProgramFault {
    // The line that is printed of a refusal; want of memory and of input have none.
    pub fn line(&self) -> Option<FaultLine>
        ensures { result ≡ line_of self.now }
    {
        match self {
            ProgramFault::Read(fault) => fault.line(),
            ProgramFault::Memory | ProgramFault::Unreadable => None,
        }
    }
}

// By hand, since what `?` makes of an error stands in a contract.
impl From<ReadFault> for ProgramFault {
    ghost from_gives = { λ e r. r ≡ Read e };

    fn from(e: ReadFault) -> ProgramFault {
        ProgramFault::Read(e)
    }
}

impl From<AllocError> for ProgramFault {
    ghost from_gives = { λ _ r. r ≡ Memory };

    fn from(_e: AllocError) -> ProgramFault {
        ProgramFault::Memory
    }
}

impl From<io::Error> for ProgramFault {
    ghost from_gives = { λ _ r. r ≡ Unreadable };

    fn from(_e: io::Error) -> ProgramFault {
        ProgramFault::Unreadable
    }
}
