// Reading a program's input.
ghost use Rattle.std.specs.Prelude.{◌≡◌, take, IfOk, IfSome};

use crate::fault::ProgramFault;
use std::alloc::Global;
use std::fs;
use std::io::Read;

// One byte more than the longest paper or sheet has: no more is read, since what is longer is refused whatever it holds.
const MOST: u64 = 35329;

// The bytes of a reader, up to the first that is one too many.
fn read_most<R: Read + Drop>(heap: Global, reader: R) -> Result<Vec<u8>, ProgramFault>
    ensures { IfOk result (λ v. IfSome (R.remaining reader) (λ xs. v.items ≡ take 35329 xs)) }
{
    let mut bytes = Vec::new(heap);
    let mut most = reader.take(MOST);
    most.read_to_end(&mut bytes)?;
    Ok(bytes)
}

// The bytes on standard input, up to the first that is one too many.
pub fn read_input(rt: &HostRuntime) -> Result<Vec<u8>, ProgramFault> {
    read_most(rt.alloc(), rt.stdin())
}

// The bytes of a file, up to the first that is one too many.
pub fn read_file(rt: &HostRuntime, path: &str) -> Result<Vec<u8>, ProgramFault> {
    read_most(rt.alloc(), fs::open(rt, path)?)
}
