// Listing a line of a key.
ghost use Rattle.std.specs.Prelude.{◌≤◌, length, IfOk};
ghost use Rattle.key.specs.Keys.{Shows, task_of};
ghost use Rattle.listing.specs.Listing.{Listed};
ghost use Rattle.rules.specs.Machine.{Machine};

use crate::line_at::line_at;
use crate::refusal::ListingRefusal;
use key::keys::Key;
use lines::write::write_line;

// Writes the line of the key with a number, counted from 0, to the front of a buffer, and answers its length. A refusal leaves the
// buffer as it was. Into a buffer of the caller's and not a `String`: it takes no memory, so it cannot fail for want of it.
pub fn list_line(key: &Key, number: usize, buffer: &mut [u8]) -> Result<usize, ListingRefusal>
    ensures fits { IfOk result (λ n. n ≤ length buffer.new) }
    ensures listed { (m : Machine) → Shows key.now m → Listed (task_of key.now) m number buffer.old buffer.new result }
{
    // An `if let` and no `?`, which would want a function for this one test.
    if let Some(goal) = key.missed() {
        return Err(ListingRefusal::GoalOutOfReach(goal));
    }
    if buffer.len() < 32 {
        return Err(ListingRefusal::ShortBuffer(buffer.len()));
    }
    let line = line_at(key, number).map_err(ListingRefusal::NoSuchLine)?;
    let written = write_line(line, buffer).unwrap();
    Ok(written)
}
