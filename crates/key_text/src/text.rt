// All lines of a key, one behind the other.
ghost use Rattle.key.specs.Keys.{Shows, task_of};
ghost use Rattle.key_text.specs.Joined.{KeyText};
ghost use Rattle.rules.specs.Machine.{Machine};
ghost use Rattle.std.specs.Prelude.{IfOk};

use crate::key_lines::KeyLines;
use key::keys::Key;
use std::alloc::{AllocError, Global};

// The lines of a key in their order; it fails only for want of memory.
pub fn key_text(heap: Global, key: &Key) -> Result<Vec<u8>, AllocError>
    ensures { IfOk result (λ text. ((m : Machine) → Shows key.now m → KeyText (task_of key.now) m text.items)) }
{
    let mut text = String::new(heap);
    for line in KeyLines::of(key) {
        write!(text, "{line}")?;
    }
    Ok(text.into_bytes())
}
