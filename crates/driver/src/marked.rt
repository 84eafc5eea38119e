// A new key, filled.
ghost use Rattle.driver.specs.Marking.{MarkedKey};
ghost use Rattle.std.specs.Prelude.{IfOk};

use crate::filling::{order_all, propose_all};
use key::keys::Key;
use std::alloc::{AllocError, Global};
use task::task_source::TaskSource;

// A new key over the source's task with all that the rules confirm; it fails only for want of memory.
pub fn marked_key<S: TaskSource>(heap: Global, source: &S) -> Result<Key, AllocError>
    ensures { IfOk result (MarkedKey (S.task source.now)) }
{
    let mut key = Key::open(heap, source)?;
    propose_all(&mut key);
    order_all(&mut key);
    Ok(key)
}
