// A new key.
ghost use Rattle.key.specs.Keys.{Opened};
ghost use Rattle.std.specs.Prelude.{IfOk};

use super::Key;
use marker::markers::Marker;
use std::alloc::{AllocError, Global};
use table::task_table::TaskTable;
use task::task_source::TaskSource;

impl Key {
    // An empty key with a copy of the source's task, and a sitting at its start; it fails only for want of memory.
    pub fn open<S: TaskSource>(heap: Global, source: &S) -> Result<Key, AllocError>
        ensures { IfOk result (Opened (S.task source.now)) }
    {
        let table = TaskTable::copy(heap, source)?;
        let marker = Marker::open(heap, table)?;
        Ok(Key { marker })
    }
}
