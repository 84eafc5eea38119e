// A list of calls on a new key.
ghost use Rattle.key.specs.Replayed.{Replayed};
ghost use Rattle.std.specs.Prelude.{IfOk};

use crate::keys::Key;
use rules::calls::{Answer, Call};
use std::alloc::{AllocError, Global};
use task::task_source::TaskSource;

// A key after a list of calls, and their answers.
#[derive(Drop)]
pub struct Transcript {
    pub key: Key,
    pub answers: Vec<Answer>,
}

// Makes a list of calls on a new key; it fails only for want of memory.
pub fn replay<S: TaskSource>(
    heap: Global,
    source: &S,
    calls: &[Call],
) -> Result<Transcript, AllocError>
    ensures { IfOk result (λ p. Replayed (S.task source.now) calls.now p.answers.items p.key) }
{
    let mut key = Key::open(heap, source)?;
    let mut answers = Vec::new(heap);
    for call in calls {
        answers.push(key.answer(*call))?;
    }
    Ok(Transcript { key, answers })
}
