// What an action makes of its effects.
ghost use Rattle.std.specs.Prelude.{◌≡◌, ◌<◌, length, slice_index_or, slice_set};
ghost use Rattle.reach.specs.Working.{offered};
ghost use Rattle.task.specs.Task.{facts};

use crate::measure::Measure;
use task::task_source::TaskSource;

// Puts the better of the two values in the place of the value at an index: one write, which the loop below is proved by.
fn improve<M: Measure>(values: &mut [M], index: usize, value: M)
    requires { index < length values.old }
    ensures { values.new ≡ slice_set values.old index (M.ops.better (slice_index_or values.old index M.ops.none) value) }
{
    let old = values[index];
    values[index] = old.better_of(value);
}

// Offers a value to the effects of an action.
pub(crate) fn offer<S: TaskSource, M: Measure>(source: &S, action: usize, value: M, next: &mut [M])
    requires { length next.old ≡ facts (S.task source.now) }
    ensures { next.new ≡ offered M.ops (S.task source.now) action value next.old (S.task source.now).vars }
{
    // The offset runs along: tried with `source.offset` here and in the other loop of this kind, a key of 128 facts took 1.7 times as long.
    let mut offset = 0;
    for variable in 0..source.variables() {
        if let Some(effect) = source.effect(action, variable) {
            improve(next, offset + effect, value);
        }
        offset += source.size(variable);
    }
}
