// What an action's conditions are worth together.
ghost use Rattle.std.specs.Prelude.{◌≡◌, ◌≤◌, length};
ghost use Rattle.reach.specs.Layering.{conditions as together, value_of};
ghost use Rattle.task.specs.Task.{facts};

use crate::measure::Measure;
use task::task_source::TaskSource;

// The joined values of an action's conditions on the variables below `end`.
fn join_below<S: TaskSource, M: Measure>(source: &S, values: &[M], action: usize, end: usize) -> M
    requires long { length values.now ≡ facts (S.task source.now) }
    requires few { end ≤ (S.task source.now).vars }
    ensures { result ≡ together M.ops (S.task source.now) (value_of M.ops (S.task source.now) values.now) action end }
{
    let mut joined = M::unconditional();
    // The offset runs along: tried with `source.offset` here and in the other loop of this kind, a key of 128 facts took 1.7 times as long.
    let mut offset = 0;
    for variable in 0..end {
        if let Some(value) = source.need(action, variable) {
            joined = joined.joined(values[offset + value]);
        }
        offset += source.size(variable);
    }
    joined
}

// The joined values of an action's conditions.
pub(crate) fn join_conditions<S: TaskSource, M: Measure>(
    source: &S,
    values: &[M],
    action: usize,
) -> M
    requires { length values.now ≡ facts (S.task source.now) }
    ensures { result ≡ together M.ops (S.task source.now) (value_of M.ops (S.task source.now) values.now) action (S.task source.now).vars }
{
    join_below(source, values, action, source.variables())
}
