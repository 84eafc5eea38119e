// The layer of the start facts.
ghost use Rattle.std.specs.Prelude.{◌≡◌, ℕ, ◌<◌, length, slice_index_or, slice_set};
ghost use Rattle.reach.specs.Layering.{layer};
ghost use Rattle.reach.specs.Working.{started};
ghost use Rattle.task.specs.Task.{facts};

use crate::measure::Measure;
use task::task_source::TaskSource;

// Sets every value to that of a fact out of reach.
fn clear<M: Measure>(values: &mut [M])
    ensures { (k : ℕ) → k < length values.new → slice_index_or values.new k M.ops.none ≡ M.ops.none }
{
    // `fill` asks for a `clone` that cannot fail, which a measure's bounds do not say.
    for value in values.iter_mut() {
        *value = M::unreached();
    }
}

// Sets the value at an index: one write, which the loop below is proved by.
fn put<M: Measure>(values: &mut [M], index: usize, value: M)
    requires { index < length values.old }
    ensures { values.new ≡ slice_set values.old index value }
{
    values[index] = value;
}

// Gives the start facts their value.
fn mark_start<S: TaskSource, M: Measure>(source: &S, values: &mut [M])
    requires { length values.old ≡ facts (S.task source.now) }
    ensures { values.new ≡ started M.ops (S.task source.now) values.old (S.task source.now).vars }
{
    // The offset runs along, as in the two other loops of this kind: `source.offset` goes over the variables anew.
    let mut offset = 0;
    for variable in 0..source.variables() {
        put(values, offset + source.start(variable), M::at_start());
        offset += source.size(variable);
    }
}

// Computes the layer of the start facts.
pub(crate) fn first_layer<S: TaskSource, M: Measure>(source: &S, values: &mut [M])
    requires { length values.old ≡ facts (S.task source.now) }
    ensures { values.new ≡ layer M.ops (S.task source.now) 0 }
{
    clear(values);
    mark_start(source, values);
}
