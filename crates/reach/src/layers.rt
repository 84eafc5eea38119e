// The layers of a task under a measure.
ghost use Rattle.reach.specs.Built.{LayersBuilt, TooShort};
ghost use Rattle.reach.specs.Layering.{Closed, layer, next as after};
ghost use Rattle.reach.specs.Working.{acted};
ghost use Rattle.std.specs.Prelude.{◌≡◌, length, MatchOption};
ghost use Rattle.task.specs.Task.{facts};

use crate::conditions::join_conditions;
use crate::effects::offer;
use crate::measure::Measure;
use crate::start::first_layer;
use task::facts::count_facts;
use task::task_source::TaskSource;

// The length of a table stands in each contract here: a struct with that fact would be made anew for each slice that is lent.

// Offers what each present action makes of `values` to its effects.
fn act<S: TaskSource, M: Measure>(source: &S, values: &[M], next: &mut [M])
    requires { (length values.now ≡ facts (S.task source.now)) × (next.old ≡ values.now) }
    ensures { next.new ≡ acted M.ops (S.task source.now) values.now (S.task source.now).actions }
{
    for action in 0..source.actions() {
        if source.is_present(action) {
            let value = join_conditions(source, values, action).stepped();
            offer(source, action, value, next);
        }
    }
}

// Computes the layer after `values`.
fn next_layer<S: TaskSource, M: Measure>(source: &S, values: &[M], next: &mut [M])
    requires { (length values.now ≡ facts (S.task source.now)) × (length next.old ≡ facts (S.task source.now)) }
    ensures { next.new ≡ after M.ops (S.task source.now) values.now }
{
    next.copy_from_slice(values);
    act(source, values, next);
}

// Fills both tables with the layer that equals its next, and says how many layers there are before it.
fn run_layers<S: TaskSource, M: Measure>(source: &S, values: &mut [M], scratch: &mut [M]) -> usize
    requires values { length values.old ≡ facts (S.task source.now) }
    requires scratch { length scratch.old ≡ facts (S.task source.now) }
    ensures values { values.new ≡ layer M.ops (S.task source.now) result }
    ensures scratch { scratch.new ≡ layer M.ops (S.task source.now) result }
    ensures closed { Closed M.ops (S.task source.now) result }
{
    first_layer(source, values);
    // A count and no index: the loop ends where a layer stays, which no range says beforehand.
    let mut layers = 0;
    loop {
        next_layer(source, values, scratch);
        if &*values == &*scratch {
            return layers;
        }
        values.copy_from_slice(scratch);
        layers += 1;
    }
}

// Fills the front of both tables with the layer that equals its next, a value for each fact by its number, and answers how many layers
// there are before it. Answers `None` where a table is shorter than the facts, and changes neither then.
pub fn build_layers<S: TaskSource, M: Measure>(
    source: &S,
    values: &mut [M],
    scratch: &mut [M],
) -> Option<usize>
    ensures { MatchOption result (TooShort (S.task source.now) values.old scratch.old values.new scratch.new) (λ n. LayersBuilt M.ops (S.task source.now) n values.old scratch.old values.new scratch.new) }
{
    let count = count_facts(source);
    if values.len() < count || scratch.len() < count {
        return None;
    }
    let front = &mut values[0..count];
    let other = &mut scratch[0..count];
    Some(run_layers(source, front, other))
}
