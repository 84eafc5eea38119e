// Copies a task into a table.
ghost use Rattle.std.specs.List.{range_with_len};
ghost use Rattle.std.specs.Prelude.{◌≡◌, ℕ, ◌<◌, IfOk, None, Some, map, slice_index_or};
ghost use Rattle.table.specs.Meaning.{held};
ghost use Rattle.table.specs.Table.{action_of, variable_of};

use crate::action::{Action, PLACES};
use crate::task_table::TaskTable;
use crate::variable::Variable;
use std::alloc::{AllocError, Global};
use task::task_source::TaskSource;

// The same value in one byte.
fn narrow(value: Option<usize>) -> Option<u8>
    requires { (x : ℕ) → value ≡ Some x → x < 256 }
    ensures { result ≡ value }
{
    value.map(|x| x as u8)
}

// The values that are answered for each variable that there may be.
fn copy_values<F: Fn(usize) -> Option<usize>>(answer: F) -> [Option<u8>; PLACES]
    requires callable { F.IsAlwaysCallable answer }
    requires small { (v x : ℕ) → v < 64 → F.post answer v (Some x) → x < 256 }
    ensures { (v : ℕ) → v < 64 → F.post answer v (slice_index_or result v None) }
{
    // Not by `array::from_fn`, whose closure would need a proof of its own that says what `answer` gave.
    let mut values = [None; PLACES];
    for (variable, value) in values.iter_mut().enumerate() {
        *value = narrow(answer(variable));
    }
    values
}

// What the source answers of one variable.
fn copy_variable<S: TaskSource>(source: &S, variable: usize) -> Variable
    ensures { result ≡ variable_of (S.task source.now) variable }
{
    Variable {
        size: source.size(variable) as u8,
        start: source.start(variable) as u8,
        goal: narrow(source.goal(variable)),
    }
}

// What the source answers of one action.
fn copy_action<S: TaskSource>(source: &S, action: usize) -> Action
    ensures { result ≡ action_of (S.task source.now) action }
{
    Action {
        present: source.is_present(action),
        needs: copy_values(|variable| source.need(action, variable)),
        effects: copy_values(|variable| source.effect(action, variable)),
    }
}

// What the source answers of every variable.
fn copy_variables<S: TaskSource>(heap: Global, source: &S) -> Result<Vec<Variable>, AllocError>
    ensures { IfOk result (λ vs. vs.items ≡ map (variable_of (S.task source.now)) (range_with_len 0 (S.task source.now).vars)) }
{
    (0..source.variables())
        .map(|variable| copy_variable(source, variable))
        .collect(heap)
}

// What the source answers of every action.
fn copy_actions<S: TaskSource>(heap: Global, source: &S) -> Result<Vec<Action>, AllocError>
    ensures { IfOk result (λ xs. xs.items ≡ map (action_of (S.task source.now)) (range_with_len 0 (S.task source.now).actions)) }
{
    (0..source.actions())
        .map(|action| copy_action(source, action))
        .collect(heap)
}

impl TaskTable {
    // A table that holds the source's task; it fails only for want of memory.
    pub fn copy<S: TaskSource>(heap: Global, source: &S) -> Result<TaskTable, AllocError>
        ensures { IfOk result (λ table. held table ≡ S.task source.now) }
    {
        let variables = copy_variables(heap, source)?;
        let actions = copy_actions(heap, source)?;
        Ok(TaskTable { variables, actions })
    }
}
