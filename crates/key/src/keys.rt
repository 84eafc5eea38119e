// A key, with its own copy of the task.
ghost use Rattle.key.specs.Led.{Led};

use marker::markers::Marker;
use table::task_table::TaskTable;

// A marker to which some list of calls led from an empty key. Its calls and views are passed on one by one: Rattle has no delegation.
#[derive(Drop)]
pub struct Key {
    marker: Marker<TaskTable>,
    ghost led: { Led marker },
}

mod calls;
mod known;
mod opening;
mod views;
