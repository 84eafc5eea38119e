// A task held in tables.
ghost use Rattle.table.specs.Table.{table_task};
ghost use Rattle.task.specs.Single.{KeptLawful};

use crate::action::Action;
use crate::variable::Variable;

// Holds each variable and each action.
#[derive(Drop)]
pub struct TaskTable {
    pub(crate) variables: Vec<Variable>,
    pub(crate) actions: Vec<Action>,
    ghost lawful: { KeptLawful (table_task variables.items actions.items) },
}
