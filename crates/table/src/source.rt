// A table is a source.
ghost use Rattle.std.specs.Prelude.{◌≡◌, slice_index_or};
ghost use Rattle.table.specs.Meaning.{held};
ghost use Rattle.table.specs.Table.{no_variable};
ghost use Rattle.task.specs.Single.{is_lawful};

use crate::task_table::TaskTable;
use crate::variable::Variable;
use task::task_source::TaskSource;

impl TaskTable {
    // A variable, or one without values past the last.
    fn variable_at(&self, variable: usize) -> Variable
        ensures { result ≡ slice_index_or self.now.variables.items variable no_variable }
    {
        self.variables.get(variable).copied().unwrap_or_default()
    }
}

impl TaskSource for TaskTable {
    ghost task = { held };

    ghost lawful = { λ s. is_lawful (held s) s.lawful };

    fn variables(&self) -> usize {
        self.variables.len()
    }

    fn size(&self, variable: usize) -> usize {
        usize::from(self.variable_at(variable).size)
    }

    fn start(&self, variable: usize) -> usize {
        usize::from(self.variable_at(variable).start)
    }

    fn goal(&self, variable: usize) -> Option<usize> {
        self.variable_at(variable).goal.map(usize::from)
    }

    fn actions(&self) -> usize {
        self.actions.len()
    }

    fn is_present(&self, action: usize) -> bool {
        self.actions
            .get(action)
            .is_some_and(|action| action.present)
    }

    fn need(&self, action: usize, variable: usize) -> Option<usize> {
        let value = self.actions.get(action)?.needs.get(variable)?;
        value.map(usize::from)
    }

    fn effect(&self, action: usize, variable: usize) -> Option<usize> {
        let value = self.actions.get(action)?.effects.get(variable)?;
        value.map(usize::from)
    }
}
