// A document in memory, of any form of records.
ghost use Rattle.std.specs.Prelude.{IfOk, MatchResult};
ghost use Rattle.task.specs.Single.{KeptLawful, is_lawful};
ghost use Rattle.records.specs.Records.{records};
ghost use Rattle.lists.specs.Lists.{task_of};
ghost use Rattle.lists.specs.View.{lists_of};
ghost use Rattle.forms.specs.Forms.{fault_of, task_by};
ghost use Rattle.forms.specs.Reading.{Accepted, Refused};

use crate::form::{RecordForm, SayingForm};
use crate::reader::read_table;
use lists::table::Table;
use records::fault::ReadFault;
use std::alloc::Global;
use std::marker::PhantomData;
use task::task_source::TaskSource;

// The table of a lawful task, read from records of the form `F`.
#[derive(Drop)]
pub struct Document<F> {
    table: Table,
    form: PhantomData<F>,
    ghost lawful: { KeptLawful (task_of (lists_of table)) },
}

impl<F: RecordForm + SayingForm> Document<F> {
    // The document that the bytes are, or why they are refused.
    pub fn read(heap: Global, bytes: &[u8]) -> Result<Document<F>, ReadFault>
        ensures verdict { MatchResult result (λ d. Accepted (fault_of F.RecordForm.rules) (task_by F.RecordForm.rules) bytes.now (task_of (lists_of d.table))) (λ e. Refused (fault_of F.RecordForm.rules) bytes.now e) }
        ensures says { IfOk result (λ d. F.SayingForm.says (records bytes.now) (task_of (lists_of d.table))) }
    {
        let table = read_table::<F>(heap, bytes)?;
        Ok(Document {
            table,
            form: PhantomData,
        })
    }
}

// Passed on one by one, as in the layers of `task`: Rattle has no delegation, and an own macro may write no `impl`.
impl<F> TaskSource for Document<F> {
    ghost task = { λ s. task_of (lists_of s.table) };

    ghost lawful = { λ s. is_lawful (task_of (lists_of s.table)) s.lawful };

    fn variables(&self) -> usize {
        self.table.variables()
    }

    fn size(&self, variable: usize) -> usize {
        self.table.size(variable)
    }

    fn start(&self, variable: usize) -> usize {
        self.table.start(variable)
    }

    fn goal(&self, variable: usize) -> Option<usize> {
        self.table.goal(variable)
    }

    fn actions(&self) -> usize {
        self.table.actions()
    }

    fn is_present(&self, action: usize) -> bool {
        self.table.is_present(action)
    }

    fn need(&self, action: usize, variable: usize) -> Option<usize> {
        self.table.need(action, variable)
    }

    fn effect(&self, action: usize, variable: usize) -> Option<usize> {
        self.table.effect(action, variable)
    }
}
