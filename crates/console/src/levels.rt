// The levels of a document on standard input.
ghost use Rattle.account.specs.Accounts.{AccountOf};
ghost use Rattle.forms.specs.Forms.{fault_of, task_by};
ghost use Rattle.forms.specs.Reading.{Accepted, Refused};
ghost use Rattle.records.specs.declared.fault.ReadFault.TheVariants.{Memory};
ghost use Rattle.std.specs.Prelude.{◌≡◌, ◌⊎◌, IfErr, IfOk};
ghost use Rattle.task.specs.Task.{Task};

use crate::fault::ProgramFault;
use crate::input::read_input;
use crate::output::{print_account, print_fault};
use account::account::Account;
use account::building::account_of;
use forms::document::Document;
use forms::form::{RecordForm, SayingForm};
use records::fault::ReadFault;
use std::alloc::Global;
use std::io;

// The account of the document that the bytes are, of any form.
fn levels_of<F: RecordForm + SayingForm>(heap: Global, bytes: &[u8]) -> Result<Account, ReadFault>
    ensures made { IfOk result (λ a. (t : Task) × Accepted (fault_of F.RecordForm.rules) (task_by F.RecordForm.rules) bytes.now t × AccountOf t a) }
    ensures refused { IfErr result (λ e. Refused (fault_of F.RecordForm.rules) bytes.now e ⊎ (e ≡ Memory)) }
{
    let document = Document::<F>::read(heap, bytes)?;
    Ok(account_of(heap, &document)?)
}

fn levels_of_input<F: RecordForm + SayingForm>(rt: &HostRuntime) -> Result<Account, ProgramFault> {
    let bytes = read_input(rt)?;
    Ok(levels_of::<F>(rt.alloc(), bytes.as_slice())?)
}

// Prints the level of every fact of the document on standard input, or why it is refused.
pub fn print_levels<F: RecordForm + SayingForm>(rt: &HostRuntime) -> io::Result<()> {
    match levels_of_input::<F>(rt) {
        Ok(account) => print_account(rt, &account),
        Err(fault) => print_fault(rt, &fault),
    }
}
