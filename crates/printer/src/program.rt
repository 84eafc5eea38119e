// The key of a document on standard input. In shape like the levels of `console`: one function for both would take what is made and how
// it is printed as closures, and could not promise what is made.
ghost use Rattle.driver.specs.Marking.{MarkedKey};
ghost use Rattle.forms.specs.Forms.{fault_of, task_by};
ghost use Rattle.forms.specs.Reading.{Accepted, Refused};
ghost use Rattle.records.specs.declared.fault.ReadFault.TheVariants.{Memory};
ghost use Rattle.std.specs.Prelude.{◌≡◌, ◌⊎◌, IfErr, IfOk};
ghost use Rattle.task.specs.Task.{Task};

use crate::print::print_key;
use console::fault::ProgramFault;
use console::input::read_input;
use console::output::print_fault;
use driver::marked::marked_key;
use forms::document::Document;
use forms::form::{RecordForm, SayingForm};
use key::keys::Key;
use records::fault::ReadFault;
use std::alloc::Global;
use std::io;

// The marked key of the document that the bytes are, of any form.
fn key_of<F: RecordForm + SayingForm>(heap: Global, bytes: &[u8]) -> Result<Key, ReadFault>
    ensures made { IfOk result (λ k. (t : Task) × Accepted (fault_of F.RecordForm.rules) (task_by F.RecordForm.rules) bytes.now t × MarkedKey t k) }
    ensures refused { IfErr result (λ e. Refused (fault_of F.RecordForm.rules) bytes.now e ⊎ (e ≡ Memory)) }
{
    let document = Document::<F>::read(heap, bytes)?;
    Ok(marked_key(heap, &document)?)
}

fn key_of_input<F: RecordForm + SayingForm>(rt: &HostRuntime) -> Result<Key, ProgramFault> {
    let bytes = read_input(rt)?;
    Ok(key_of::<F>(rt.alloc(), bytes.as_slice())?)
}

// Prints the key of the document on standard input, or why it is refused.
pub fn print_input_key<F: RecordForm + SayingForm>(rt: &HostRuntime) -> io::Result<()> {
    match key_of_input::<F>(rt) {
        Ok(key) => print_key(rt, &key),
        Err(fault) => print_fault(rt, &fault),
    }
}
