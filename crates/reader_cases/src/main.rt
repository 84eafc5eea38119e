// The readers on cases, one a line from standard input: `paper: BYTES` or `sheet: BYTES`. Prints a line for each: the refusal, or the counts
// of the task; for `answers of paper: BYTES` and `answers of sheet: BYTES` all that the task answers. A line of `#` is a comment.
#![tactic(auto)]

mod answers;
mod bytes;

use answers::{print_answers, print_counts};
use bytes::case_bytes;
use console::fault::ProgramFault;
use console::output::print_fault;
use forms::document::Document;
use forms::form::{RecordForm, SayingForm};
use paper::form::PaperForm;
use sheet::form::SheetForm;
use std::io;
use std::io::{BufRead, BufReader};

// Reads a document of some form and prints what is asked of it.
fn run<F: RecordForm + SayingForm, P: Fn(&HostRuntime, &Document<F>) -> io::Result<()>>(
    rt: &HostRuntime,
    bytes: &[u8],
    print: P,
) -> Result<(), ProgramFault>
    requires { P.IsAlwaysCallable print }
{
    let document = Document::<F>::read(rt.alloc(), bytes)?;
    Ok(print(rt, &document)?)
}

fn run_case(rt: &HostRuntime, line: &str) -> Result<(), ProgramFault> {
    let (form, digits) = line.split_once(':').ok_or(ProgramFault::Unreadable)?;
    let bytes = case_bytes(rt.alloc(), digits)?;
    match form {
        "paper" => run::<PaperForm, _>(rt, bytes.as_slice(), print_counts),
        "sheet" => run::<SheetForm, _>(rt, bytes.as_slice(), print_counts),
        "answers of paper" => run::<PaperForm, _>(rt, bytes.as_slice(), print_answers),
        "answers of sheet" => run::<SheetForm, _>(rt, bytes.as_slice(), print_answers),
        _ => Err(ProgramFault::Unreadable),
    }
}

fn main(rt: HostRuntime) -> io::Result<()> {
    for line in BufReader::new(rt.alloc(), rt.stdin())?.lines(rt.alloc()) {
        let line = line?;
        if line.is_empty() || line.starts_with('#') {
            continue;
        }
        if let Err(fault) = run_case(&rt, line.as_str()) {
            print_fault(&rt, &fault)?;
        }
    }
    Ok(())
}
