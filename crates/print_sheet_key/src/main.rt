// Reads a sheet on standard input and prints its key.
#![tactic(auto)]

use printer::program::print_input_key;
use sheet::form::SheetForm;
use std::io;

fn main(rt: HostRuntime) -> io::Result<()> {
    print_input_key::<SheetForm>(&rt)
}
