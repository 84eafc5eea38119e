// Reads a sheet on standard input and prints the level of every fact.
#![tactic(auto)]

use console::levels::print_levels;
use sheet::form::SheetForm;
use std::io;

fn main(rt: HostRuntime) -> io::Result<()> {
    print_levels::<SheetForm>(&rt)
}
