// Reads a paper on standard input and prints the level of every fact.
#![tactic(auto)]

use console::levels::print_levels;
use paper::form::PaperForm;
use std::io;

fn main(rt: HostRuntime) -> io::Result<()> {
    print_levels::<PaperForm>(&rt)
}
