// Reads a paper on standard input and prints its key.
#![tactic(auto)]

use paper::form::PaperForm;
use printer::program::print_input_key;
use std::io;

fn main(rt: HostRuntime) -> io::Result<()> {
    print_input_key::<PaperForm>(&rt)
}
