// Printing an account, or a refusal.
use crate::fault::ProgramFault;
use account::account::Account;
use std::io;

// Prints an account, a line for the counts and one for each fact.
pub fn print_account(rt: &HostRuntime, account: &Account) -> io::Result<()> {
    rt.println(account.counts)?;
    for level in account.levels.iter() {
        rt.println(*level)?;
    }
    Ok(())
}

// Prints a refusal, which is an answer; what is no refusal ends the program.
pub fn print_fault(rt: &HostRuntime, fault: &ProgramFault) -> io::Result<()> {
    match fault.line() {
        Some(line) => rt.println(line),
        None => {
            rt.eprintln("no answer: out of memory, or the input cannot be read")?;
            Err(io::Error::from(io::ErrorKind::Other))
        }
    }
}
