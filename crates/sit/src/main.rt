// A sitting: `sit PAPER` reads a paper from a file and calls from standard input, one a line, and prints an answer a line.
#![tactic(auto)]

mod held;

use console::fault::ProgramFault;
use console::input::read_file;
use console::output::print_fault;
use held::held_text;
use key::keys::Key;
use paper::paper::Paper;
use sitting::answers::AnswerText;
use sitting::parsing::parse_request;
use sitting::requests::Request;
use std::io::{BufRead, BufReader};
use std::{env, io};

// The file that is named on the command line; without a name there is no input.
fn paper_path(rt: &HostRuntime) -> Result<String, ProgramFault> {
    env::args(rt)?.nth(1).ok_or(ProgramFault::Unreadable)
}

// The request of a line; what is no text asks for nothing.
fn request_of(line: &[u8]) -> Option<Request> {
    std::str::from_utf8(line).ok().and_then(parse_request)
}

// Prints the answer to a line.
fn answer_line(rt: &HostRuntime, key: &mut Key, number: u64, line: &[u8]) -> io::Result<()> {
    match request_of(line) {
        Some(Request::Call(call)) => {
            let answer = key.answer(call);
            rt.println(AnswerText { answer })
        }
        Some(Request::Tally) => rt.println(key.tally()),
        Some(Request::Held) => rt.println(held_text(rt.alloc(), key)?),
        None => println!(rt; "malformed {number}"),
    }
}

// Answers each line of standard input.
fn follow(rt: &HostRuntime, key: &mut Key) -> io::Result<()> {
    let lines = BufReader::new(rt.alloc(), rt.stdin())?.split(rt.alloc(), b'\n');
    for (number, line) in (1u64..).zip(lines) {
        let bytes = line?;
        answer_line(rt, key, number, bytes.as_slice())?;
    }
    Ok(())
}

fn sit(rt: &HostRuntime) -> Result<(), ProgramFault> {
    let path = paper_path(rt)?;
    let bytes = read_file(rt, path.as_str())?;
    let paper = Paper::read(rt.alloc(), bytes.as_slice())?;
    let mut key = Key::open(rt.alloc(), &paper)?;
    follow(rt, &mut key)?;
    Ok(())
}

fn main(rt: HostRuntime) -> io::Result<()> {
    sit(&rt).or_else(|fault| print_fault(&rt, &fault))
}
