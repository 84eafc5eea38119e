// Reads a request from a line.
ghost use Rattle.sitting.specs.Lines.{Numbers};
ghost use Rattle.sitting.specs.Requests.{Means, command, numbers, word_of};
ghost use Rattle.task.specs.Facts.{Exactly};
ghost use Rattle.std.specs.Prelude.{◌≡◌, []};

use crate::numbers::{is_done, one_number, three_numbers};
use crate::requests::{Command, Request};
use crate::words::next_word;
use rules::calls::Call;

// The command that a word names; no `TryFrom`, which would need an error where `None` says all.
fn parse_command(word: &[u8]) -> Option<Command>
    ensures { Exactly (λ x. word.now ≡ word_of x) result }
{
    match word {
        b"propose" => Some(Command::Propose),
        b"order" => Some(Command::Order),
        b"begin" => Some(Command::Begin),
        b"step" => Some(Command::Step),
        b"report" => Some(Command::Report),
        b"tally" => Some(Command::Tally),
        b"held" => Some(Command::Held),
        _ => None,
    }
}

// The request, where no word follows.
fn without_numbers(request: Request, rest: &[u8]) -> Option<Request>
    ensures { Exactly (λ q. (q ≡ request) × Numbers rest.now []) result }
{
    is_done(rest).then_some(request)
}

// The request of a command with the numbers that follow it.
fn parse_numbers(name: Command, rest: &[u8]) -> Option<Request>
    ensures { Exactly (λ q. (command q ≡ name) × Numbers rest.now (numbers q)) result }
{
    match name {
        Command::Propose => one_number(rest).map(Call::Propose).map(Request::Call),
        Command::Order => three_numbers(rest)
            .map(|(kind, earlier, later)| Call::Order(kind, earlier, later))
            .map(Request::Call),
        Command::Begin => without_numbers(Request::Call(Call::Begin), rest),
        Command::Step => one_number(rest).map(Call::Step).map(Request::Call),
        Command::Report => without_numbers(Request::Call(Call::Report), rest),
        Command::Tally => without_numbers(Request::Tally, rest),
        Command::Held => without_numbers(Request::Held, rest),
    }
}

// The request that a line means, or `None` where it means none. A line is the word of a command and the numbers that it takes, parted by
// spaces or carriage returns, which may stand at both ends too. A number is of decimal digits, and one above the largest counts as that.
// It is no `FromStr`, since there is no more to say of a line that means nothing.
pub fn parse_request(line: &str) -> Option<Request>
    ensures { Exactly (Means line.now) result }
{
    let (word, rest) = next_word(line.as_bytes())?;
    let name = parse_command(word)?;
    parse_numbers(name, rest)
}
