// What a line can ask for.
use rules::calls::Call;

// A call on the key, the tally, or what the key holds.
#[derive(Clone, Copy, Debug, PartialEq, Eq)]
pub enum Request {
    Call(Call),
    Tally,
    Held,
}

// The first word of a line.
#[derive(Clone, Copy)]
pub(crate) enum Command {
    Propose,
    Order,
    Begin,
    Step,
    Report,
    Tally,
    Held,
}
