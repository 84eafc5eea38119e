// The calls on a key, and what they are answered.

// The kinds of orderings: the earlier fact holds just before the later one first holds, or before each action that achieves it.
#[derive(Clone, Copy, Debug, PartialEq, Eq)]
pub enum Kind {
    Greedy,
    Necessary,
}

// Propose a fact; order, by the number of a kind, an earlier and a later fact; begin anew; step by an action; report. The kind stands as
// the caller wrote it, since the rules answer a number of no kind too.
#[derive(Clone, Copy, Debug, PartialEq, Eq)]
pub enum Call {
    Propose(usize),
    Order(usize, usize, usize),
    Begin,
    Step(usize),
    Report,
}

// How a confirmed fact or ordering stands in the key, with its number: taken now, or there before.
#[derive(Clone, Copy, Debug, PartialEq, Eq)]
pub enum Mark {
    Accepted = 1,
    Known = 2,
}

// What is left of a sitting: at least so many steps, or no plan goes on from there.
#[derive(Clone, Copy, Debug, PartialEq, Eq)]
pub enum Remainder {
    AtLeast(u16),
    DeadEnd,
}

// Where a sitting stands: the steps taken, how many facts of the key they visit, and what is left.
#[derive(Clone, Copy, Debug, PartialEq, Eq)]
pub struct Standing {
    pub steps: u16,
    pub visited: u16,
    pub remainder: Remainder,
}

// Why a call is refused, with the number that is returned.
#[derive(Clone, Copy, Debug, PartialEq, Eq)]
pub enum Refusal {
    // The lowest goal fact out of reach.
    GoalOutOfReach(usize),
    // The number that no fact, or no kind of ordering, has.
    NoSuch(usize),
    // The proposed fact, which is no landmark.
    NoLandmark(usize),
    // The end of an ordering that the key does not hold, the earlier one first.
    OutsideKey(usize),
    // The later fact of an ordering, which holds at the start.
    LaterAtStart(usize),
    // The lowest achiever that counts and does not need the earlier fact.
    Unordered(usize),
    // The number of an action that is unknown or absent.
    NoAction(usize),
    // The lowest condition that does not hold.
    UnmetCondition(usize),
    // The action, where as many steps are taken as there may be.
    TooManySteps(usize),
}

// What a call is answered.
#[derive(Clone, Copy, Debug, PartialEq, Eq)]
pub enum Answer {
    Done,
    Marked(Mark),
    Reported(Standing),
    Refused(Refusal),
}
