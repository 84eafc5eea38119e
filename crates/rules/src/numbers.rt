// The numbers that go with answers and refusals.
ghost use Rattle.rules.specs.Refusals.{mark_number, refusal_number, returned as given_back};
ghost use Rattle.std.specs.Prelude.{◌≡◌};

use crate::calls::{Mark, Refusal};

impl Mark {
    // The number of a mark.
    pub fn number(self) -> u8
        ensures { result ≡ mark_number self }
    {
        self as u8
    }
}

impl Refusal {
    // The number of a refusal, by a `match`: variants that hold a value have no discriminants to cast.
    pub fn number(self) -> u8
        ensures { result ≡ refusal_number self }
    {
        match self {
            Refusal::GoalOutOfReach(_) => 7,
            Refusal::NoSuch(_) => 8,
            Refusal::NoLandmark(_) => 9,
            Refusal::OutsideKey(_) => 10,
            Refusal::LaterAtStart(_) => 11,
            Refusal::Unordered(_) => 12,
            Refusal::NoAction(_) => 13,
            Refusal::UnmetCondition(_) => 14,
            Refusal::TooManySteps(_) => 15,
        }
    }

    // What a refusal returns.
    pub fn returned(self) -> usize
        ensures { result ≡ given_back self }
    {
        match self {
            Refusal::GoalOutOfReach(n)
            | Refusal::NoSuch(n)
            | Refusal::NoLandmark(n)
            | Refusal::OutsideKey(n)
            | Refusal::LaterAtStart(n)
            | Refusal::Unordered(n)
            | Refusal::NoAction(n)
            | Refusal::UnmetCondition(n)
            | Refusal::TooManySteps(n) => n,
        }
    }
}
