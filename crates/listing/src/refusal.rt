// Why a line is not listed.
ghost use Rattle.listing.specs.Refusals.{given_back, refusal_number};
ghost use Rattle.std.specs.Prelude.{◌≡◌};

// The lowest goal fact out of reach; the length of a buffer that is too short; the number of lines, where there are no more.
#[derive(Clone, Copy, Debug, PartialEq, Eq)]
pub enum ListingRefusal {
    GoalOutOfReach(usize),
    ShortBuffer(usize),
    NoSuchLine(usize),
}

impl ListingRefusal {
    // The number of a refusal; by a match, since a cast reads no variant that holds a value.
    pub fn number(self) -> u8
        ensures { result ≡ refusal_number self }
    {
        match self {
            ListingRefusal::GoalOutOfReach(_) => 7,
            ListingRefusal::ShortBuffer(_) => 16,
            ListingRefusal::NoSuchLine(_) => 17,
        }
    }

    // What a refusal returns.
    pub fn returned(self) -> usize
        ensures { result ≡ given_back self }
    {
        match self {
            ListingRefusal::GoalOutOfReach(n)
            | ListingRefusal::ShortBuffer(n)
            | ListingRefusal::NoSuchLine(n) => n,
        }
    }
}
