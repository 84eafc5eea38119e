// Ordered pairs of facts.
ghost use Rattle.std.specs.Prelude.{◌≡◌, ◌/◌, ◌%◌, ◌<◌, ◌≤◌, ◌⊎◌, Decides, MatchOption};
ghost use Rattle.key.specs.Keys.{Shows};
ghost use Rattle.listing.specs.Listing.{InAnyKind, shown_kind};
ghost use Rattle.rules.specs.Machine.{Machine};

use key::keys::Key;
use lines::line::OrderLine;
use rules::calls::Kind;

// How many places of pairs there are: 256 facts at most, each before each.
pub const PLACES: usize = 65536;

// Two facts by their numbers, the earlier one first.
#[derive(Clone, Copy, Debug, PartialEq, Eq)]
pub struct Pair {
    pub earlier: usize,
    pub later: usize,
}

impl Pair {
    // The pair at a place, where pairs go by the earlier fact and then by the later one.
    pub fn at(place: usize) -> Pair
        ensures earlier { result.earlier ≡ place / 256 }
        ensures later { result.later ≡ place % 256 }
    {
        Pair {
            earlier: place / 256,
            later: place % 256,
        }
    }

    // Whether a key has the pair ordered, in any kind.
    pub fn is_ordered(self, key: &Key) -> bool
        ensures { (m : Machine) → Shows key.now m → Decides result (InAnyKind m self.earlier self.later) }
    {
        key.is_ordered(Kind::Greedy, self.earlier, self.later)
            | key.is_ordered(Kind::Necessary, self.earlier, self.later)
    }

    // The line of the pair, necessary where the key has it so: `None` where a number is past those that facts may have.
    pub fn line(self, key: &Key) -> Option<OrderLine>
        ensures { MatchOption result ((256 ≤ self.earlier) ⊎ (256 ≤ self.later)) (λ x. (x.earlier ≡ self.earlier) × (x.later ≡ self.later) × ((m : Machine) → Shows key.now m → x.kind ≡ shown_kind m self.earlier self.later) × (self.earlier < 256) × (self.later < 256)) }
    {
        if self.earlier >= 256 || self.later >= 256 {
            return None;
        }
        let kind = if key.is_ordered(Kind::Necessary, self.earlier, self.later) {
            Kind::Necessary
        } else {
            Kind::Greedy
        };
        Some(OrderLine {
            kind,
            earlier: self.earlier as u16,
            later: self.later as u16,
        })
    }
}
