// Going through the lines of a key.
ghost use Rattle.std.specs.Prelude.{◌≡◌, ℕ, ◌<◌, ◌≤◌, Some, None};
ghost use Rattle.key.specs.Keys.{Shows, task_of};
ghost use Rattle.lines.specs.declared.line.Line.{Line as KeyLine};
ghost use Rattle.key_text.specs.Cursors.{Passed, Stands, unlisted};
ghost use Rattle.listing.specs.Listing.{OrderedAt};
ghost use Rattle.rules.specs.Machine.{Machine};

use key::keys::Key;
use lines::line::Line;
use listing::fact::fact_line;
use listing::pair::Pair;
use reach::tables::LevelTable;
use task::facts::count_facts;

// Where a listing stands: the levels of the key's task, the lowest fact and the first place of a pair that are still to come.
#[derive(Drop)]
pub struct Cursor {
    levels: LevelTable,
    fact: usize,
    place: usize,
}

// The place of the key's first ordered pair from a place on. It goes row by row, one earlier fact at a time.
fn next_pair(key: &Key, from: usize) -> Option<usize>
    ensures within { (n : ℕ) → result ≡ Some n → (from ≤ n) × (n < 65536) }
    ensures first { (m : Machine) (n : ℕ) → Shows key.now m → result ≡ Some n → OrderedAt m n × ((k : ℕ) → from ≤ k → k < n → OrderedAt m k → ⊥) }
    ensures none { (m : Machine) (k : ℕ) → Shows key.now m → result ≡ None → from ≤ k → k < 65536 → OrderedAt m k → ⊥ }
{
    for earlier in from / 256..256 {
        let row = earlier * 256;
        let start = from.saturating_sub(row);
        let is_ordered = |later: &usize| Pair {
            earlier,
            later: *later,
        }
        .is_ordered(key);
        if let Some(later) = (start..256).find(is_ordered) {
            return Some(row + later);
        }
    }
    None
}

impl Cursor {
    // A cursor before the first line of a key.
    pub fn start(key: &Key) -> Cursor
        ensures { (m : Machine) → Shows key.now m → Stands (task_of key.now) m result 0 }
    {
        Cursor {
            levels: LevelTable::of(key.source()),
            fact: 0,
            place: 0,
        }
    }

    // The next line of the key in whose lines the cursor stands, and moves it on: `None` behind the last line.
    pub fn next_line(&mut self, key: &Key) -> Option<Line>
        ensures passed { (m : Machine) (n : ℕ) → Shows key.now m → Stands (task_of key.now) m self.old n → Passed (task_of key.now) m n self.new result }
        ensures fewer { (x : KeyLine) → result ≡ Some x → unlisted (task_of key.now) self.new < unlisted (task_of key.now) self.old }
    {
        let facts = count_facts(key.source());
        if let Some(fact) = (self.fact..facts).find(|number| key.holds(*number)) {
            self.fact = fact + 1;
            let line = fact_line(key, &self.levels, fact).unwrap();
            return Some(Line::Fact(line));
        }
        self.fact = facts;
        let place = next_pair(key, self.place)?;
        self.place = place + 1;
        let order = Pair::at(place).line(key).unwrap();
        Some(Line::Order(order))
    }
}
