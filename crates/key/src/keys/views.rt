// What can be seen of a key.
ghost use Rattle.key.specs.Keys.{Shows, tally_of, task_of};
ghost use Rattle.rules.specs.Machine.{Machine, position};
ghost use Rattle.std.specs.Prelude.{◌≡◌};

use super::Key;
use rules::calls::Kind;

impl Key {
    // Whether the key has the fact with a number.
    pub fn holds(&self, number: usize) -> bool
        ensures { (m : Machine) → Shows self.now m → result ≡ m.held number }
    {
        self.marker.holds(number)
    }

    // Whether the key has an ordering of two facts by their numbers.
    pub fn is_ordered(&self, kind: Kind, earlier: usize, later: usize) -> bool
        ensures { (m : Machine) → Shows self.now m → result ≡ m.ordered kind earlier later }
    {
        self.marker.is_ordered(kind, earlier, later)
    }

    // The value of a variable in the state that the sitting has reached, 0 past the last variable.
    pub fn value(&self, variable: usize) -> usize
        ensures { (m : Machine) → Shows self.now m → result ≡ position (task_of self.now) m variable }
    {
        self.marker.value(variable)
    }

    // How many proposals and orderings were not confirmed, 65535 for more.
    pub fn tally(&self) -> u16
        ensures { result ≡ tally_of self.now }
    {
        self.marker.tally()
    }
}
