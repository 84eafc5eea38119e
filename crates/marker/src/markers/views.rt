// What can be seen of a marker.
ghost use Rattle.marker.specs.Shows.{Shows};
ghost use Rattle.rules.specs.Machine.{Machine, position};
ghost use Rattle.std.specs.Prelude.{◌≡◌};

use super::Marker;
use rules::calls::Kind;
use task::task_source::TaskSource;

impl<S: TaskSource> Marker<S> {
    // Whether the key has the fact with a number.
    pub fn holds(&self, number: usize) -> bool
        ensures { (m : Machine) → Shows (S.task self.now.source) self.now m → result ≡ m.held number }
    {
        self.held.contains(number)
    }

    // Whether the key has an ordering of two facts by their numbers.
    pub fn is_ordered(&self, kind: Kind, earlier: usize, later: usize) -> bool
        ensures { (m : Machine) → Shows (S.task self.now.source) self.now m → result ≡ m.ordered kind earlier later }
    {
        self.orderings.contains(kind, earlier, later)
    }

    // The value of a variable in the state that the sitting has reached, 0 past the last variable.
    pub fn value(&self, variable: usize) -> usize
        ensures { (m : Machine) → Shows (S.task self.now.source) self.now m → result ≡ position (S.task self.now.source) m variable }
    {
        self.sitting.position.value(variable)
    }

    // How many proposals and orderings were not confirmed, 65535 for more.
    pub fn tally(&self) -> u16
        ensures { result ≡ self.now.tally }
    {
        self.tally
    }
}
