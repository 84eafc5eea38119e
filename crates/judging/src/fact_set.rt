// Sets of facts, by their numbers.
ghost use Rattle.std.specs.Prelude.{◌≡◌, ℕ, ◌<◌, ◌≤◌, false, ◌||◌, ◌==◌};
ghost use Rattle.judging.specs.FactSets.{has};

// A mark for each number that a fact may have.
#[derive(Clone, Copy)]
pub struct FactSet {
    marks: [bool; 256],
}

impl From<[bool; 256]> for FactSet {
    ghost from_gives = { λ marks s. s.marks ≡ marks };

    fn from(given: [bool; 256]) -> FactSet {
        FactSet { marks: given }
    }
}

impl FactSet {
    // The set of no facts.
    pub fn empty() -> FactSet
        ensures { (n : ℕ) → has result n ≡ false }
    {
        FactSet {
            marks: [false; 256],
        }
    }

    // Whether the set has the fact with a number.
    pub fn contains(&self, number: usize) -> bool
        ensures { result ≡ has self.now number }
    {
        self.marks.get(number).copied().unwrap_or(false)
    }

    // Puts the fact with a number into the set; a number that no fact can have changes nothing.
    pub fn insert(&mut self, number: usize)
        ensures added { number < 256 → (n : ℕ) → has self.new n ≡ (has self.old n || (n == number)) }
        ensures ignored { 256 ≤ number → self.new ≡ self.old }
    {
        if number < self.marks.len() {
            self.marks[number] = true;
        }
    }
}
