// The calls on a key. None allocates, so none can fail but by the rules.
ghost use Rattle.key.specs.Keys.{Answered};
ghost use Rattle.rules.specs.Results.{acted, marked, reported};
ghost use Rattle.rules.specs.declared.calls.Call.TheVariants.{Begin, Order, Propose, Report, Step};

use super::Key;
use rules::calls::{Answer, Call, Mark, Refusal, Standing};

impl Key {
    // Takes the fact with a number into the key if it is a landmark.
    pub fn propose(&mut self, number: usize) -> Result<Mark, Refusal>
        ensures { Answered self.old (Propose number) (marked result) self.new }
    {
        self.marker.propose(number)
    }

    // Takes an ordering, by the number of its kind, of two facts of the key if all achievers of the later one that count need the
    // earlier one. The kind comes by its number, since a number that no kind has is refused.
    pub fn order(&mut self, kind: usize, earlier: usize, later: usize) -> Result<Mark, Refusal>
        ensures { Answered self.old (Order kind earlier later) (marked result) self.new }
    {
        self.marker.order(kind, earlier, later)
    }

    // Puts the sitting back at the start.
    pub fn begin(&mut self) -> Result<(), Refusal>
        ensures { Answered self.old Begin (acted result) self.new }
    {
        self.marker.begin()
    }

    // Takes an action.
    pub fn step(&mut self, action: usize) -> Result<(), Refusal>
        ensures { Answered self.old (Step action) (acted result) self.new }
    {
        self.marker.step(action)
    }

    // Says where the sitting stands.
    pub fn report(&self) -> Result<Standing, Refusal>
        ensures { Answered self.now Report (reported result) self.now }
    {
        self.marker.report()
    }

    // Answers any call.
    pub fn answer(&mut self, call: Call) -> Answer
        ensures { Answered self.old call result self.new }
    {
        self.marker.answer(call)
    }
}
