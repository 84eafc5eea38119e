// What a table answers.
ghost use Rattle.std.specs.Prelude.{◌≡◌};
ghost use Rattle.lists.specs.Lists.{task_of, value_in};
ghost use Rattle.lists.specs.View.{lists_of, AtRow};

use crate::table::{Operator, Pair, Table};

// The value that the first pair on the variable has.
pub fn value_in(pairs: &[Pair], variable: usize) -> Option<usize>
    ensures { result ≡ value_in pairs.now variable }
{
    pairs
        .iter()
        .find(|pair| usize::from(pair.variable) == variable)
        .map(|pair| usize::from(pair.value))
}

impl Table {
    // How many variables there are.
    pub fn variables(&self) -> usize
        ensures { result ≡ (task_of (lists_of self.now)).vars }
    {
        self.variables.len()
    }

    // How many values a variable has, 0 past the last variable.
    pub fn size(&self, variable: usize) -> usize
        ensures { result ≡ (task_of (lists_of self.now)).size variable }
    {
        self.variables
            .get(variable)
            .map_or(0, |found| usize::from(found.size))
    }

    // The value of a variable at the start, 0 past the last variable.
    pub fn start(&self, variable: usize) -> usize
        ensures { result ≡ (task_of (lists_of self.now)).start variable }
    {
        self.variables
            .get(variable)
            .map_or(0, |found| usize::from(found.start))
    }

    // The goal value of a variable, if it has one.
    pub fn goal(&self, variable: usize) -> Option<usize>
        ensures { result ≡ (task_of (lists_of self.now)).goal variable }
    {
        value_in(self.goals.as_slice(), variable)
    }

    // How many actions there are.
    pub fn actions(&self) -> usize
        ensures { result ≡ (task_of (lists_of self.now)).actions }
    {
        self.operators.len()
    }

    // Whether there is such an action.
    pub fn is_present(&self, action: usize) -> bool
        ensures { result ≡ (task_of (lists_of self.now)).present action }
    {
        action < self.actions()
    }

    // The action of a number, if there is one.
    fn operator(&self, action: usize) -> Option<&Operator>
        ensures { AtRow result (lists_of self.now) action }
    {
        self.operators.get(action)
    }

    // The value that an action needs of a variable, if any.
    pub fn need(&self, action: usize, variable: usize) -> Option<usize>
        ensures { result ≡ (task_of (lists_of self.now)).need action variable }
    {
        let operator = self.operator(action)?;
        value_in(operator.conditions.as_slice(), variable)
    }

    // The value that an action gives a variable, if any; a delete gives way to an effect.
    pub fn effect(&self, action: usize, variable: usize) -> Option<usize>
        ensures { result ≡ (task_of (lists_of self.now)).give action variable }
    {
        let operator = self.operator(action)?;
        value_in(operator.effects.as_slice(), variable).or_else(|| value_in(
            operator.deletes.as_slice(),
            variable,
        ))
    }
}
