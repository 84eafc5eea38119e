// An account of a task, and how it is written.
ghost use Rattle.account.specs.Lines.{counts_line, level_line};
ghost use Rattle.std.specs.Prelude.{Some};

use std::fmt;
use task::facts::Fact;

// A fact with its number and the first layer that has it, if any.
#[derive(Clone, Copy)]
pub struct FactLevel {
    pub number: usize,
    pub fact: Fact,
    pub level: Option<u16>,
}

// How many variables, facts, actions and layers a task has.
#[derive(Clone, Copy)]
pub struct Counts {
    pub variables: usize,
    pub facts: usize,
    pub actions: usize,
    pub layers: usize,
}

// The counts of a task, and its facts upwards.
#[derive(Drop)]
pub struct Account {
    pub counts: Counts,
    pub levels: Vec<FactLevel>,
}

impl fmt::Display for FactLevel {
    ghost output = { λ x. Some (level_line x) };

    fn fmt<W: fmt::Write>(&self, f: &mut fmt::Formatter<W>) -> fmt::Result {
        let number = self.number;
        let variable = self.fact.variable;
        let value = self.fact.value;
        match self.level {
            Some(level) => write!(
                f,
                "fact {number}: variable {variable} is {value}, level {level}"
            ),
            None => write!(
                f,
                "fact {number}: variable {variable} is {value}, out of reach"
            ),
        }
    }
}

impl fmt::Display for Counts {
    ghost output = { λ x. Some (counts_line x) };

    fn fmt<W: fmt::Write>(&self, f: &mut fmt::Formatter<W>) -> fmt::Result {
        let variables = self.variables;
        let facts = self.facts;
        let actions = self.actions;
        let layers = self.layers;
        write!(
            f,
            "variables {variables}, facts {facts}, actions {actions}, layers {layers}"
        )
    }
}
