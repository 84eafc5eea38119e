// A task as it is kept, and how it grows.
ghost use Rattle.std.specs.Prelude.{◌≡◌, OnOk};
ghost use Rattle.std.specs.Fn.{FnOnceReturnsAtMut};
ghost use Rattle.lists.specs.Lists.{blank};
ghost use Rattle.lists.specs.Puts.{put};
ghost use Rattle.lists.specs.View.{lists_of, AtLast, LastChanged};
ghost use Rattle.records.specs.declared.record.Kind.TheVariants as kind;

use std::alloc::{AllocError, AllocFailed, Global};

// A variable and a value of it.
#[derive(Clone, Copy)]
pub struct Pair {
    pub variable: u8,
    pub value: u8,
}

// How many values a variable has, and the one at the start.
#[derive(Clone, Copy)]
pub struct Variable {
    pub size: u8,
    pub start: u8,
}

// One action.
#[derive(Drop)]
pub struct Operator {
    pub conditions: Vec<Pair>,
    pub effects: Vec<Pair>,
    pub deletes: Vec<Pair>,
}

// The variables, the goals, and the actions, all in order.
// It has no model, since a reader of records tests the parts; `lists_of` says what they mean.
#[derive(Drop)]
pub struct Table {
    pub variables: Vec<Variable>,
    pub goals: Vec<Pair>,
    pub operators: Vec<Operator>,
}

impl Table {
    // A table of nothing.
    pub fn new(heap: Global) -> Table
        ensures { lists_of result ≡ blank }
    {
        Table {
            variables: Vec::new(heap),
            goals: Vec::new(heap),
            operators: Vec::new(heap),
        }
    }

    // One more variable.
    pub fn add_variable(&mut self, size: u8, start: u8) -> Result<(), AllocError>
        ensures { OnOk result (lists_of self.new ≡ put kind.Variable size start (lists_of self.old)) }
    {
        self.variables.push(Variable { size, start })?;
        Ok(())
    }

    // One more goal.
    pub fn add_goal(&mut self, variable: u8, value: u8) -> Result<(), AllocError>
        ensures { OnOk result (lists_of self.new ≡ put kind.Goal variable value (lists_of self.old)) }
    {
        self.goals.push(Pair { variable, value })?;
        Ok(())
    }

    // One more action, of no conditions and effects.
    pub fn add_action(&mut self, heap: Global) -> Result<(), AllocError>
        ensures { OnOk result (lists_of self.new ≡ put kind.Action 0 0 (lists_of self.old)) }
    {
        self.operators.push(Operator {
            conditions: Vec::new(heap),
            effects: Vec::new(heap),
            deletes: Vec::new(heap),
        })?;
        Ok(())
    }

    // Adds to the last action, if there is one.
    fn add_to_last<F: FnOnce(&mut Operator) -> Result<(), AllocFailed<Pair>>>(
        &mut self,
        add: F,
    ) -> Result<(), AllocError>
        requires { F.IsAlwaysCallable add }
        ensures { OnOk result (LastChanged (λ o o'. FnOnceReturnsAtMut F.FnOnce add o (Ok tt) o') self.old self.new) }
    {
        if let Some(operator) = self.operators.last_mut() {
            add(operator)?;
        }
        Ok(())
    }

    // One more condition of the last action, if there is one.
    pub fn add_condition(&mut self, variable: u8, value: u8) -> Result<(), AllocError>
        ensures { OnOk result (lists_of self.new ≡ put kind.Condition variable value (lists_of self.old)) }
    {
        self.add_to_last(|action| action.conditions.push(Pair { variable, value }))
    }

    // One more effect of the last action, if there is one.
    pub fn add_effect(&mut self, variable: u8, value: u8) -> Result<(), AllocError>
        ensures { OnOk result (lists_of self.new ≡ put kind.Effect variable value (lists_of self.old)) }
    {
        self.add_to_last(|action| action.effects.push(Pair { variable, value }))
    }

    // One more delete of the last action, if there is one: an effect that any other on its variable beats.
    pub fn add_delete(&mut self, variable: u8, value: u8) -> Result<(), AllocError>
        ensures { OnOk result (lists_of self.new ≡ put kind.Delete variable value (lists_of self.old)) }
    {
        self.add_to_last(|action| action.deletes.push(Pair { variable, value }))
    }

    // The action that was begun last.
    pub fn latest(&self) -> Option<&Operator>
        ensures { AtLast result (lists_of self.now) }
    {
        self.operators.last()
    }
}
