// Prints what a task answers.
ghost use Rattle.std.specs.Prelude.{None};

use std::{fmt, io};
use task::facts::count_facts;
use task::task_source::TaskSource;

// A value, or a minus sign for none.
#[derive(Clone, Copy)]
struct Value(Option<usize>);

impl fmt::Display for Value {
    ghost output = { λ _. None };

    fn fmt<W: fmt::Write>(&self, f: &mut fmt::Formatter<W>) -> fmt::Result {
        match self.0 {
            Some(value) => write!(f, "{value}"),
            None => write!(f, "-"),
        }
    }
}

// How many variables, facts and actions the task has.
pub(crate) fn print_counts<S: TaskSource>(rt: &HostRuntime, source: &S) -> io::Result<()> {
    let variables = source.variables();
    let facts = count_facts(source);
    let actions = source.actions();
    println!(rt; "variables {variables}, facts {facts}, actions {actions}")
}

// Size, start and goal of each variable and of one past the last.
fn print_variables<S: TaskSource>(rt: &HostRuntime, source: &S) -> io::Result<()> {
    print!(rt; "variables")?;
    for variable in 0..=source.variables() {
        let size = source.size(variable);
        let start = source.start(variable);
        let goal = Value(source.goal(variable));
        print!(rt; " {size}/{start}/{goal}")?;
    }
    Ok(())
}

// Whether an action is there, and its condition and effect on each variable and on one past the last.
fn print_action<S: TaskSource>(rt: &HostRuntime, source: &S, action: usize) -> io::Result<()> {
    if source.is_present(action) {
        print!(rt; "; present")?;
    } else {
        print!(rt; "; absent")?;
    }
    for variable in 0..=source.variables() {
        let need = Value(source.need(action, variable));
        let effect = Value(source.effect(action, variable));
        print!(rt; " {need}>{effect}")?;
    }
    Ok(())
}

// All that the task answers, and what it answers one past the last variable and action.
pub(crate) fn print_answers<S: TaskSource>(rt: &HostRuntime, source: &S) -> io::Result<()> {
    print_variables(rt, source)?;
    for action in 0..=source.actions() {
        print_action(rt, source, action)?;
    }
    println!(rt; "")
}
