// A sitting: actions that are taken one by one from the start of a task.
use crate::fact_set::FactSet;
use crate::position::Position;

// Where the sitting is, the facts that it has visited, and how many steps it has taken.
#[derive(Clone, Copy)]
pub struct Sitting {
    pub position: Position,
    pub visited: FactSet,
    pub steps: u16,
}

mod counts;
mod moves;
mod remainders;
