// One variable of a task.

// How many values it has, which it has at the start, and which it is to have at the goal, if any.
#[derive(Clone, Copy, Default, Drop)]
pub struct Variable {
    pub size: u8,
    pub start: u8,
    pub goal: Option<u8>,
}
