// One action of a task.

// As many places as a task may have variables.
pub(crate) const PLACES: usize = 64;

// Whether it is present, and what it needs of each variable and gives to it.
#[derive(Clone, Copy, Drop)]
pub struct Action {
    pub present: bool,
    pub needs: [Option<u8>; PLACES],
    pub effects: [Option<u8>; PLACES],
}
