// One variable with the values 0 to 5, from 0 to 4 by two ways round that meet at 3, and a dead end at 5.
ghost use Rattle.key_tests.specs.Fork.{fork, fork_lawful};

use task::task_source::TaskSource;

const FROM: [usize; 6] = [0, 0, 1, 2, 3, 0];

const TO: [usize; 6] = [1, 2, 3, 3, 4, 5];

#[derive(Drop)]
pub struct Fork {}

impl TaskSource for Fork {
    ghost task = { λ _. fork };

    ghost lawful = { λ _. fork_lawful };

    fn variables(&self) -> usize {
        1
    }

    fn size(&self, variable: usize) -> usize {
        if variable < 1 { 6 } else { 0 }
    }

    fn start(&self, variable: usize) -> usize {
        0
    }

    fn goal(&self, variable: usize) -> Option<usize> {
        if variable < 1 { Some(4) } else { None }
    }

    fn actions(&self) -> usize {
        6
    }

    fn is_present(&self, action: usize) -> bool {
        action < 6
    }

    fn need(&self, action: usize, variable: usize) -> Option<usize> {
        if action < 6 && variable < 1 {
            Some(FROM[action])
        } else {
            None
        }
    }

    fn effect(&self, action: usize, variable: usize) -> Option<usize> {
        if action < 6 && variable < 1 {
            Some(TO[action])
        } else {
            None
        }
    }
}
