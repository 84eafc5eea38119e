// The lines of a key, by an iterator over them that borrows the key.
ghost use Rattle.std.specs.Prelude.{◌≡◌};
ghost use Rattle.std.specs.Iterator.{at_most};
ghost use Rattle.key.specs.Keys.{Shows, task_of};
ghost use Rattle.key_text.specs.Cursors.{Stands, unlisted};
ghost use Rattle.key_text.specs.Moves.{Moves};
ghost use Rattle.rules.specs.Machine.{Machine};

use crate::cursor::Cursor;
use key::keys::Key;
use lines::line::Line;

#[derive(Drop)]
pub struct KeyLines<'a> {
    key: &'a Key,
    cursor: Cursor,
}

impl<'a> KeyLines<'a> {
    // The lines of a key from the first on.
    pub fn of(key: &'a Key) -> KeyLines<'a>
        ensures key { result.key.now ≡ key.now }
        ensures stands { (m : Machine) → Shows key.now m → Stands (task_of key.now) m result.cursor 0 }
    {
        KeyLines {
            key,
            cursor: Cursor::start(key),
        }
    }
}

impl<'a> Iterator for KeyLines<'a> {
    type Item = Line;

    ghost next_gives = { Moves };

    ghost remaining = { λ s. at_most (unlisted (task_of s.key.now) s.cursor) };

    fn next(&mut self) -> Option<Line> {
        self.cursor.next_line(self.key)
    }
}
