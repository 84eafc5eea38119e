// A short text.
ghost use Rattle.std.specs.Prelude.{◌≡◌, ℕ, ◌+◌, ◌<◌, ◌≤◌, List, [], ◌∷◌, ◌++◌, length, take, drop, decimal};

use std::marker::Model;

// As many bytes as a buffer must have: every line fits.
pub(crate) const CAPACITY: usize = 32;

// A text of at most that many bytes: an array and a length, since a `String` may find no memory.
#[derive(Drop)]
pub(crate) struct ShortText {
    bytes: [u8; CAPACITY],
    len: usize,
}

impl Model for ShortText {
    ghost Value = { List ℕ };

    ghost view = { λ t. take t.len t.bytes };

    ghost invariant = { λ t. t.len ≤ 32 };
}

impl ShortText {
    // An empty text.
    pub(crate) fn new() -> ShortText
        ensures { result ≡ [] }
    {
        ShortText {
            bytes: [0; CAPACITY],
            len: 0,
        }
    }

    // How many bytes it has.
    pub(crate) fn len(&self) -> usize
        ensures { result ≡ length self.now }
    {
        self.len
    }

    // Appends a byte.
    pub(crate) fn push(&mut self, byte: u8)
        requires { length self.old < 32 }
        ensures { self.new ≡ self.old ++ byte ∷ [] }
    {
        self.bytes[self.len] = byte;
        self.len += 1;
    }

    // Appends a number in decimal.
    pub(crate) fn push_number(&mut self, number: u16)
        requires { length self.old + length (decimal number) ≤ 32 }
        ensures { self.new ≡ self.old ++ decimal number }
    {
        if number >= 10 {
            self.push_number(number / 10);
        }
        self.push(b'0' + (number % 10) as u8);
    }

    // Copies the text to the front of a buffer.
    pub(crate) fn copy_to(&self, buffer: &mut [u8])
        requires { length self.now ≤ length buffer.old }
        ensures { buffer.new ≡ self.now ++ drop (length self.now) buffer.old }
    {
        buffer[..self.len].copy_from_slice(&self.bytes[..self.len]);
    }
}
