// Writing a line into the front of a buffer.
ghost use Rattle.std.specs.Prelude.{◌≡◌, ◌+◌, ◌≤◌, [], ◌∷◌, ◌++◌, length, decimal};
ghost use Rattle.lines.specs.Text.{kind_text, level_text, line_text};
ghost use Rattle.lines.specs.Writing.{InFront};

use crate::line::Line;
use crate::short_text::{CAPACITY, ShortText};
use rules::calls::Kind;

// Appends a space and a number.
fn push_field(text: &mut ShortText, number: u16)
    requires { length text.old + 6 ≤ 32 }
    ensures text { text.new ≡ text.old ++ (32 ∷ decimal number) }
    ensures bound { length text.new ≤ length text.old + 6 }
{
    text.push(b' ');
    text.push_number(number);
}

// Appends a space and a level.
fn push_level(text: &mut ShortText, level: Option<u16>)
    requires { length text.old + 6 ≤ 32 }
    ensures text { text.new ≡ text.old ++ (32 ∷ level_text level) }
    ensures bound { length text.new ≤ length text.old + 6 }
{
    match level {
        Some(number) => push_field(text, number),
        None => {
            text.push(b' ');
            text.push(b'-');
        }
    }
}

// The letter of a kind.
fn letter_of(kind: Kind) -> u8
    ensures { kind_text kind ≡ result ∷ [] }
{
    match kind {
        Kind::Necessary => b'N',
        Kind::Greedy => b'G',
    }
}

// The text of a line, as its `Display` prints it. Not by `write!`: std says what it writes if it succeeds, and never that it does.
fn text_of(line: Line) -> ShortText
    ensures { result ≡ line_text line }
{
    let mut text = ShortText::new();
    match line {
        Line::Fact(fact) => {
            text.push(b'F');
            push_field(&mut text, fact.number);
            push_field(&mut text, fact.variable);
            push_field(&mut text, fact.value);
            push_level(&mut text, fact.level);
        }
        Line::Order(order) => {
            text.push(letter_of(order.kind));
            push_field(&mut text, order.earlier);
            push_field(&mut text, order.later);
        }
    }
    text.push(b'\n');
    text
}

// Writes a line with its line end to the front of a buffer and answers its length; a buffer under 32 bytes is left as it was.
pub fn write_line(line: Line, buffer: &mut [u8]) -> Option<usize>
    ensures { InFront buffer.old (line_text line) buffer.new result }
{
    if buffer.len() < CAPACITY {
        return None;
    }
    let text = text_of(line);
    text.copy_to(buffer);
    Some(text.len())
}
