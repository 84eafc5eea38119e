// The numbers of a line.
ghost use Rattle.std.specs.Prelude.{ℕ, List, [], ◌∷◌, Decides, MatchOption};
ghost use Rattle.sitting.specs.Lines.{Blanks, First, Numbers, Writes};
ghost use Rattle.task.specs.Facts.{Exactly};

use crate::words::next_word;

// The number that a word of digits writes; one above the largest that there is counts as that. A `for`, since `try_fold` would hold the
// same lines in a closure.
fn parse_number(word: &[u8]) -> Option<usize>
    ensures { Exactly (Writes word.now) result }
{
    let mut number: usize = 0;
    for byte in word {
        if !byte.is_ascii_digit() {
            return None;
        }
        let digit = usize::from(*byte - b'0');
        number = number.saturating_mul(10).saturating_add(digit);
    }
    Some(number)
}

// The number that the first word writes, and what follows that word.
fn next_number(bytes: &[u8]) -> Option<(usize, &[u8])>
    ensures { MatchOption result ((w rest : List ℕ) (n : ℕ) → First bytes.now w rest → Writes w n → ⊥) (λ x. (w : List ℕ) × First bytes.now w x.1.now × Writes w x.0) }
{
    let (word, rest) = next_word(bytes)?;
    Some((parse_number(word)?, rest))
}

// Whether there is no word.
pub(crate) fn is_done(bytes: &[u8]) -> bool
    ensures { Decides result (Numbers bytes.now []) }
{
    next_word(bytes).is_none()
}

// The number that the only word writes.
pub(crate) fn one_number(bytes: &[u8]) -> Option<usize>
    ensures { Exactly (λ n. Numbers bytes.now (n ∷ [])) result }
{
    let (number, rest) = next_number(bytes)?;
    is_done(rest).then_some(number)
}

// The numbers that three words write.
pub(crate) fn three_numbers(bytes: &[u8]) -> Option<(usize, usize, usize)>
    ensures { Exactly (λ x. Numbers bytes.now (x.0 ∷ x.1 ∷ x.2 ∷ [])) result }
{
    let (first, rest) = next_number(bytes)?;
    let (second, rest) = next_number(rest)?;
    let third = one_number(rest)?;
    Some((first, second, third))
}
