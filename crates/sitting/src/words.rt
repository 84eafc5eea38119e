// The words of a line.
ghost use Rattle.sitting.specs.Lines.{Blanks, First, blank?, of_kind};
ghost use Rattle.std.specs.List.{prefix_len};
ghost use Rattle.std.specs.Prelude.{◌≡◌, MatchOption};

// Whether a byte parts words.
fn is_blank(byte: u8) -> bool
    ensures { result ≡ blank? byte }
{
    byte == b' ' || byte == b'\r'
}

// The first word and what follows it, or `None` where there is no word.
pub(crate) fn next_word(bytes: &[u8]) -> Option<(&[u8], &[u8])>
    ensures { MatchOption result (Blanks bytes.now) (λ x. First bytes.now x.0.now x.1.now) }
{
    let blanks = bytes.iter().take_while(|byte| is_blank(**byte)).count();
    let (_, text) = bytes.split_at(blanks);
    if text.is_empty() {
        return None;
    }
    let letters = text.iter().take_while(|byte| !is_blank(**byte)).count();
    Some(text.split_at(letters))
}
