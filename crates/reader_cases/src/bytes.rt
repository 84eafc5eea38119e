// The bytes of a case, as words of hexadecimal digits; `64*01020000` is a word that stands 64 times.
use console::fault::ProgramFault;
use std::alloc::Global;

// The number of a hexadecimal digit; `to_digit` would take capitals too.
fn digit_number(digit: u8) -> Result<u8, ProgramFault> {
    match digit {
        b'0'..=b'9' => Ok(digit - b'0'),
        b'a'..=b'f' => Ok(digit - b'a' + 10),
        _ => Err(ProgramFault::Unreadable),
    }
}

// The byte that two digits write.
fn pair_byte(pair: &[u8]) -> Result<u8, ProgramFault> {
    let [high, low] = pair else {
        return Err(ProgramFault::Unreadable);
    };
    Ok(digit_number(*high)? << 4 | digit_number(*low)?)
}

// Adds the bytes that a word of digits writes.
fn add_digits(bytes: &mut Vec<u8>, digits: &[u8]) -> Result<(), ProgramFault> {
    for pair in digits.chunks(2) {
        bytes.extend_from_slice(&[pair_byte(pair)?])?;
    }
    Ok(())
}

// How often a word stands, and its digits.
fn counted(word: &str) -> Result<(usize, &str), ProgramFault> {
    match word.split_once('*') {
        None => Ok((1, word)),
        Some((count, digits)) => {
            let count = count.parse::<usize>().ok();
            Ok((count.ok_or(ProgramFault::Unreadable)?, digits))
        }
    }
}

// Adds the bytes of a word, as often as it stands.
fn add_word(bytes: &mut Vec<u8>, word: &str) -> Result<(), ProgramFault> {
    let (count, digits) = counted(word)?;
    for _ in 0..count {
        add_digits(bytes, digits.as_bytes())?;
    }
    Ok(())
}

// The bytes of a case.
pub(crate) fn case_bytes(heap: Global, text: &str) -> Result<Vec<u8>, ProgramFault> {
    let mut bytes = Vec::new(heap);
    for word in text.split_ascii_whitespace() {
        add_word(&mut bytes, word)?;
    }
    Ok(bytes)
}
