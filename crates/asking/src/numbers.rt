// The numbers of a question: decimal figures that 64 bits hold.

pub fn number(word: &[u8]) -> Option<u64> {
    if word.is_empty() {
        return None;
    }
    word.iter().try_fold(0u64, |number, byte| {
        let figure = char::from(*byte).to_digit(10)?;
        number.checked_mul(10)?.checked_add(u64::from(figure))
    })
}

// A number that may have a minus sign.
pub fn signed(word: &[u8]) -> Option<i64> {
    match word.strip_prefix(b"-") {
        Some(figures) => 0i64.checked_sub_unsigned(number(figures)?),
        None => i64::try_from(number(word)?).ok(),
    }
}
