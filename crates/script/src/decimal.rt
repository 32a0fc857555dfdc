//! The number that a word writes.

ghost use Rattle.std.specs.Prelude.{◌≡◌};
ghost use Rattle.script.specs.Numbers.{digit_value, number_of, Exact};

/// What a digit counts.
fn digit_value(byte: u8) -> Option<u64>
    ensures { result ≡ digit_value byte }
{
    match byte {
        b'0'..=b'9' => Some(u64::from(byte - b'0')),
        _ => None,
    }
}

/// The number that a word of digits writes. One that does not fit is read as the largest that does.
pub fn number(word: &[u8]) -> Option<u64>
    ensures value { result ≡ number_of word.now }
    ensures exact { Exact word.now result }
{
    if word.is_empty() {
        return None;
    }
    let mut value: u64 = 0;
    for byte in word {
        let digit = digit_value(*byte)?;
        value = value.saturating_mul(10).saturating_add(digit);
    }
    Some(value)
}
