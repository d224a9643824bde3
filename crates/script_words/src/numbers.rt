//! Numbers, as they are read.

ghost use Rattle.std.specs.Prelude.{◌≡◌, ◌≤◌, IfSome};
ghost use Rattle.script_words.specs.Numbers.{natural_of, with_digit, digits_onto, is_digit};

/// The number with one more digit, if that is not above the limit.
fn with_digit(number: u64, digit: u8, limit: u64) -> Option<u64>
    requires limit { 9 ≤ limit }
    requires below { number ≤ limit }
    ensures value { result ≡ with_digit limit number digit }
    ensures below { IfSome result (λ n. n ≤ limit) }
{
    if digit < b'0' || digit > b'9' {
        return None;
    }
    let value = (digit - b'0') as u64;
    if number > (limit - value) / 10 {
        return None;
    }
    Some(10 * number + value)
}

/// The number that a word in decimal means, if it is not above the limit. A number has no sign, and no zero before
/// other digits.
pub fn natural_of(word: &[u8], limit: u64) -> Option<u64>
    requires { 9 ≤ limit }
    ensures value { result ≡ natural_of limit word.now }
    ensures below { IfSome result (λ n. n ≤ limit) }
{
    match word {
        [] => return None,
        [b'0', _, ..] => return None,
        _ => {}
    }
    let mut number = 0;
    for digit in word {
        number = with_digit(number, *digit, limit)?;
    }
    Some(number)
}
