ghost use Rattle.std.specs.Prelude.{◌≡◌, ℕ, ◌^◌, ◌<◌, Some, decimal, IfSome};

use itoa::Buffer;

/// The number that these decimal digits spell, without a sign and without a leading zero.
pub(crate) fn numeral(digits: &[u8]) -> Option<u64>
    ensures found { IfSome result (λ n. digits.now ≡ decimal n) }
    ensures only { (n : ℕ) → n < 2 ^ 64 → digits.now ≡ decimal n → result ≡ Some n }
{
    match parsed(digits) {
        // A number has one spelling: what it prints as.
        Some(number) if Buffer::new().format(number).as_bytes() == digits => Some(number),
        _ => None,
    }
}

fn parsed(digits: &[u8]) -> Option<u64>
    ensures { (n : ℕ) → n < 2 ^ 64 → digits.now ≡ decimal n → result ≡ Some n }
{
    match str::from_utf8(digits) {
        Ok(text) => match text.parse::<u64>() {
            Ok(number) => Some(number),
            Err(_) => None,
        },
        Err(_) => None,
    }
}
