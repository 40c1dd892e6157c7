ghost use Rattle.std.specs.Prelude.{◌≡◌, ◌+◌, ◌*◌, ◌^◌, ◌-◌, Some, None, true, nat_lt, if◌then◌else◌};
ghost use Rattle.std.specs.List.{list_all};
ghost use Rattle.std.specs.Char.{digit_value};
ghost use Rattle.job_text.specs.Names.{is_digit, is_numeral};
ghost use Rattle.job_text.specs.Reading.{value_of, number_of};

use crate::lines::is_some_text;
use crate::names::is_digit;

/// The number that decimal digits write, where it is below 2^64.
pub(crate) fn number(word: &[u8]) -> Option<u64>
    ensures { result ≡ number_of word.now }
{
    if is_numeral(word) {
        value_of(word)
    } else {
        None
    }
}

fn is_numeral(word: &[u8]) -> bool
    ensures { result ≡ is_numeral word.now }
{
    is_some_text(word) && are_digits(word)
}

fn are_digits(word: &[u8]) -> bool
    ensures { result ≡ list_all is_digit word.now }
{
    word.iter().all(|byte| is_digit(*byte))
}

fn value_of(word: &[u8]) -> Option<u64>
    requires { list_all is_digit word.now ≡ true }
    ensures { result ≡ value_of word.now }
{
    let mut value = 0;
    for digit in word {
        match with_digit(value, *digit) {
            Some(more) => value = more,
            None => return None,
        }
    }
    Some(value)
}

/// The number with one digit more.
fn with_digit(value: u64, digit: u8) -> Option<u64>
    requires { is_digit digit ≡ true }
    ensures { result ≡ (if nat_lt (value * 10 + digit_value digit) (2 ^ 64) then Some (value * 10 + digit_value digit) else None) }
{
    let tens = value.checked_mul(10)?;
    tens.checked_add(u64::from(digit - b'0'))
}
