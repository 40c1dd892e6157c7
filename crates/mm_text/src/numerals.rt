ghost use Rattle.std.specs.Prelude.{◌≡◌, ℕ, ◌+◌, ◌*◌, ◌<◌, ◌≤◌, length, take, slice_index, true, false, IfSome, MatchOption};
ghost use Rattle.std.specs.List.{list_all};
ghost use Rattle.mm_profile.specs.Numbers.{is_digit, is_natural, natural, is_minus, is_plus, unsigned, is_integer, integer};
ghost use Rattle.mm_text.specs.Naturals.{StandsFor, IsNumber};

use bern_base::Val;

/// A number that is spelled by digits, exact below 2^64.
#[derive(Clone, Copy)]
pub(crate) enum Natural {
    Small(u64),
    /// 2^64 or more.
    Large,
}

/// An integer that is spelled by digits and perhaps a sign.
#[derive(Clone, Copy)]
pub(crate) enum Number {
    Inside(Val),
    /// Below -2^63, or 2^64 or more.
    Outside,
}

impl Natural {
    /// The number whose digits are those of this one and a further one.
    pub(crate) fn with_digit(self, digit: u8) -> Natural
        requires { digit < 10 }
        ensures { (m : ℕ) → StandsFor self m → StandsFor result (10 * m + digit) }
    {
        let Natural::Small(front) = self else {
            return Natural::Large;
        };
        let Some(tens) = front.checked_mul(10) else {
            return Natural::Large;
        };
        match tens.checked_add(digit as u64) {
            Some(number) => Natural::Small(number),
            None => Natural::Large,
        }
    }
}

/// So many digits always spell a number below 2^64.
const SURE_DIGITS: usize = 19;

/// Indices mostly have fewer digits.
const SHORT: usize = 8;

pub(crate) fn is_digit(byte: u8) -> bool
    ensures { result ≡ is_digit byte }
{
    byte >= b'0' && byte <= b'9'
}

/// The number that the digits at the front of a few bytes spell, and how many they are.
#[inline(always)]
fn few_digits(front: &[u8]) -> (u64, usize)
    requires { length front.now ≤ 19 }
    ensures within { result.1 ≤ length front.now }
    ensures digits { list_all is_digit (take result.1 front.now) ≡ true }
    ensures number { result.0 ≡ natural (take result.1 front.now) }
    ensures all { result.1 < length front.now → is_digit (slice_index front.now result.1) ≡ false }
{
    let mut number: u64 = 0;
    for (at, byte) in front.iter().enumerate() {
        if !is_digit(*byte) {
            return (number, at);
        }
        number = number * 10 + (*byte - b'0') as u64;
    }
    (number, front.len())
}

/// As `leading_digits`, for any number of digits.
#[inline(never)]
fn sure_digits(bytes: &[u8]) -> (u64, usize)
    ensures within { result.1 ≤ length bytes.now }
    ensures digits { list_all is_digit (take result.1 bytes.now) ≡ true }
    ensures number { result.0 ≡ natural (take result.1 bytes.now) }
    ensures all { result.1 < 19 → result.1 < length bytes.now → is_digit (slice_index bytes.now result.1) ≡ false }
{
    few_digits(&bytes[..bytes.len().min(SURE_DIGITS)])
}

/// The number that the digits at the front spell, at most 19 of them, and how many they are.
#[inline(always)]
pub(crate) fn leading_digits(bytes: &[u8]) -> (u64, usize)
    ensures within { result.1 ≤ length bytes.now }
    ensures digits { list_all is_digit (take result.1 bytes.now) ≡ true }
    ensures number { result.0 ≡ natural (take result.1 bytes.now) }
    ensures all { result.1 < 19 → result.1 < length bytes.now → is_digit (slice_index bytes.now result.1) ≡ false }
{
    if bytes.len() < SHORT {
        return sure_digits(bytes);
    }
    // Most numbers are short. The compiler writes this loop out, since its length is known.
    let (number, len) = few_digits(&bytes[..SHORT]);
    if len < SHORT {
        return (number, len);
    }
    sure_digits(bytes)
}

/// The number that the digits at the front spell, and how many they are; none where it might not fit.
pub(crate) fn digits_front(bytes: &[u8]) -> Option<(u64, usize)>
    ensures within { IfSome result (λ n. n.1 ≤ length bytes.now) }
    ensures digits { IfSome result (λ n. list_all is_digit (take n.1 bytes.now) ≡ true) }
    ensures number { IfSome result (λ n. n.0 ≡ natural (take n.1 bytes.now)) }
    ensures all { IfSome result (λ n. n.1 < length bytes.now → is_digit (slice_index bytes.now n.1) ≡ false) }
{
    let (number, len) = leading_digits(bytes);
    if len >= SURE_DIGITS && len < bytes.len() {
        return None;
    }
    Some((number, len))
}

/// The number that a word of any length spells by digits.
fn long_natural(word: &[u8]) -> Option<Natural>
    ensures { MatchOption result
        (is_natural word.now ≡ false)
        (λ n. (is_natural word.now ≡ true) × StandsFor n (natural word.now)) }
{
    if word.is_empty() {
        return None;
    }
    let mut number = Natural::Small(0);
    for byte in word {
        if !is_digit(*byte) {
            return None;
        }
        number = number.with_digit(*byte - b'0');
    }
    Some(number)
}

/// The number that a word spells by digits.
pub(crate) fn read_natural(word: &[u8]) -> Option<Natural>
    ensures { MatchOption result
        (is_natural word.now ≡ false)
        (λ n. (is_natural word.now ≡ true) × StandsFor n (natural word.now)) }
{
    let Some((number, len)) = digits_front(word) else {
        return long_natural(word);
    };
    if len == 0 || len < word.len() {
        return None;
    }
    Some(Natural::Small(number))
}

pub(crate) fn is_minus(word: &[u8]) -> bool
    ensures { result ≡ is_minus word.now }
{
    !word.is_empty() && word[0] == b'-'
}

pub(crate) fn is_plus(word: &[u8]) -> bool
    ensures { result ≡ is_plus word.now }
{
    !word.is_empty() && word[0] == b'+'
}

pub(crate) fn unsigned(word: &[u8]) -> &[u8]
    ensures { result.now ≡ unsigned word.now }
{
    if is_minus(word) || is_plus(word) {
        &word[1..]
    } else {
        word
    }
}

/// The value of a number with this sign.
pub(crate) fn number_of(minus: bool, size: Natural) -> Number
    ensures { (m : ℕ) → StandsFor size m → IsNumber result (record { minus = minus; size = m }) }
{
    match size {
        Natural::Large => Number::Outside,
        Natural::Small(size) if minus && size > 1 << 63 => Number::Outside,
        Natural::Small(size) if minus => Number::Inside(Val::new(size).neg()),
        Natural::Small(size) => Number::Inside(Val::new(size)),
    }
}

/// The integer that a word spells.
pub(crate) fn read_integer(word: &[u8]) -> Option<Number>
    ensures { MatchOption result
        (is_integer word.now ≡ false)
        (λ n. (is_integer word.now ≡ true) × IsNumber n (integer word.now)) }
{
    let size = read_natural(unsigned(word))?;
    Some(number_of(is_minus(word), size))
}
