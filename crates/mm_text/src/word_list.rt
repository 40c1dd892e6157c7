ghost use Rattle.std.specs.Prelude.{◌≡◌, ◌≢◌, [], ◌∷◌, ◌<◌, ◌≤◌, not, length, position, take, drop, false, slice_index, MatchOption};
ghost use Rattle.std.specs.List.{position_or_len};
ghost use Rattle.mm_profile.specs.Lines.{is_blank, words};
ghost use Rattle.mm_profile.specs.Profile.{is_skipped};

pub(crate) fn is_blank(byte: u8) -> bool
    ensures { result ≡ is_blank byte }
{
    byte == b' ' || byte == b'\t'
}

fn word_at(line: &[u8]) -> Option<usize>
    ensures { result ≡ position (λ b. not (is_blank b)) line.now }
{
    line.iter().position(|b| !is_blank(*b))
}

fn blank_at(line: &[u8]) -> Option<usize>
    ensures { result ≡ position is_blank line.now }
{
    line.iter().position(|b| is_blank(*b))
}

/// The line from its first word on.
pub(crate) fn from_word(line: &[u8]) -> &[u8]
    ensures { result.now ≡ drop (position_or_len (λ b. not (is_blank b)) line.now) line.now }
{
    match word_at(line) {
        Some(start) => &line[start..],
        None => &[],
    }
}

/// How many bytes stand before the first blank.
fn word_len(line: &[u8]) -> usize
    ensures length { result ≡ position_or_len is_blank line.now }
    ensures within { result ≤ length line.now }
{
    blank_at(line).unwrap_or(line.len())
}

/// The first word of a line and what stands after it; none where it has no word.
pub(crate) fn next_word(line: &[u8]) -> Option<(&[u8], &[u8])>
    ensures { MatchOption result (words line.now ≡ []) (λ w. words line.now ≡ w.0.now ∷ words w.1.now) }
{
    let from = from_word(line);
    if from.is_empty() {
        return None;
    }
    Some(from.split_at(word_len(from)))
}

/// Whether a line after the first is no size line and no entry line: it has no word, or begins with a percent sign.
pub(crate) fn is_skipped(line: &[u8]) -> bool
    ensures { result ≡ is_skipped (words line.now) }
{
    let from = from_word(line);
    from.is_empty() || from[0] == b'%'
}

/// The word of a line that has just one.
pub(crate) fn one_word(line: &[u8]) -> Option<&[u8]>
    ensures { MatchOption result (length (words line.now) ≢ 1) (λ w. words line.now ≡ w.now ∷ []) }
{
    let (word, rest) = next_word(line)?;
    if next_word(rest).is_some() {
        return None;
    }
    Some(word)
}

/// The words of a line that has just two.
fn two_words(line: &[u8]) -> Option<(&[u8], &[u8])>
    ensures { MatchOption result
        (length (words line.now) ≢ 2)
        (λ w. words line.now ≡ w.0.now ∷ w.1.now ∷ []) }
{
    let (word, rest) = next_word(line)?;
    let second = one_word(rest)?;
    Some((word, second))
}

/// The words of a line that has just three.
fn three_words(line: &[u8]) -> Option<(&[u8], &[u8], &[u8])>
    ensures { MatchOption result
        (length (words line.now) ≢ 3)
        (λ w. words line.now ≡ w.0.now ∷ w.1.now ∷ w.2.now ∷ []) }
{
    let (word, rest) = next_word(line)?;
    let (second, third) = two_words(rest)?;
    Some((word, second, third))
}

/// The words of a line that has just five.
pub(crate) fn five_words(line: &[u8]) -> Option<(&[u8], &[u8], &[u8], &[u8], &[u8])>
    ensures { MatchOption result
        (length (words line.now) ≢ 5)
        (λ w. words line.now ≡ w.0.now ∷ w.1.now ∷ w.2.now ∷ w.3.now ∷ w.4.now ∷ []) }
{
    let (word, rest) = next_word(line)?;
    let (second, rest) = next_word(rest)?;
    let (third, fourth, fifth) = three_words(rest)?;
    Some((word, second, third, fourth, fifth))
}
