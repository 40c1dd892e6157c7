ghost use Rattle.std.specs.Prelude.{◌≡◌, ◌∷◌, ◌++◌, position, false, MatchOption};
ghost use Rattle.std.specs.List.{list_any};
ghost use Rattle.mm_profile.specs.Lines.{is_line_feed, without_return};

use memchr::memchr;

/// Where the first line of a piece ends.
fn line_end(piece: &[u8]) -> Option<usize>
    ensures { result ≡ position is_line_feed piece.now }
{
    memchr(b'\n', piece)
}

/// The first line that ends in a piece, without its line feed, and what stands after it.
pub(crate) fn split_line(piece: &[u8]) -> Option<(&[u8], &[u8])>
    ensures { MatchOption result
        (list_any is_line_feed piece.now ≡ false)
        (λ p. (list_any is_line_feed p.0.now ≡ false) × (piece.now ≡ p.0.now ++ 10 ∷ p.1.now)) }
{
    match line_end(piece) {
        Some(end) => {
            let (line, rest) = piece.split_at(end);
            Some((line, &rest[1..]))
        }
        None => None,
    }
}

/// The line without one carriage return at its end.
pub(crate) fn without_return(line: &[u8]) -> &[u8]
    ensures { result.now ≡ without_return line.now }
{
    let len = line.len();
    if len > 0 && line[len - 1] == b'\r' {
        return &line[..len - 1];
    }
    line
}
