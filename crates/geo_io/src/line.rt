//! Cutting bytes into lines.
ghost use Rattle.std.specs.Prelude.{◌≡◌, ◌==◌, [], ◌∷◌, ◌<◌, length, position, IfSome, MatchOption};
ghost use Rattle.geo_io.specs.Lines.{lines_of, without_carriage_return};

/// The first line of some bytes and what follows it; `None` where there are no bytes. A line has
/// neither its line feed nor the one carriage return directly before that.
pub fn split_line(bytes: &[u8]) -> Option<(&[u8], &[u8])>
    ensures first { MatchOption result (bytes.now ≡ [])
        (λ parts. lines_of bytes.now ≡ parts.0.now ∷ lines_of parts.1.now) }
    ensures shorter { IfSome result (λ parts. length parts.1.now < length bytes.now) }
{
    if bytes.is_empty() {
        return None;
    }
    match line_feed_at(bytes) {
        None => Some((bytes, &[])),
        Some(end) => Some((strip_carriage_return(&bytes[..end]), &bytes[end + 1..])),
    }
}

pub(super) fn line_feed_at(bytes: &[u8]) -> Option<usize>
    ensures { result ≡ position (λ byte. byte == 10) bytes.now }
{
    bytes.iter().position(|byte| *byte == b'\n')
}

pub(super) fn strip_carriage_return(part: &[u8]) -> &[u8]
    ensures { result.now ≡ without_carriage_return part.now }
{
    match part {
        [front @ .., b'\r'] => front,
        _ => part,
    }
}
