//! Splits bytes at line feeds.
ghost use Rattle.std.specs.Prelude.{◌≡◌, ◌∷◌, [], ◌<◌, ◌==◌, map, length, IfOk, OnOk, MatchOption};
ghost use Rattle.std.specs.List.{slice_split};

use memchr::memchr;
use mh_grammar::Memory;
use std::alloc::Global;

/// The bytes before the first line feed and the bytes after it, or none if there is no line feed.
fn next_line(bytes: &[u8]) -> Option<(&[u8], &[u8])>
    ensures { MatchOption result (slice_split (λ b. b == 10) bytes.now ≡ bytes.now ∷ []) (λ (line, rest).
        (slice_split (λ b. b == 10) bytes.now ≡ line.now ∷ slice_split (λ b. b == 10) rest.now) × (length rest.now < length bytes.now)) }
{
    let Some(end) = memchr(b'\n', bytes) else {
        return None;
    };
    Some((&bytes[..end], &bytes[end + 1..]))
}

/// Appends the parts of the bytes between line feeds.
fn put_lines<'a>(parts: &mut Vec<&'a [u8]>, bytes: &'a [u8]) -> Result<(), Memory>
    requires { parts.old.items ≡ [] }
    ensures { OnOk result (map (λ x. x.now) parts.new.items ≡ slice_split (λ b. b == 10) bytes.now) }
{
    let mut rest = bytes;
    while let Some((line, after)) = next_line(rest) {
        parts.push(line)?;
        rest = after;
    }
    parts.push(rest)?;
    Ok(())
}

/// Splits the bytes at each line feed.
pub(crate) fn split_lines(alloc: Global, bytes: &[u8]) -> Result<Vec<&[u8]>, Memory>
    ensures { IfOk result (λ v. map (λ x. x.now) v.items ≡ slice_split (λ b. b == 10) bytes.now) }
{
    let mut parts = Vec::new(alloc);
    put_lines(&mut parts, bytes)?;
    Ok(parts)
}
