//! The line of a position.
ghost use Rattle.std.specs.Prelude.{◌≡◌, ◌<◌, ◌≤◌, ◌^◌, ◌==◌, length};
ghost use Rattle.std.specs.List.{count_by};
ghost use Rattle.mh_lex_bytes.specs.Lines.{line_at};

/// Counts the line feeds.
fn count_line_feeds(bytes: &[u8]) -> u32
    requires { length bytes.now < 2 ^ 31 }
    ensures value { result ≡ count_by (λ b. b == 10) bytes.now }
    ensures within { result ≤ length bytes.now }
{
    let mut count = 0;
    for byte in bytes {
        if *byte == b'\n' {
            count += 1;
        }
    }
    count
}

/// Returns the number, from 1, of the line of a position: one more than the number of line feeds before it.
pub fn line_of(bytes: &[u8], place: usize) -> u32
    requires within { place ≤ length bytes.now }
    requires short { length bytes.now < 2 ^ 31 }
    ensures { result ≡ line_at bytes.now place }
{
    1 + count_line_feeds(&bytes[..place])
}
