//! The numbers that words spell.
ghost use Rattle.std.specs.Prelude.{◌≡◌, ◌<◌, ◌^◌, true};
ghost use Rattle.std.specs.List.{list_all};
ghost use Rattle.mh_tabfile_read.specs.code.Numbers.{is_digit as is_digit_byte, small_value, has_zero_first as zero_first, number_of as number_read};

fn is_digit(byte: u8) -> bool
    ensures { result ≡ is_digit_byte byte }
{
    byte >= b'0' && byte <= b'9'
}

fn are_digits(word: &[u8]) -> bool
    ensures { result ≡ list_all is_digit_byte word.now }
{
    word.iter().all(|byte| is_digit(*byte))
}

fn has_zero_first(word: &[u8]) -> bool
    ensures { result ≡ zero_first word.now }
{
    match word {
        [] => true,
        [_] => false,
        [first, _, ..] => *first == b'0',
    }
}

/// The value of decimal digits, if it is below 2^32.
fn value_of(word: &[u8]) -> Option<u32>
    requires { list_all is_digit_byte word.now ≡ true }
    ensures { result ≡ small_value word.now }
{
    let mut value = 0u64;
    for byte in word {
        value = value * 10 + u64::from(*byte - b'0');
        if value > 0xffff_ffff {
            return None;
        }
    }
    Some(value as u32)
}

/// The number that a word spells: decimal digits without leading zeros, below 2^32.
#[tactic(auto, unfolding(crate::specs::code::Numbers::number_of))]
pub(crate) fn number_of(word: &[u8]) -> Option<u32>
    ensures { result ≡ number_read word.now }
{
    if !are_digits(word) || has_zero_first(word) {
        return None;
    }
    value_of(word)
}
