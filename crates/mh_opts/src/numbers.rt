//! Numbers among the words.
ghost use Rattle.std.specs.Prelude.{◌≡◌, ◌<◌, ◌≤◌, length, true, Some};
ghost use Rattle.std.specs.Char.{is_ascii_digit};
ghost use Rattle.std.specs.List.{list_all};
ghost use Rattle.mh_opts.specs.Numbers as numbers;

/// The most tokens that `--length` may give a random sentence.
pub const MAX_LENGTH: u32 = 1000;

/// Returns true if the text has only decimal digits.
fn has_digits_alone(text: &[u8]) -> bool
    ensures { result ≡ list_all is_ascii_digit text.now }
{
    text.iter().all(|byte| byte.is_ascii_digit())
}

/// Returns true if the text has at least one and at most `most` bytes.
fn is_short(text: &[u8], most: usize) -> bool
    ensures { result ≡ numbers.is_short most text.now }
{
    !text.is_empty() && text.len() <= most
}

/// Returns true if the text consists of at least one and at most `most` decimal digits.
fn is_numeral(text: &str, most: usize) -> bool
    ensures { result ≡ numbers.is_numeral most text.now }
{
    let bytes = text.as_bytes();
    is_short(bytes, most) && has_digits_alone(bytes)
}

/// The value of one to four digits.
fn value(digits: &str) -> Option<u32>
    requires some { 0 < length digits.now }
    requires few { length digits.now ≤ 4 }
    requires digits { list_all is_ascii_digit digits.now ≡ true }
    ensures { result ≡ Some (numbers.value digits.now) }
{
    match digits.parse::<u32>() {
        Ok(value) => Some(value),
        Err(_) => None,
    }
}

/// The value of one to nineteen digits.
fn long_value(digits: &str) -> Option<u64>
    requires some { 0 < length digits.now }
    requires few { length digits.now ≤ 19 }
    requires digits { list_all is_ascii_digit digits.now ≡ true }
    ensures { result ≡ Some (numbers.value digits.now) }
{
    match digits.parse::<u64>() {
        Ok(value) => Some(value),
        Err(_) => None,
    }
}

/// The number, if the text consists of one to four decimal digits.
pub(crate) fn number_in(text: &str) -> Option<u32>
    ensures { result ≡ numbers.number_in 4 text.now }
{
    if is_numeral(text, 4) {
        value(text)
    } else {
        None
    }
}

/// The number, if the text consists of one to nineteen decimal digits.
pub(crate) fn seed_in(text: &str) -> Option<u64>
    ensures { result ≡ numbers.number_in 19 text.now }
{
    if is_numeral(text, 19) {
        long_value(text)
    } else {
        None
    }
}

/// The number, if the text consists of one to four decimal digits and the number is at most [`MAX_LENGTH`].
pub(crate) fn length_in(text: &str) -> Option<u32>
    ensures { result ≡ numbers.length_in text.now }
{
    match number_in(text) {
        Some(number) if number <= MAX_LENGTH => Some(number),
        _ => None,
    }
}
