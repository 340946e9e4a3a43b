//! The costs of tokens in attributes.
ghost use Rattle.std.specs.Prelude.{◌≡◌, ◌≤◌, ◌==◌, List, drop, length, nat_eq, take};
ghost use Rattle.std.specs.Cmp.Lexicographic.{pointwise};
ghost use Rattle.std.specs.List.{prefix_len};
ghost use Rattle.mh_lex_bytes.specs.Bytes.{byte_at, is_blank, is_decimal};
ghost use Rattle.mh_reader_parser.specs.Costs as spec;
ghost use Rattle.mh_reader_parser.specs.Costs.{is_closing_text, cost_in_range, cost_from_number, cost_from_blanks, decimal_value_from};

use mh_grammar::MAX_COST;
use mh_lex_bytes::is_blank_byte;

fn is_digit(byte: u8) -> bool
    ensures { result ≡ is_decimal byte }
{
    byte.is_ascii_digit()
}

/// The number of blanks at the beginning.
fn blanks_length(text: &[u8]) -> usize
    ensures value { result ≡ prefix_len is_blank text.now }
    ensures within { result ≤ length text.now }
{
    text.iter().take_while(|&&byte| is_blank_byte(byte)).count()
}

/// The number of digits at the beginning.
fn digits_length(text: &[u8]) -> usize
    ensures value { result ≡ prefix_len is_decimal text.now }
    ensures within { result ≤ length text.now }
{
    text.iter().take_while(|&&byte| is_digit(byte)).count()
}

fn are_equal(bytes: &[u8], text: &[u8]) -> bool
    ensures { result ≡ pointwise nat_eq bytes.now text.now }
{
    bytes == text
}

/// Returns whether the text is blanks or none, and the closing bracket.
fn closes(text: &[u8]) -> bool
    ensures { result ≡ is_closing_text text.now }
{
    are_equal(&text[blanks_length(text)..], b"]")
}

/// The number that the digits write, if it is a cost.
fn cost_by(digits: &[u8]) -> Option<u32>
    ensures { result ≡ cost_in_range (decimal_value_from 0 digits.now) }
{
    let mut number = 0;
    for digit in digits {
        number = number * 10 + u32::from(digit.saturating_sub(b'0'));
        if number > MAX_COST {
            return None;
        }
    }
    if number == 0 { None } else { Some(number) }
}

fn starts_with_zero(text: &[u8]) -> bool
    ensures { result ≡ (byte_at text.now 0 == 48) }
{
    match text.first() {
        Some(byte) => *byte == b'0',
        None => false,
    }
}

/// The cost in a text that begins with its number.
fn numbered_cost(text: &[u8]) -> Option<u32>
    ensures { result ≡ cost_from_number text.now }
{
    if starts_with_zero(text) {
        return None;
    }
    let length = digits_length(text);
    if closes(&text[length..]) {
        cost_by(&text[..length])
    } else {
        None
    }
}

/// The cost in a text that begins with the blanks before its number.
fn spaced_cost(text: &[u8]) -> Option<u32>
    ensures { result ≡ cost_from_blanks text.now }
{
    let length = blanks_length(text);
    if length > 0 {
        numbered_cost(&text[length..])
    } else {
        None
    }
}

/// The first six bytes, as many as `[@cost` has.
fn first_bytes(text: &[u8]) -> &[u8]
    ensures { result.now ≡ take 6 text.now }
{
    if text.len() < 6 {
        return text;
    }
    &text[..6]
}

/// The bytes after the first six.
fn other_bytes(text: &[u8]) -> &[u8]
    ensures { result.now ≡ drop 6 text.now }
{
    if text.len() < 6 {
        return &text[text.len()..];
    }
    &text[6..]
}

/// The cost that an attribute with this text gives, if it is a cost attribute.
#[tactic(auto, unfolding(crate::specs::Costs::cost_of))]
pub fn cost_of(text: &[u8]) -> Option<u32>
    ensures { result ≡ spec.cost_of text.now }
{
    if are_equal(first_bytes(text), b"[@cost") {
        spaced_cost(other_bytes(text))
    } else {
        None
    }
}
