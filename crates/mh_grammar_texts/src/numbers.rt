//! The texts of numbers. Each function appends to a text.
ghost use Rattle.std.specs.Prelude.{◌≡◌, ◌++◌, decimal, OnOk};

use itoa::Buffer;
use mh_grammar::Memory;

/// Writes a number in decimal. It fails only for lack of memory; a prefix may then have been written.
pub fn write_number(text: &mut Vec<u8>, number: u32) -> Result<(), Memory>
    ensures { OnOk result (text.new.items ≡ text.old.items ++ decimal number) }
{
    let mut digits = Buffer::new();
    text.extend_from_slice(digits.format(number).as_bytes())?;
    Ok(())
}

/// Writes a number between two texts. It fails only for lack of memory; a prefix may then have been written.
pub fn write_between(
    text: &mut Vec<u8>,
    before: &[u8],
    number: u32,
    after: &[u8],
) -> Result<(), Memory>
    ensures { OnOk result (text.new.items ≡ text.old.items
        ++ (before.now ++ decimal number ++ after.now)) }
{
    text.extend_from_slice(before)?;
    write_number(text, number)?;
    text.extend_from_slice(after)?;
    Ok(())
}
