//! Helpers with which all crates of worked examples make texts and values.
ghost use Rattle.std.specs.Prelude.{◌≡◌, IfOk};

/// Appends bytes to a text. If memory runs out, the text lacks the bytes, and so differs from the wanted text.
pub fn put(text: &mut Vec<u8>, bytes: &[u8]) {
    let _ = text.extend_from_slice(bytes);
}

/// Returns the value if filling it succeeded, else fails.
pub fn filled<T: Drop, E>(value: T, filling: Result<(), E>) -> Result<T, E>
    ensures { IfOk result (λ filled. filled ≡ value) }
{
    match filling {
        Ok(()) => Ok(value),
        Err(fault) => Err(fault),
    }
}
