//! Laws of reading table files, as functions that do nothing and whose contracts state the laws.
ghost use Rattle.std.specs.Prelude.{◌≡◌, ℕ};
ghost use Rattle.mh_tabfile_form.specs.declared.types.RawTable.{RawTable as Raw};
ghost use Rattle.mh_tabfile_form.specs.Form.{IsFileOf};
ghost use Rattle.mh_tabfile_read.specs.Reading.{IsBadLine, IsOtherVersion};

/// The first bad line of a file is unique. A file of the form has no bad line, and is not of another version.
pub fn fault_is_unique(bytes: &[u8])
    ensures line { (n m : ℕ) → IsBadLine bytes.now n → IsBadLine bytes.now m → n ≡ m }
    ensures formed { (raw : Raw) → IsFileOf bytes.now raw → ((n : ℕ) → IsBadLine bytes.now n → ⊥) × (IsOtherVersion bytes.now → ⊥) }
{
    let _bytes = bytes;
}

/// The content of a table file is unique.
pub fn content_is_unique(bytes: &[u8])
    ensures { (one two : Raw) → IsFileOf bytes.now one → IsFileOf bytes.now two → one ≡ two }
{
    let _bytes = bytes;
}
