//! The line and the column of positions of a file.
ghost use Rattle.std.specs.Prelude.{ℕ, List, ◌≡◌, ◌<◌, ◌≤◌, ◌+◌, ◌++◌, ◌^◌, ◌==◌, length, fold, take};
ghost use Rattle.std.specs.List.{count_by};
ghost use Rattle.mh_lint_findings.specs.Positions.{next_column};
ghost use Rattle.mh_lint_findings.specs.code.Cursors.{IsAt};

/// A position of a file, with its line and its column, from 1. Files and positions are counted from 0.
#[derive(Clone, Copy)]
pub struct Cursor {
    pub(crate) file: usize,
    pub(crate) at: usize,
    pub(crate) line: u32,
    pub(crate) column: u32,
}

impl Cursor {
    /// Returns the beginning of a file.
    pub fn new(file: usize) -> Cursor
        ensures file { result.file ≡ file }
        ensures at { result.at ≡ 0 }
        ensures line { result.line ≡ 1 }
        ensures column { result.column ≡ 1 }
        ensures there { (bytes : List ℕ) → IsAt bytes result }
    {
        Cursor {
            file,
            at: 0,
            line: 1,
            column: 1,
        }
    }

    /// The cursor after these bytes, if they follow its position.
    fn after(self, bytes: &[u8]) -> Cursor
        requires lines { self.line + length bytes.now < 2 ^ 32 }
        requires columns { self.column + length bytes.now < 2 ^ 32 }
        requires counted { 1 ≤ self.column }
        requires positions { self.at + length bytes.now < 2 ^ 32 }
        ensures file { result.file ≡ self.file }
        ensures at { result.at ≡ self.at + length bytes.now }
        ensures line { result.line ≡ self.line + count_by (λ b. b == 10) bytes.now }
        ensures column { result.column ≡ fold next_column self.column bytes.now }
        ensures few_lines { result.line ≤ self.line + length bytes.now }
        ensures few_columns { result.column ≤ self.column + length bytes.now }
        ensures counted { 1 ≤ result.column }
    {
        let mut line = self.line;
        let mut column = self.column;
        for byte in bytes {
            if *byte == b'\n' {
                line += 1;
                column = 1;
            } else {
                column += 1;
            }
        }
        Cursor {
            file: self.file,
            at: self.at + bytes.len(),
            line,
            column,
        }
    }

    /// The cursor at a position of its file. The walk goes on from the cursor if it can.
    pub(crate) fn moved_to(self, bytes: &[u8], start: usize) -> Cursor
        requires short { length bytes.now < 2 ^ 31 }
        requires within { start ≤ length bytes.now }
        requires here { IsAt bytes.now self }
        ensures file { result.file ≡ self.file }
        ensures at { result.at ≡ start }
        ensures there { IsAt bytes.now result }
    {
        if start < self.at {
            return Cursor::new(self.file).after(&bytes[..start]);
        }
        self.after(between(bytes, self.at, start))
    }
}

/// The bytes from one position to another.
fn between(bytes: &[u8], from: usize, to: usize) -> &[u8]
    requires order { from ≤ to }
    requires within { to ≤ length bytes.now }
    ensures { take from bytes.now ++ result.now ≡ take to bytes.now }
{
    &bytes[from..to]
}
