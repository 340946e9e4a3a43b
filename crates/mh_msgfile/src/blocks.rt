//! The blocks of a messages file, of which the last may have no message.
ghost use Rattle.std.specs.Prelude.{◌<◌, ◌^◌, length, IfOk};
ghost use Rattle.mh_msgfile.specs.FileBlocks.{HasBlocks};
ghost use Rattle.mh_msgfile.specs.LooseFiles.{HasShortLines};

use crate::lines::put_lines;
use crate::loose::{LooseFile, put_line_entries};
use mh_grammar::{Memory, Sequence};
use std::alloc::Global;

/// The blocks of a messages file, for whatever grammar the file was written.
#[derive(Drop)]
pub struct LooseBlocks {
    /// The entries: the blocks with a message.
    pub file: LooseFile,
    /// The first line of the last block, if this block has no message.
    pub unpaired: Option<u32>,
}

/// Reads the blocks of a messages file without a grammar: their sentence lines are not read as sentences. Lines that
/// begin with `#` are ignored. The remaining blocks, which blank lines separate, are alternately sentence lines and the
/// message of these lines; the last block may have no message. Fails only if memory runs out.
pub fn read_blocks(alloc: Global, bytes: &[u8]) -> Result<LooseBlocks, Memory>
    requires { length bytes.now < 2 ^ 31 }
    ensures blocks { IfOk result (HasBlocks bytes.now) }
    ensures short { IfOk result (λ found. HasShortLines found.file) }
{
    let mut lines = Sequence::new(alloc);
    put_lines(alloc, &mut lines, bytes)?;
    let mut entries = Sequence::new(alloc);
    let unpaired = put_line_entries(alloc, lines.as_slice(), &mut entries)?;
    Ok(LooseBlocks {
        file: LooseFile { entries },
        unpaired,
    })
}
