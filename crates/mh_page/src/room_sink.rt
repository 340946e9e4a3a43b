//! An output that keeps the first bytes of its text, as many as a room of the caller holds, and counts all bytes.
ghost use Rattle.std.specs.Prelude.{◌≡◌, ◌<◌, [], length, take, IsTrue, Some, ⊤};
ghost use Rattle.mh_page.specs.Rooms.{whole_length, Holds};

use crate::whole_text::{Piece, WholeText};
use mh_outside::{Failed, Sink};
use std::alloc::Global;

/// An output for a room of the caller. It keeps the first bytes of the text that is written, as many as the room holds,
/// and counts all bytes. Once a byte is not kept, because the room is full or memory ran out, no later byte is kept. No
/// write fails.
#[derive(Drop)]
pub struct RoomSink {
    first: Vec<u8>,
    room: usize,
    len: u64,
    text: WholeText,
    ghost first_is: { first.items ≡ take (length first.items) text.bytes },
    ghost len_is: { len ≡ whole_length text.bytes },
}

impl RoomSink {
    ghost use Rattle.mh_page.specs.Devices.{text_written, IsWhole, KeepsFor};

    /// An output for a room of this size.
    pub fn new(alloc: Global, room: usize) -> Self
        ensures { text_written result ≡ [] }
    {
        RoomSink {
            first: Vec::new(alloc),
            room,
            len: 0,
            text: WholeText::new(),
        }
    }

    /// Whether the output has kept as many first bytes as a room of this size holds. It has, unless memory ran out.
    pub fn keeps_for(&self, room: usize) -> bool
        ensures { IsTrue result → KeepsFor self.now room }
    {
        let kept = self.first.len();
        kept >= room || kept as u64 == self.len
    }

    /// How many more bytes are kept: as many as the room still holds, or none if an earlier byte was not kept.
    fn free(&self) -> usize
        ensures { 0 < result → IsWhole self.now }
    {
        if self.first.len() as u64 == self.len {
            self.room.saturating_sub(self.first.len())
        } else {
            0
        }
    }

    /// Puts the first bytes into the room, as many as the room holds, and sets `len` to the number of all bytes.
    pub fn fill(&self, room: &mut [u8], len: &mut u64)
        requires { KeepsFor self.now (length room.old) }
        ensures { Holds (text_written self.now) room.old room.new len.new }
    {
        let count = self.first.len().min(room.len());
        room[..count].copy_from_slice(&self.first[..count]);
        *len = self.len;
    }
}

impl Sink for RoomSink {
    ghost written = { λ s. Some s.text.bytes };

    ghost faults = { λ _. 0 };

    ghost MayWrite = { λ _. ⊤ };

    fn write(&mut self, piece: &[u8]) -> Result<usize, Failed> {
        let count = piece.len().min(self.free());
        // If memory runs out, no byte of the piece is kept.
        let _kept = self.first.extend_from_slice(&piece[..count]);
        self.len = self.len.saturating_add(piece.len() as u64);
        self.text = self.text.followed_by(&Piece { bytes: piece });
        Ok(piece.len())
    }
}
