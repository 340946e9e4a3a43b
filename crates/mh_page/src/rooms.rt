//! The rooms of the caller.
ghost use Rattle.mh_page.specs.Rooms.{Holds};

/// Puts the first bytes of a text into a room, as many as the room holds, and sets `len` to the number of all bytes.
pub fn fill(room: &mut [u8], len: &mut u64, text: &[u8])
    ensures { Holds text.now room.old room.new len.new }
{
    let count = text.len().min(room.len());
    room[..count].copy_from_slice(&text[..count]);
    *len = text.len() as u64;
}
