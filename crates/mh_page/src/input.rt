//! The input that a caller gives.
ghost use Rattle.std.specs.Prelude.{Some, ⊤};

use mh_outside::{Failed, Source};

/// The bytes of the input that are not read yet. No read fails.
#[derive(Drop)]
pub struct InputBytes<'a> {
    rest: &'a [u8],
}

impl<'a> InputBytes<'a> {
    ghost use Rattle.std.specs.Prelude.{◌≡◌};
    ghost use Rattle.mh_page.specs.Devices.{bytes_left};

    /// An input of these bytes.
    pub fn new(bytes: &'a [u8]) -> Self
        ensures { bytes_left result ≡ bytes.now }
    {
        InputBytes { rest: bytes }
    }
}

impl Source for InputBytes<'_> {
    ghost left = { λ s. Some s.rest.now };

    ghost faults = { λ _. 0 };

    ghost MayRead = { λ _. ⊤ };

    fn read(&mut self, buf: &mut [u8]) -> Result<usize, Failed> {
        let count = buf.len().min(self.rest.len());
        buf[..count].copy_from_slice(&self.rest[..count]);
        self.rest = &self.rest[count..];
        Ok(count)
    }
}
