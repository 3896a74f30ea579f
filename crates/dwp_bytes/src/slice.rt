//! Readers of bytes in memory.

ghost use Rattle.std.specs.Prelude.{◌≡◌, ◌+◌, ◌<◌, ◌^◌, length};
ghost use Rattle.dwp_bytes.specs.Input.{section};

use crate::encoding::Format;
use crate::error::ReadError;
use crate::reader::Reader;
use dwp_base::Endianness;

/// A reader of bytes that stand in memory.
#[derive(Clone, Copy, Debug)]
pub struct SliceReader<'a> {
    order: Endianness,
    place: usize,
    bytes: &'a [u8],
    ghost in_memory: { place + length bytes.now < 2 ^ 64 },
}

impl<'a> SliceReader<'a> {
    /// A reader of a section from its start.
    pub fn new(bytes: &'a [u8], order: Endianness) -> Self
        ensures { ⟦<SliceReader<'a> as Reader>⟧.input result ≡ section order bytes.now }
    {
        SliceReader {
            order,
            place: 0,
            bytes,
        }
    }

    /// The bytes that are left.
    pub fn slice(&self) -> &'a [u8]
        ensures { result.now ≡ (⟦<SliceReader<'a> as Reader>⟧.input self.now).bytes }
    {
        self.bytes
    }
}

impl<'a> Reader for SliceReader<'a> {
    ghost input = { λ r. record {
      order = r.order;
      relocated = λ place stored. stored;
      place = r.place;
      bytes = r.bytes.now;
    } };

    fn endian(&self) -> Endianness {
        self.order
    }

    fn offset_from(&self, base: &Self) -> usize {
        self.place.saturating_sub(base.place)
    }

    fn to_slice(&self) -> &[u8] {
        self.slice()
    }

    #[tactic(auto, unfolding(crate::specs::Input::split_at))]
    fn split(&mut self, n: usize) -> Result<Self, ReadError> {
        if self.bytes.len() < n {
            return Err(ReadError::UnexpectedEof);
        }
        let (front, rest) = self.bytes.split_at(n);
        let mut piece = *self;
        piece.bytes = front;
        self.bytes = rest;
        self.place += n;
        Ok(piece)
    }

    #[tactic(auto, unfolding(crate::specs::Input::sized_at, crate::specs::Input::relocated_at, crate::specs::Input::number_at, crate::specs::Input::byte_at))]
    fn read_address(&mut self, address_size: u8) -> Result<u64, ReadError> {
        match address_size {
            1 => Ok(u64::from(self.read_u8()?)),
            2 => Ok(u64::from(self.read_u16()?)),
            4 => Ok(u64::from(self.read_u32()?)),
            8 => self.read_u64(),
            _ => Err(ReadError::AddressSize),
        }
    }

    #[tactic(auto, unfolding(crate::specs::Input::offset_at, crate::specs::Input::relocated_at, crate::specs::Input::number_at))]
    fn read_length(&mut self, format: Format) -> Result<u64, ReadError> {
        match format {
            Format::Dwarf32 => Ok(u64::from(self.read_u32()?)),
            Format::Dwarf64 => self.read_u64(),
        }
    }
}
