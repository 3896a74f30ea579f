//! What readers of DWARF data do (DWARF 5, 7.4 to 7.6).

ghost use Rattle.std.specs.Prelude.{◌≡◌, ◌-◌, ◌==◌, length, MatchResult, OnErr};
ghost use Rattle.std.specs.Str.{IsUtf8};
ghost use Rattle.dwp_base.specs.Reading.{Answers, Reads};
ghost use Rattle.dwp_bytes.specs.Leb.{uleb_at, sleb_at};
ghost use Rattle.dwp_bytes.specs.Input.{Input, front, found_at, bytes_at, split_at, skip_at};
ghost use Rattle.dwp_bytes.specs.Input.{truncate_at, byte_at, number_at, sized_at, offset_at};

use crate::encoding::Format;
use crate::error::ReadError;
use byteorder::{BigEndian, ByteOrder, LittleEndian};
use dwp_base::Endianness;
use memchr::memchr;

/// Reads DWARF data from the front. What is read is a range of the bytes handed in, a call that
/// refuses leaves the reader as it was, and places are counted from the start of the section.
pub trait Reader: Copy {
    ghost input: { Self → Input };

    /// The order of the bytes of a number.
    fn endian(&self) -> Endianness
        ensures { result ≡ (input self.now).order };

    /// How far this reader stands behind `base`, a reader of the same section, in bytes.
    fn offset_from(&self, base: &Self) -> usize
        ensures { result ≡ (input self.now).place - (input base.now).place };

    /// The bytes that are left.
    fn to_slice(&self) -> &[u8]
        ensures { result.now ≡ (input self.now).bytes };

    /// The next `n` bytes as a reader; this one keeps the rest. Errors: `UnexpectedEof` where fewer
    /// are left.
    fn split(&mut self, n: usize) -> Result<Self, ReadError>
        ensures { Reads input result (input self.old) (input self.new) (split_at n) };

    /// An address of that many bytes, relocated. Errors: `AddressSize` unless it has 1, 2, 4 or 8
    /// bytes, `UnexpectedEof` where fewer are left.
    fn read_address(&mut self, address_size: u8) -> Result<u64, ReadError>
        ensures { Reads (λ x. x) result (input self.old) (input self.new) (sized_at address_size) };

    /// A length of the format's size, relocated. Errors: `UnexpectedEof` where fewer bytes are
    /// left.
    fn read_length(&mut self, format: Format) -> Result<u64, ReadError>
        ensures { Reads (λ x. x) result (input self.old) (input self.new) (offset_at format) };

    /// An offset of the format's size, relocated. Errors: `UnexpectedEof` where fewer bytes are
    /// left.
    fn read_offset(&mut self, format: Format) -> Result<u64, ReadError>
        ensures { Reads (λ x. x) result (input self.old) (input self.new) (offset_at format) }
    {
        self.read_length(format)
    }

    /// An offset of that many bytes, relocated. Errors: `AddressSize` unless it has 1, 2, 4 or 8
    /// bytes, `UnexpectedEof` where fewer are left.
    fn read_sized_offset(&mut self, size: u8) -> Result<u64, ReadError>
        ensures { Reads (λ x. x) result (input self.old) (input self.new) (sized_at size) }
    {
        self.read_address(size)
    }

    /// How many bytes are left.
    fn len(&self) -> usize
        ensures { result ≡ length (input self.now).bytes }
    {
        self.to_slice().len()
    }

    /// Whether no byte is left.
    fn is_empty(&self) -> bool
        ensures { result ≡ (length (input self.now).bytes == 0) }
    {
        self.to_slice().is_empty()
    }

    /// Passes over the next `n` bytes. Errors: `UnexpectedEof` where fewer are left.
    #[tactic(auto, unfolding(crate::specs::Input::split_at, crate::specs::Input::skip_at))]
    fn skip(&mut self, n: usize) -> Result<(), ReadError>
        ensures { Reads (λ x. x) result (input self.old) (input self.new) (skip_at n) }
    {
        self.split(n)?;
        Ok(())
    }

    /// Drops all but the first `n` bytes. Errors: `UnexpectedEof` where fewer are left.
    #[tactic(auto, unfolding(crate::specs::Input::split_at, crate::specs::Input::truncate_at))]
    fn truncate(&mut self, n: usize) -> Result<(), ReadError>
        ensures { Reads (λ x. x) result (input self.old) (input self.new) (truncate_at n) }
    {
        *self = self.split(n)?;
        Ok(())
    }

    /// The next byte. Errors: `UnexpectedEof` where none is left.
    #[tactic(auto, unfolding(crate::specs::Input::split_at, crate::specs::Input::byte_at))]
    fn read_u8(&mut self) -> Result<u8, ReadError>
        ensures { Reads (λ x. x) result (input self.old) (input self.new) byte_at }
    {
        let piece = self.split(1)?;
        Ok(piece.to_slice()[0])
    }

    /// The number in the next two bytes. Errors: `UnexpectedEof` where fewer are left.
    #[tactic(auto, unfolding(crate::specs::Input::split_at, crate::specs::Input::number_at))]
    fn read_u16(&mut self) -> Result<u16, ReadError>
        ensures { Reads (λ x. x) result (input self.old) (input self.new) (number_at 2) }
    {
        let order = self.endian();
        let piece = self.split(2)?;
        Ok(order.read_u16(piece.to_slice()))
    }

    /// The number in the next three bytes. Errors: `UnexpectedEof` where fewer are left.
    #[tactic(auto, unfolding(crate::specs::Input::split_at, crate::specs::Input::number_at))]
    fn read_u24(&mut self) -> Result<u32, ReadError>
        ensures { Reads (λ x. x) result (input self.old) (input self.new) (number_at 3) }
    {
        let order = self.endian();
        let piece = self.split(3)?;
        Ok(match order {
            Endianness::Little => LittleEndian::read_u24(piece.to_slice()),
            Endianness::Big => BigEndian::read_u24(piece.to_slice()),
        })
    }

    /// The number in the next four bytes. Errors: `UnexpectedEof` where fewer are left.
    #[tactic(auto, unfolding(crate::specs::Input::split_at, crate::specs::Input::number_at))]
    fn read_u32(&mut self) -> Result<u32, ReadError>
        ensures { Reads (λ x. x) result (input self.old) (input self.new) (number_at 4) }
    {
        let order = self.endian();
        let piece = self.split(4)?;
        Ok(order.read_u32(piece.to_slice()))
    }

    /// The number in the next eight bytes. Errors: `UnexpectedEof` where fewer are left.
    #[tactic(auto, unfolding(crate::specs::Input::split_at, crate::specs::Input::number_at))]
    fn read_u64(&mut self) -> Result<u64, ReadError>
        ensures { Reads (λ x. x) result (input self.old) (input self.new) (number_at 8) }
    {
        let order = self.endian();
        let piece = self.split(8)?;
        Ok(order.read_u64(piece.to_slice()))
    }

    /// Fills the buffer with the next bytes. Errors: `UnexpectedEof` where fewer are left; the
    /// buffer is then as it was.
    #[tactic(auto, unfolding(crate::specs::Input::split_at, crate::specs::Input::bytes_at))]
    fn read_slice(&mut self, buffer: &mut [u8]) -> Result<(), ReadError>
        ensures read { Reads (λ _. buffer.new) result (input self.old) (input self.new)
            (bytes_at (length buffer.old)) }
        ensures refused { OnErr result (buffer.new ≡ buffer.old) }
    {
        let piece = self.split(buffer.len())?;
        buffer.copy_from_slice(piece.to_slice());
        Ok(())
    }

    /// Drops all bytes that are left.
    #[tactic(auto, unfolding(crate::specs::Input::split_at))]
    fn empty(&mut self)
        ensures { input self.new ≡ front 0 (input self.old) }
    {
        if let Ok(piece) = self.split(0) {
            *self = piece;
        }
    }

    /// How far ahead the first such byte stands. Errors: `NoTerminator` where there is none.
    fn find(&self, byte: u8) -> Result<usize, ReadError>
        ensures { Answers (λ x. x) result (found_at byte (input self.now).bytes) }
    {
        memchr(byte, self.to_slice()).ok_or(ReadError::NoTerminator)
    }

    /// The bytes that are left, as a text. Errors: `BadUtf8` where they are none.
    fn to_string(&self) -> Result<&str, ReadError>
        ensures { MatchResult result (λ s. s.now ≡ (input self.now).bytes) (λ e.
            (e ≡ ReadError.BadUtf8) × ¬ (IsUtf8 (input self.now).bytes)) }
    {
        str::from_utf8(self.to_slice()).map_err(|_| ReadError::BadUtf8)
    }

    /// An unsigned number of variable length. Errors: `BigLeb` past 10 bytes or 64 bits,
    /// `UnexpectedEof` where the bytes end before the number.
    #[tactic(auto, using(crate::proofs::Reading::small, crate::proofs::Reading::seven_more))]
    fn read_uleb128(&mut self) -> Result<u64, ReadError>
        ensures { Reads (λ x. x) result (input self.old) (input self.new) uleb_at }
    {
        let mut at = *self;
        let mut value = 0;
        let mut scale = 1;
        for _ in 0..9_u32 {
            let byte = at.read_u8()?;
            if byte < 0x80 {
                *self = at;
                return Ok(value + u64::from(byte) * scale);
            }
            value += u64::from(byte - 0x80) * scale;
            scale *= 0x80;
        }
        let last = at.read_u8()?;
        if last > 1 {
            return Err(ReadError::BigLeb);
        }
        *self = at;
        Ok(value + u64::from(last) * scale)
    }

    /// A signed number of variable length. Errors: `BigLeb` past 10 bytes or 64 bits,
    /// `UnexpectedEof` where the bytes end before the number.
    #[tactic(auto, using(crate::proofs::Reading::small, crate::proofs::Reading::seven_more))]
    fn read_sleb128(&mut self) -> Result<i64, ReadError>
        ensures { Reads (λ x. x) result (input self.old) (input self.new) sleb_at }
    {
        let mut at = *self;
        let mut value: u64 = 0;
        let mut scale: u64 = 1;
        for _ in 0..9_u32 {
            let byte = at.read_u8()?;
            if byte < 0x40 {
                *self = at;
                return Ok((value + u64::from(byte) * scale) as i64);
            }
            if byte < 0x80 {
                *self = at;
                return Ok(value as i64 - (u64::from(0x80 - byte) * scale) as i64);
            }
            value += u64::from(byte - 0x80) * scale;
            scale *= 0x80;
        }
        let number = match at.read_u8()? {
            0 => value as i64,
            0x7f => value as i64 + i64::MIN,
            _ => return Err(ReadError::BigLeb),
        };
        *self = at;
        Ok(number)
    }
}
