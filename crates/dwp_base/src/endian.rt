//! Byte orders, and the numbers that they write (ELF gABI, "Data Encoding").

ghost use Rattle.std.specs.Prelude.{◌≡◌, ◌≤◌, length};
ghost use Rattle.dwp_base.specs.Numbers.{number, number_bytes};

use byteorder::{BigEndian, ByteOrder, LittleEndian};
use std::alloc::AllocError;

/// The order of the bytes of a number in a file (ELF gABI, "Data Encoding").
#[derive(Clone, Copy, Debug, PartialEq, Eq, Hash)]
pub enum Endianness {
    /// The lowest byte first.
    Little,
    /// The highest byte first.
    Big,
}

impl Endianness {
    /// The number in the first two bytes.
    pub fn read_u16(self, bytes: &[u8]) -> u16
        requires { 2 ≤ length bytes.now }
        ensures { result ≡ number self 2 bytes.now }
    {
        match self {
            Endianness::Little => LittleEndian::read_u16(bytes),
            Endianness::Big => BigEndian::read_u16(bytes),
        }
    }

    /// The number in the first four bytes.
    pub fn read_u32(self, bytes: &[u8]) -> u32
        requires { 4 ≤ length bytes.now }
        ensures { result ≡ number self 4 bytes.now }
    {
        match self {
            Endianness::Little => LittleEndian::read_u32(bytes),
            Endianness::Big => BigEndian::read_u32(bytes),
        }
    }

    /// The number in the first eight bytes.
    pub fn read_u64(self, bytes: &[u8]) -> u64
        requires { 8 ≤ length bytes.now }
        ensures { result ≡ number self 8 bytes.now }
    {
        match self {
            Endianness::Little => LittleEndian::read_u64(bytes),
            Endianness::Big => BigEndian::read_u64(bytes),
        }
    }

    /// The two bytes of a number.
    pub fn bytes_of_u16(self, x: u16) -> [u8; 2]
        ensures { result ≡ number_bytes self 2 x }
    {
        match self {
            Endianness::Little => x.to_le_bytes(),
            Endianness::Big => x.to_be_bytes(),
        }
    }

    /// The four bytes of a number.
    pub fn bytes_of_u32(self, x: u32) -> [u8; 4]
        ensures { result ≡ number_bytes self 4 x }
    {
        match self {
            Endianness::Little => x.to_le_bytes(),
            Endianness::Big => x.to_be_bytes(),
        }
    }

    /// The eight bytes of a number.
    pub fn bytes_of_u64(self, x: u64) -> [u8; 8]
        ensures { result ≡ number_bytes self 8 x }
    {
        match self {
            Endianness::Little => x.to_le_bytes(),
            Endianness::Big => x.to_be_bytes(),
        }
    }
}
