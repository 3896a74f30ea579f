//! The headers of a file and of its sections (ELF gABI, "ELF Header" and "Sections").

ghost use Rattle.std.specs.Prelude.{◌≡◌, ℕ, ◌+◌, ◌≤◌, ◌<◌, ◌^◌, ◌*◌, ◌++◌, [], List, length, take};
ghost use Rattle.dwp_elf_read.specs.Layout.{header_size, entry_size, word_size};
ghost use Rattle.dwp_elf.specs.FileText.{identification, file_header, section_header, wide};

use dwp_base::{Class, Endianness};
use std::marker::Model;

/// A relocatable file.
const RELOCATABLE: u16 = 1;
/// The version of the format.
const VERSION: u32 = 1;

/// How many bytes the longest header has.
const ROOM: usize = 64;

/// The bytes of a header so far.
#[derive(Drop)]
pub struct Gathered {
    bytes: [u8; ROOM],
    len: usize,
}

impl Model for Gathered {
    ghost Value = { List ℕ };

    ghost view = { λ h. take h.len h.bytes };

    ghost invariant = { λ h. h.len ≤ 64 };
}

impl Gathered {
    fn new() -> Gathered
        ensures { result ≡ [] }
    {
        Gathered {
            bytes: [0; ROOM],
            len: 0,
        }
    }

    pub fn as_slice(&self) -> &[u8]
        ensures { result.now ≡ self.now }
    {
        &self.bytes[..self.len]
    }

    fn put(&mut self, bytes: &[u8])
        requires { length self.old + length bytes.now ≤ 64 }
        ensures after { self.new ≡ self.old ++ bytes.now }
        ensures len { length self.new ≡ length self.old + length bytes.now }
    {
        let end = self.len + bytes.len();
        self.bytes[self.len..end].copy_from_slice(bytes);
        self.len = end;
    }

    /// Adds an address, an offset or a size, of 4 or 8 bytes by class.
    fn put_wide(&mut self, class: Class, order: Endianness, x: u64)
        requires room { length self.old + word_size class ≤ 64 }
        requires fits { x < 2 ^ (8 * word_size class) }
        ensures after { self.new ≡ self.old ++ wide class order x }
        ensures len { length self.new ≡ length self.old + word_size class }
    {
        match class {
            Class::Elf32 => self.put(&order.bytes_of_u32(x as u32)),
            Class::Elf64 => self.put(&order.bytes_of_u64(x)),
        }
    }
}

/// How many bytes the file header has.
pub fn header_size(class: Class) -> u16
    ensures { result ≡ header_size class }
{
    match class {
        Class::Elf32 => 52,
        Class::Elf64 => 64,
    }
}

/// How many bytes a section header has.
pub fn entry_size(class: Class) -> u16
    ensures { result ≡ entry_size class }
{
    match class {
        Class::Elf32 => 40,
        Class::Elf64 => 64,
    }
}

/// The bytes that tell an ELF file of a class and a byte order.
fn identification(class: Class, endianness: Endianness) -> [u8; 16]
    ensures { result ≡ identification class endianness }
{
    let class = match class {
        Class::Elf32 => 1,
        Class::Elf64 => 2,
    };
    let order = match endianness {
        Endianness::Little => 1,
        Endianness::Big => 2,
    };
    [
        0x7f, b'E', b'L', b'F', class, order, 1, 0, 0, 0, 0, 0, 0, 0, 0, 0,
    ]
}

/// The header of a file whose section headers begin at `headers`, and whose last section has the
/// names.
#[tactic(auto, unfolding(crate::specs::FileText::file_header))]
pub fn file_header(
    class: Class,
    endianness: Endianness,
    machine: u16,
    headers: u64,
    count: u16,
) -> Gathered
    requires fits { headers < 2 ^ (8 * word_size class) }
    requires some { 1 ≤ count }
    ensures { result ≡ file_header class endianness machine headers count }
{
    let mut header = Gathered::new();
    header.put(&identification(class, endianness));
    header.put(&endianness.bytes_of_u16(RELOCATABLE));
    header.put(&endianness.bytes_of_u16(machine));
    header.put(&endianness.bytes_of_u32(VERSION));
    header.put_wide(class, endianness, 0);
    header.put_wide(class, endianness, 0);
    header.put_wide(class, endianness, headers);
    header.put(&endianness.bytes_of_u32(0));
    header.put(&endianness.bytes_of_u16(header_size(class)));
    header.put(&endianness.bytes_of_u16(0));
    header.put(&endianness.bytes_of_u16(0));
    header.put(&endianness.bytes_of_u16(entry_size(class)));
    header.put(&endianness.bytes_of_u16(count));
    header.put(&endianness.bytes_of_u16(count - 1));
    header
}

/// The header of a section with its name at `name` of the name table and its content at `place` of
/// the file.
#[tactic(auto, unfolding(crate::specs::FileText::section_header))]
pub fn section_header(
    class: Class,
    endianness: Endianness,
    name: u32,
    kind: u32,
    place: u64,
    size: u64,
) -> Gathered
    requires place_fits { place < 2 ^ (8 * word_size class) }
    requires size_fits { size < 2 ^ (8 * word_size class) }
    ensures { result ≡ section_header class endianness name kind place size }
{
    let mut header = Gathered::new();
    header.put(&endianness.bytes_of_u32(name));
    header.put(&endianness.bytes_of_u32(kind));
    header.put_wide(class, endianness, 0);
    header.put_wide(class, endianness, 0);
    header.put_wide(class, endianness, place);
    header.put_wide(class, endianness, size);
    header.put(&endianness.bytes_of_u32(0));
    header.put(&endianness.bytes_of_u32(0));
    header.put_wide(class, endianness, 1);
    header.put_wide(class, endianness, 0);
    header
}
