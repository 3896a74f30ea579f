//! What a relocation makes of a stored number (ELF gABI, "Relocation"), and readers of sections
//! that have relocations.

ghost use Rattle.std.specs.Prelude.{◌≡◌, ◌≤◌, IsTrue, ⊤};
ghost use Rattle.dwp_bytes.specs.Relocation.{ascends, relocated_by, relocated_input, value_of};

use crate::encoding::Format;
use crate::error::ReadError;
use crate::reader::Reader;
use dwp_base::Endianness;
use std::alloc::AllocError;

/// What a relocation makes of the number stored at its place.
#[derive(Clone, Copy, Debug, PartialEq, Eq, Hash)]
pub struct Relocation {
    /// The addend, with the symbol's value added in.
    pub addend: u64,
    /// Whether the stored number is added to it.
    pub implicit_addend: bool,
}

impl Relocation {
    /// The relocated number: the addend, or the stored number plus it, wrapping at 64 bits.
    pub fn value(self, stored: u64) -> u64
        ensures { result ≡ value_of self stored }
    {
        if self.implicit_addend {
            stored.wrapping_add(self.addend)
        } else {
            self.addend
        }
    }
}

/// A relocation and its place in the section, in bytes from the section's start.
#[derive(Clone, Copy, Debug, PartialEq, Eq, Hash)]
pub struct RelocationEntry {
    /// Where the number is stored.
    pub offset: usize,
    /// What becomes of it.
    pub relocation: Relocation,
}

/// What stands for a number stored at an offset of the section: the list is searched by halves.
fn relocated(relocations: &[RelocationEntry], offset: usize, stored: u64) -> u64
    requires { IsTrue (ascends relocations.now) }
    ensures { result ≡ relocated_by relocations.now offset stored }
{
    match relocations.binary_search_by_key(&offset, |entry| entry.offset) {
        Ok(index) => relocations[index].relocation.value(stored),
        Err(_) => stored,
    }
}

/// A reader of a section whose addresses, lengths and offsets are relocated as they are read, and
/// no other number is.
#[derive(Debug)]
pub struct Relocate<'a, R: Reader> {
    /// The relocations, by ascending offset, one at most at each.
    pub relocations: &'a [RelocationEntry],
    /// A reader at the section's start.
    pub section: R,
    /// Reads on in the section.
    pub reader: R,
    ghost ordered: { IsTrue (ascends relocations.now) },
    ghost inside: { (R.input section).place ≤ (R.input reader).place },
}

impl<'a, R: Reader> Relocate<'a, R> {
    /// Reads a section from its start, by relocations whose offsets ascend.
    pub fn new(relocations: &'a [RelocationEntry], section: R) -> Self
        requires { IsTrue (ascends relocations.now) }
        ensures { ⟦<Relocate<'a, R> as Reader>⟧.input result
            ≡ relocated_input relocations.now (R.input section).place (R.input section) }
    {
        Relocate {
            relocations,
            section,
            reader: section,
        }
    }
}

impl<'a, R: Reader> Copy for Relocate<'a, R> {}

impl<'a, R: Reader> Clone for Relocate<'a, R> {
    ghost is_clone = { λ x y. (y.relocations ≡ x.relocations) × (y.section ≡ x.section)
        × (y.reader ≡ x.reader) };

    ghost is_infallible = { λ _. ⊤ };

    fn clone(&self) -> Result<Self, AllocError> {
        Ok(Relocate {
            relocations: self.relocations,
            section: self.section,
            reader: self.reader,
        })
    }
}

impl<'a, R: Reader> Reader for Relocate<'a, R> {
    ghost input = { λ r.
        relocated_input r.relocations.now (R.input r.section).place (R.input r.reader) };

    fn endian(&self) -> Endianness {
        self.reader.endian()
    }

    fn offset_from(&self, base: &Self) -> usize {
        self.reader.offset_from(&base.reader)
    }

    fn to_slice(&self) -> &[u8] {
        self.reader.to_slice()
    }

    #[tactic(auto, unfolding(crate::specs::Input::split_at))]
    fn split(&mut self, n: usize) -> Result<Self, ReadError> {
        let piece = self.reader.split(n)?;
        Ok(Relocate {
            relocations: self.relocations,
            section: self.section,
            reader: piece,
        })
    }

    #[tactic(auto, unfolding(crate::specs::Input::sized_at, crate::specs::Input::relocated_at))]
    fn read_address(&mut self, address_size: u8) -> Result<u64, ReadError> {
        let offset = self.reader.offset_from(&self.section);
        let stored = self.reader.read_address(address_size)?;
        Ok(relocated(self.relocations, offset, stored))
    }

    #[tactic(auto, unfolding(crate::specs::Input::offset_at, crate::specs::Input::relocated_at))]
    fn read_length(&mut self, format: Format) -> Result<u64, ReadError> {
        let offset = self.reader.offset_from(&self.section);
        let stored = self.reader.read_length(format)?;
        Ok(relocated(self.relocations, offset, stored))
    }
}
