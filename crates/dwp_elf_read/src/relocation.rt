//! The relocations of a section, in file order (ELF gABI, "Relocation").

ghost use Rattle.std.specs.Prelude.{◌≡◌, ◌+◌, ◌*◌, ◌≤◌, length};
ghost use Rattle.dwp_elf_read.specs.Relocation.{relocation_at, relocation_size};

use crate::error::ReadError;
use crate::file::ElfFile;
use crate::image::{Image, word_size_of};
use crate::section::Section;
use dwp_base::Class;

/// The types of sections of relocations with an addend and without one.
const SHT_RELA: u32 = 4;

const SHT_REL: u32 = 9;

/// A relocation as it stands in a file (ELF gABI, "Relocation").
#[derive(Clone, Copy, Debug, PartialEq, Eq, Hash)]
pub struct RawRelocation {
    /// The place of the number that is relocated, in its section.
    pub offset: u64,
    /// The relocation's type.
    pub kind: u32,
    /// The symbol's number.
    pub symbol: u32,
    /// The number of the section that has the table of symbols (`sh_link`).
    pub table: u32,
    /// What is added to the symbol's value; 0 where the addend is implicit.
    pub addend: i64,
    /// Whether the number that stands at the place is added as well.
    pub implicit_addend: bool,
}

fn size_of_entry(class: Class, explicit: bool) -> usize
    ensures { result ≡ relocation_size class explicit }
{
    let word = word_size_of(class);
    if explicit { 3 * word } else { 2 * word }
}

/// The entry at a place of a table.
#[tactic(auto, unfolding(crate::specs::Relocation::relocation_at))]
fn entry_at(table: &Image, explicit: bool, link: u32, place: usize) -> RawRelocation
    requires { place + relocation_size table.now.class explicit ≤ length table.now.bytes.now }
    ensures { result
        ≡ relocation_at table.now.class table.now.order explicit link table.now.bytes.now place }
{
    let word = word_size_of(table.class);
    let offset = table.word_at(place);
    let info = table.word_at(place + word);
    let end = place + 2 * word;
    let last = if explicit { table.word_at(end) } else { 0 };
    let (kind, symbol, addend) = match table.class {
        Class::Elf32 => (
            info % 0x100,
            info / 0x100,
            i64::from((last as u32).cast_signed()),
        ),
        Class::Elf64 => (
            info % 0x1_0000_0000,
            info / 0x1_0000_0000,
            last.cast_signed(),
        ),
    };
    RawRelocation {
        offset,
        kind: kind as u32,
        symbol: symbol as u32,
        table: link,
        addend,
        implicit_addend: !explicit,
    }
}

/// The entries that are left of a table of relocations.
#[derive(Clone, Copy)]
struct Table<'a> {
    entries: Image<'a>,
    explicit: bool,
    link: u32,
    next: usize,
    count: usize,
    ghost whole: { count * relocation_size entries.class explicit ≤ length entries.bytes.now },
}

impl<'a> Table<'a> {
    ghost use Rattle.std.specs.Prelude.{List, Ok, Result};
    ghost use Rattle.std.specs.Iterator.{YieldsFirstBy};
    ghost use Rattle.dwp_elf_read.specs.Relocation.{entries_then, table_of};
    ghost use Rattle.dwp_elf_read.specs.View.{begun, entries_left, section};
    ghost use Rattle.dwp_elf_read.specs.declared.error.ReadError.{ReadError};

    /// The entries of a section of relocations, which has whole ones.
    #[tactic(auto, unfolding(crate::specs::Relocation::table_of, crate::specs::View::entries_left))]
    fn of(file: &ElfFile<'a>, table: &Section<'a>) -> Result<Table<'a>, ReadError>
        ensures { (rest : List (Result RawRelocation ReadError)) → begun result rest
            ≡ entries_then file.now.image.class file.now.image.order (section table.now)
            (table_of file.now.image.class (section table.now)) rest }
    {
        let explicit = table.kind() == SHT_RELA;
        let size = size_of_entry(file.image.class, explicit);
        let content = table.data().map_err(|_| ReadError::RelocationTable)?;
        if content.len() % size != 0 {
            return Err(ReadError::RelocationTable);
        }
        Ok(Table {
            entries: file.image.with_bytes(content),
            explicit,
            link: table.link(),
            next: 0,
            count: content.len() / size,
        })
    }

    #[tactic(auto, using(crate::proofs::Places::entries_more, crate::proofs::Places::entries_done))]
    fn next_entry(&mut self) -> Option<RawRelocation>
        ensures { YieldsFirstBy (λ entry. Ok entry) entries_left self.old result self.new }
    {
        if self.next >= self.count {
            return None;
        }
        let place = self.next * size_of_entry(self.entries.class, self.explicit);
        let entry = entry_at(&self.entries, self.explicit, self.link, place);
        self.next += 1;
        Some(entry)
    }
}

impl<'a> Section<'a> {
    ghost use Rattle.dwp_elf_read.specs.Relocation.{relocations_of};
    ghost use Rattle.dwp_elf_read.specs.View.{section, file, relocations_left};

    /// The relocations of this section, in file order: those of every section of relocations that
    /// names it.
    #[tactic(auto, unfolding(crate::specs::View::section, crate::specs::View::file, crate::specs::Elf::section_of, crate::specs::View::relocations_left, crate::specs::View::entries_left, crate::specs::Relocation::entries_from, crate::specs::View::elf))]
    pub fn relocations(&self) -> Relocations<'a>
        ensures { relocations_left result
            ≡ relocations_of (file self.now) (section self.now).number }
    {
        Relocations {
            file: self.file,
            target: self.number,
            section: 0,
            table: Table {
                entries: self.file.image.with_bytes(&[]),
                explicit: false,
                link: 0,
                next: 0,
                count: 0,
            },
        }
    }
}

/// The relocations of a section, in file order. It ends after the first table that can't be read.
#[derive(Clone, Copy)]
pub struct Relocations<'a> {
    file: ElfFile<'a>,
    target: usize,
    section: usize,
    table: Table<'a>,
}

#[tactic(auto, using(crate::proofs::Places::left_passed, crate::proofs::Places::left_entered, crate::proofs::Places::left_done), unfolding(crate::specs::View::relocations_left, crate::specs::View::entries_left, crate::specs::Relocation::entries_from, crate::specs::Relocation::relocates, crate::specs::View::elf))]
impl<'a> Relocations<'a> {
    ghost use Rattle.std.specs.Prelude.{◌<◌, [], ◌∷◌, OnOk, OnErr, IfErr};
    ghost use Rattle.dwp_elf_read.specs.View.{entries_left, relocations_left};

    /// Goes on to the next section, and to its entries if it has some of the section.
    fn pass_section(&mut self) -> Result<(), ReadError>
        requires next { self.old.section < self.old.file.count }
        requires table { entries_left self.old.table ≡ [] }
        ensures ok { OnOk result (relocations_left self.new ≡ relocations_left self.old) }
        ensures progress { OnOk result (self.new.section ≡ self.old.section + 1) }
        ensures file { self.new.file ≡ self.old.file }
        ensures error { IfErr result (λ e. relocations_left self.old ≡ Err e ∷ []) }
        ensures end { OnErr result (relocations_left self.new ≡ []) }
    {
        let count = self.file.count;
        prove!(self.section < count);
        let section = self.file.section_at(self.section);
        self.section += 1;
        let kind = section.kind();
        if kind != SHT_RELA && kind != SHT_REL || section.info() as usize != self.target {
            return Ok(());
        }
        match Table::of(&self.file, &section) {
            Ok(table) => {
                self.table = table;
                Ok(())
            }
            Err(error) => {
                self.section = count;
                Err(error)
            }
        }
    }
}

impl<'a> Iterator for Relocations<'a> {
    ghost use Rattle.std.specs.Iterator.{YieldsFirst, item_count};
    ghost use Rattle.dwp_elf_read.specs.View.{relocations_left};

    type Item = Result<RawRelocation, ReadError>;

    ghost next_gives = { YieldsFirst relocations_left };

    ghost remaining = { item_count relocations_left };

    #[tactic(auto, using(crate::proofs::Places::left_done, crate::proofs::Places::left_same), unfolding(crate::specs::View::relocations_left))]
    fn next(&mut self) -> Option<Result<RawRelocation, ReadError>> {
        loop {
            if let Some(entry) = self.table.next_entry() {
                return Some(Ok(entry));
            }
            if self.section >= self.file.count {
                return None;
            }
            if let Err(error) = self.pass_section() {
                return Some(Err(error));
            }
        }
    }
}
