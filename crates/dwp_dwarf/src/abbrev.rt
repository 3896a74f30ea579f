//! Abbreviations and their table (DWARF 5, 7.5.3).

ghost use Rattle.std.specs.Prelude.{IfOk, Ok, Some, ℕ, ◌≡◌};
ghost use Rattle.dwp_dwarf.specs.Abbreviations.{children_at, past_specifications, specification_at};
ghost use Rattle.dwp_dwarf.specs.Abbreviations.{declaration, Declaration, declaration_at, is_last};
ghost use Rattle.dwp_dwarf.specs.Declarations.{declaration_of, next_of, specification_of, table_of};
ghost use Rattle.dwp_dwarf.specs.Declarations.{found_of};
ghost use Rattle.dwp_base.specs.Reading.{Answers, Reads};
ghost use Rattle.dwp_bytes.specs.{Input.Input, Leb.uleb_at};
ghost use Rattle.dwp_dwarf.specs.{Abbreviations.tag_at, Grammar.next_at, Offsets.from_at};

use crate::value::IMPLICIT_CONST;
use dwp_bytes::{ReadError, Reader};
use dwp_units::read_code;

/// An attribute and its form, as an abbreviation lists them.
#[derive(Clone, Copy)]
pub(crate) struct AttributeSpecification {
    pub(crate) name: u64,
    pub(crate) form: u64,
}

/// An abbreviation's declaration (DWARF 5, 7.5.3).
#[derive(Clone, Copy, Debug)]
pub struct Abbreviation<R> {
    pub(crate) tag: u64,
    pub(crate) has_children: bool,
    pub(crate) specifications: R,
}

/// A table of abbreviations.
#[derive(Clone, Copy, Debug)]
pub struct Abbreviations<R> {
    pub(crate) table: R,
}

/// The fewest bytes of an attribute and its form.
pub(crate) const SPECIFICATION_SIZE: usize = 2;

/// What stands from an offset of a section on. OffsetOutOfRange past the end.
#[tactic(auto, unfolding(crate::specs::Offsets::from_at))]
pub(crate) fn from_offset<R: Reader>(section: R, offset: u64) -> Result<R, ReadError>
    ensures { Answers R.input result (from_at offset (R.input section)) }
{
    let mut rest = section;
    if rest.len() < offset as usize {
        return Err(ReadError::OffsetOutOfRange);
    }
    rest.skip(offset as usize)?;
    Ok(rest)
}

/// A number of variable length. Most have one byte, which is looked at first.
#[inline(always)]
#[tactic(auto, unfolding(dwp_bytes::specs::Leb::uleb_at, dwp_bytes::specs::Leb::leb_at, dwp_bytes::specs::Input::byte_at))]
fn read_number<R: Reader>(reader: &mut R) -> Result<u64, ReadError>
    ensures { Reads (λ x. x) result (R.input reader.old) (R.input reader.new) uleb_at }
{
    let bytes = reader.to_slice();
    if bytes.is_empty() || bytes[0] >= 0x80 {
        return reader.read_uleb128();
    }
    match reader.read_u8() {
        Ok(byte) => Ok(u64::from(byte)),
        Err(error) => Err(error),
    }
}

/// The next attribute and its form.
#[inline(always)]
#[tactic(auto, unfolding(crate::specs::Abbreviations::specification_at, crate::specs::Abbreviations::constant_at))]
pub(crate) fn read_specification<R: Reader>(
    reader: &mut R,
) -> Result<AttributeSpecification, ReadError>
    ensures { Reads specification_of result (R.input reader.old) (R.input reader.new)
        specification_at }
{
    let mut at = *reader;
    let name = read_number(&mut at)?;
    let form = read_number(&mut at)?;
    if form == IMPLICIT_CONST {
        at.read_sleb128()?;
    }
    *reader = at;
    Ok(AttributeSpecification { name, form })
}

/// What comes behind a list of attributes and its end.
#[tactic(auto, using(crate::proofs::Tables::specifications_cases, crate::proofs::Tables::past_other))]
fn after_specifications<R: Reader>(mut at: R) -> Result<R, ReadError>
    ensures { Answers R.input result (past_specifications (R.input at)) }
{
    loop {
        let specification = read_specification(&mut at)?;
        if specification.is_last() {
            return Ok(at);
        }
    }
}

#[tactic(auto, unfolding(crate::specs::Abbreviations::tag_at))]
fn read_tag<R: Reader>(reader: &mut R) -> Result<u64, ReadError>
    ensures { Reads (λ x. x) result (R.input reader.old) (R.input reader.new) tag_at }
{
    let mut at = *reader;
    let tag = read_number(&mut at)?;
    if tag == 0 {
        return Err(ReadError::ZeroTag);
    }
    *reader = at;
    Ok(tag)
}

#[tactic(auto, unfolding(crate::specs::Abbreviations::children_at))]
fn read_children<R: Reader>(reader: &mut R) -> Result<bool, ReadError>
    ensures { Reads (λ x. x) result (R.input reader.old) (R.input reader.new) children_at }
{
    let mut at = *reader;
    let byte = at.read_u8()?;
    if byte > 1 {
        return Err(ReadError::BadChildren);
    }
    *reader = at;
    Ok(byte == 1)
}

/// A declaration behind its code.
#[tactic(auto, using(crate::proofs::Tables::passed_list), unfolding(crate::specs::Abbreviations::declaration_at))]
fn read_declaration<R: Reader>(reader: &mut R) -> Result<Abbreviation<R>, ReadError>
    ensures { Reads (declaration_of R.input) result (R.input reader.old) (R.input reader.new)
        declaration_at }
{
    let mut specifications = *reader;
    let tag = read_tag(&mut specifications)?;
    let has_children = read_children(&mut specifications)?;
    *reader = after_specifications(specifications)?;
    Ok(Abbreviation {
        tag,
        has_children,
        specifications,
    })
}

/// The declaration that stands there with its code, where one is known to: its list isn't gone
/// over.
#[tactic(auto, using(crate::proofs::Tables::passed_list), unfolding(crate::specs::Abbreviations::declaration_at, crate::specs::Grammar::next_at))]
pub(crate) fn known_declaration<R: Reader>(mut at: R) -> Result<Abbreviation<R>, ReadError>
    ensures { IfOk result (λ found. (x : (ℕ × Declaration) × Input)
        → next_at (R.input at) ≡ Ok (Some x) → x.0.1 ≡ declaration_of R.input found) }
{
    let _code = read_code(&mut at)?;
    let tag = read_tag(&mut at)?;
    let has_children = read_children(&mut at)?;
    Ok(Abbreviation {
        tag,
        has_children,
        specifications: at,
    })
}

/// The next declaration with its code, and what comes behind it; None at the end of the table.
#[tactic(auto, unfolding(crate::specs::Grammar::next_at))]
pub(crate) fn next_declaration<R: Reader>(
    mut at: R,
) -> Result<Option<(u64, Abbreviation<R>, R)>, ReadError>
    ensures { Answers (next_of R.input) result (next_at (R.input at)) }
{
    let code = read_code(&mut at)?;
    if code == 0 {
        return Ok(None);
    }
    let abbreviation = read_declaration(&mut at)?;
    Ok(Some((code, abbreviation, at)))
}

/// The first declaration of a code in what is left of a table, which is read no further.
#[tactic(auto, using(crate::proofs::Tables::look_up))]
pub(crate) fn find_declaration<R: Reader>(
    rest: &mut R,
    code: u64,
) -> Result<Option<Abbreviation<R>>, ReadError>
    ensures { Answers (found_of R.input) result (declaration code (R.input rest.old)) }
{
    while let Some((found, abbreviation, behind)) = next_declaration(*rest)? {
        *rest = behind;
        if found == code {
            return Ok(Some(abbreviation));
        }
    }
    Ok(None)
}

impl AttributeSpecification {
    pub(crate) fn is_last(&self) -> bool
        ensures { result ≡ is_last (specification_of self.now) }
    {
        self.name == 0 && self.form == 0
    }
}

impl<R: Reader> Abbreviations<R> {
    /// The table at an offset of the section of abbreviations. Errors: `OffsetOutOfRange` past the
    /// section's end.
    pub fn new(section: R, offset: u64) -> Result<Abbreviations<R>, ReadError>
        ensures { Answers (table_of R.input) result (from_at offset (R.input section)) }
    {
        let table = from_offset(section, offset)?;
        Ok(Abbreviations { table })
    }

    /// The first declaration of a code; None where the table has none. The table is read no
    /// further, so that errors after it don't count. Errors: `ZeroTag`, `BadChildren`, `BigLeb` or
    /// `UnexpectedEof` for an error before the declaration and before the table's end.
    pub fn get(&self, code: u64) -> Result<Option<Abbreviation<R>>, ReadError>
        ensures { Answers (found_of R.input) result (declaration code (table_of R.input self.now)) }
    {
        let mut rest = self.table;
        find_declaration(&mut rest, code)
    }
}

impl<R: Reader> Abbreviation<R> {
    /// The tag of an entry with this abbreviation.
    pub fn tag(&self) -> u64
        ensures { result ≡ (declaration_of R.input self.now).tag }
    {
        self.tag
    }

    /// Whether such an entry has children.
    pub fn has_children(&self) -> bool
        ensures { result ≡ (declaration_of R.input self.now).children }
    {
        self.has_children
    }
}
