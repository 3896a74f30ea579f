//! `thorin find`: what it is asked for, and what it tells of a unit, plain and in JSON.

ghost use Rattle.thorin_print.specs.declared.output.Failure.TheVariants as failures;
ghost use Rattle.thorin_find.specs.Finding.{all_text, AsksFor, range_text, words_of, WritesNone};
ghost use Rattle.thorin_find.specs.Finding.{find_answer, range_texts, string_count, string_line};
ghost use Rattle.{dwp_table.specs.Objects.identifier_of, std.specs.Option.option_copied};
ghost use Rattle.std.specs.Prelude.{codes, MatchResult, OnOk, string_bytes, ◌++◌, ◌≡◌};
ghost use Rattle.thorin_find.specs.Finding.{Asks, Finds, Writes};
ghost use Rattle.thorin_find.specs.Lines.{json_unit, short_kind};
ghost use Rattle.thorin_print.specs.{Answers.Comes, Lines.hex16};

use crate::files::{FileReader, read_named};
use dwp_base::{Contribution, SectionKind};
use dwp_index::{PackageFile, PackagedUnit};
use dwp_table::{Bucketable, CONTRIBUTION_KINDS, DebugTypeSignature, DwarfObject, DwoId};
use std::alloc::{AllocError, Global};
use std::io::Write;
use thorin_print::{Failure, Form, answer, put_spelled, put_spelled_or};
use thorin_words::hexadecimal;

/// What is wanted of a unit, and how it is printed.
#[derive(Clone, Copy)]
pub struct FindForm<'a> {
    /// The number of a string, where one is wanted.
    pub string: Option<&'a str>,
    /// The short name of a kind of section, where its bytes are wanted.
    pub section: Option<&'a str>,
    /// In which form it is printed.
    pub form: Form,
}

/// The words that ask for a unit, and what is wanted of it.
#[derive(Clone, Copy)]
pub struct FindWords<'a> {
    /// Its kind: `cu` or `tu`.
    pub kind: &'a str,
    /// Its identifier.
    pub id: &'a str,
    /// What is wanted of it, and how it is printed.
    pub form: FindForm<'a>,
}

/// What is wanted of a unit.
#[derive(Clone, Copy)]
pub(crate) enum Wanted {
    /// All that is told of it.
    AllOf,
    /// The string of a number.
    StringOf(u64),
    /// The bytes of its range of a section.
    Bytes(SectionKind),
}

/// Looks a unit up in a package's file and prints what belongs to it, or what is wanted of that.
/// Its kind is `cu` or `tu`, its identifier 1 to 16 hexadecimal digits, with or without `0x` in
/// front. Answers the status 0. Errors: `BadKind`, then `BadIdentifier`, `BadNumber` or
/// `BadSection`; `Input` where the file can't be read, `Malformed` where it is no package, or a
/// string can't be read, `NoUnit` where it has no such unit, `NoString` or `NoRange` where the unit
/// doesn't have what is wanted; `Line` or `Memory`.
pub fn find_by<F: FileReader, O: Write>(
    alloc: Global,
    files: &F,
    file: &str,
    asked: FindWords<'_>,
    out: &mut O,
) -> Result<u8, Failure>
    ensures { Finds (F.offer files.now) file.now (words_of asked.entry) (O.contents out.old)
        (O.contents out.new) result }
{
    let form = asked.form;
    let object = object(asked.kind, asked.id);
    let wanted = wanted_of(form.string, form.section);
    let object = object?;
    let wanted = wanted?;
    let bytes = read_named(files, file)?;
    find_in(alloc, bytes.as_slice(), object, wanted, form.form, out)
}

/// Looks a unit up in a package's bytes and prints what is wanted of it.
#[tactic(auto, using(thorin_print::proofs::Printed::nothing), unfolding(crate::specs::Finding::find_answer))]
fn find_in<O: Write>(
    alloc: Global,
    bytes: &[u8],
    object: DwarfObject,
    wanted: Wanted,
    form: Form,
    out: &mut O,
) -> Result<u8, Failure>
    ensures { Comes result (find_answer form wanted object bytes.now)
        (O.contents out.old) (O.contents out.new) }
{
    let Ok(package) = PackageFile::parse(bytes) else {
        return Err(Failure::Malformed);
    };
    let Ok((found, slots)) = package.find_counted(object) else {
        return Err(Failure::Malformed);
    };
    let Some(unit) = found else {
        return Err(Failure::NoUnit(object.index()));
    };
    let mut text = String::new(alloc);
    let put = match wanted {
        Wanted::AllOf => put_all(object, &unit, slots, form, &mut text),
        Wanted::StringOf(i) => match unit.string(i) {
            Ok(Some(string)) => put_string_line(string, form, &mut text),
            Ok(None) => return Err(Failure::NoString(i)),
            Err(_) => return Err(Failure::Malformed),
        },
        Wanted::Bytes(kind) => {
            let section = unit.section(kind);
            if section.is_empty() {
                return Err(Failure::NoRange(kind));
            }
            return answer(section, Ok(0), out);
        }
    };
    put?;
    answer(text.as_bytes(), Ok(0), out)
}

/// Adds the line of a string.
fn put_string_line(string: &[u8], form: Form, text: &mut String) -> Result<(), AllocError>
    ensures { OnOk result (string_bytes text.new
        ≡ string_bytes text.old ++ string_line form string.now) }
{
    match form {
        Form::Lines => {
            put_spelled(string, form, text)?;
            text.push_str("\n")
        }
        Form::Json => {
            text.push_str("{\"string\":")?;
            put_spelled_or(Some(string), form, text)?;
            text.push_str("}\n")
        }
    }
}

/// The unit that is asked for: first its kind is tested, then its identifier.
fn object(kind: &str, id: &str) -> Result<DwarfObject, Failure>
    ensures { Asks kind.now id.now result }
{
    match kind {
        "cu" => Ok(DwarfObject::Compilation(DwoId(identifier(id)?))),
        "tu" => Ok(DwarfObject::TypeUnit(DebugTypeSignature(identifier(id)?))),
        _ => Err(Failure::BadKind),
    }
}

/// What is wanted of it: the string of a decimal number, or the bytes of a section.
#[tactic(auto, using(crate::proofs::Sought::number_read))]
fn wanted_of(string: Option<&str>, section: Option<&str>) -> Result<Wanted, Failure>
    ensures { AsksFor (option_copied string.entry) (option_copied section.entry) result }
{
    match (string, section) {
        (Some(text), _) => {
            if text.is_empty() || text.as_bytes()[0] == b'+' {
                return Err(Failure::BadNumber);
            }
            let number = u64::from_str_radix(text, 10)
                .ok()
                .ok_or(Failure::BadNumber)?;
            Ok(Wanted::StringOf(number))
        }
        (None, Some(text)) => {
            let kind = SectionKind::of_short_name(text).ok_or(Failure::BadSection)?;
            Ok(Wanted::Bytes(kind))
        }
        (None, None) => Ok(Wanted::AllOf),
    }
}

/// The identifier that 1 to 16 hexadecimal digits write, with or without `0x` in front.
fn identifier(text: &str) -> Result<u64, Failure>
    ensures { MatchResult result (Writes text.now)
        (λ failure. (failure ≡ failures.BadIdentifier) × WritesNone text.now) }
{
    let digits = text.strip_prefix("0x").unwrap_or(text);
    hexadecimal(digits).ok_or(Failure::BadIdentifier)
}

/// Adds all that is told of a unit: in lines, or as a JSON object.
#[tactic(auto, unfolding(crate::specs::Finding::all_text, crate::specs::Finding::encoding_line, crate::specs::Finding::json_encoding))]
fn put_all(
    object: DwarfObject,
    unit: &PackagedUnit<'_>,
    slots: u32,
    form: Form,
    text: &mut String,
) -> Result<(), AllocError>
    ensures { OnOk result (string_bytes text.new
        ≡ string_bytes text.old ++ all_text form object unit.now slots) }
{
    let encoding = unit.encoding();
    let version = encoding.version;
    let width = 8 * encoding.format.offset_size();
    let address = encoding.address_size;
    let strings = string_count(unit);
    match form {
        Form::Lines => {
            put_object(object, text)?;
            writeln!(text, " version {version} format {width} address {address}")?;
            put_ranges(unit, form, text)?;
            writeln!(text, "strings {strings}\nslots {slots}")
        }
        Form::Json => {
            put_json_unit(object, text)?;
            write!(
                text,
                "\",\"version\":{version},\"format\":{width},\"address\":{address}"
            )?;
            put_ranges(unit, form, text)?;
            writeln!(text, ",\"strings\":{strings},\"slots\":{slots}}}")
        }
    }
}

/// Adds the beginning of the object, up to the unit's identifier.
#[tactic(auto, using(thorin_print::proofs::Hex::hex16_written), unfolding(crate::specs::Lines::json_unit))]
pub fn put_json_unit(object: DwarfObject, text: &mut String) -> Result<(), AllocError>
    ensures { OnOk result (string_bytes text.new
        ≡ string_bytes text.old ++ json_unit object) }
{
    let kind = short_kind(object);
    let id = object.index();
    write!(text, "{{\"kind\":\"{kind}\",\"id\":\"0x{id:016x}")
}

/// Adds each range that a unit has of a section.
#[tactic(auto, unfolding(crate::specs::Finding::range_texts))]
fn put_ranges(unit: &PackagedUnit<'_>, form: Form, text: &mut String) -> Result<(), AllocError>
    ensures { OnOk result (string_bytes text.new
        ≡ string_bytes text.old ++ range_texts form unit.now) }
{
    for kind in &CONTRIBUTION_KINDS {
        put_range(*kind, unit.range(*kind), form, text)?;
    }
    Ok(())
}

/// Adds a range, where there is one.
fn put_range(
    kind: SectionKind,
    range: Option<Contribution>,
    form: Form,
    text: &mut String,
) -> Result<(), AllocError>
    ensures { OnOk result (string_bytes text.new
        ≡ string_bytes text.old ++ range_text form kind range) }
{
    let Some(range) = range else {
        return Ok(());
    };
    let name = kind.short_name();
    let offset = range.offset.0;
    let size = range.size;
    match form {
        Form::Lines => writeln!(text, "{name} 0x{offset:x} 0x{size:x}"),
        Form::Json => write!(text, ",\"{name}\":{{\"offset\":{offset},\"size\":{size}}}"),
    }
}

/// `cu` or `tu`.
pub fn short_kind(object: DwarfObject) -> &'static str
    ensures { result.now ≡ short_kind object }
{
    match object {
        DwarfObject::Compilation(_) => "cu",
        DwarfObject::TypeUnit(_) => "tu",
    }
}

/// Adds a unit's kind and its identifier.
#[tactic(auto, using(thorin_print::proofs::Hex::hex16_written))]
pub fn put_object(object: DwarfObject, text: &mut String) -> Result<(), AllocError>
    ensures { OnOk result (string_bytes text.new ≡ string_bytes text.old
        ++ (short_kind object ++ (codes " 0x" ++ hex16 (identifier_of object)))) }
{
    let kind = short_kind(object);
    let id = object.index();
    write!(text, "{kind} 0x{id:016x}")
}

/// How many strings a unit has, whether or not they can be read.
#[tactic(auto, unfolding(crate::specs::Finding::string_count))]
pub fn string_count(unit: &PackagedUnit<'_>) -> u64
    ensures { result ≡ string_count unit.now }
{
    let offsets = unit.section(SectionKind::StrOffsets);
    unit.encoding().string_offsets_count(offsets.len() as u64)
}
