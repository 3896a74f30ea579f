//! What the reader of packages says of a file.

use test_rows::{Said, Table, number};
use thorin::{
    DebugTypeSignature, DwarfObject, DwoId, PackageError, PackageFile, PackagedUnit, SectionKind,
};

/// Says a unit's name.
pub fn tell_name(said: &mut Said, unit: DwarfObject) {
    match unit {
        DwarfObject::Compilation(id) => said.number(" cu ", id.0),
        DwarfObject::TypeUnit(signature) => said.number(" tu ", signature.0),
    }
}

/// The unit of a file that has this name, and how many slots were looked at.
pub fn found<'a>(
    file: &'a [u8],
    name: DwarfObject,
) -> Result<(Option<PackagedUnit<'a>>, u32), PackageError> {
    match PackageFile::parse(file) {
        Ok(package) => package.find_counted(name),
        Err(error) => Err(error),
    }
}

/// `unit FILE KIND ID [FIRST]`: all that the file says of a unit, with its strings from a number
/// on, or that it is absent, or the error.
pub fn unit(table: &Table<'_>, words: &[&str], said: &mut Said) {
    if let [file, kind, id, rest @ ..] = words {
        let id = number(id);
        let name = if *kind == "cu" {
            DwarfObject::Compilation(DwoId(id))
        } else {
            DwarfObject::TypeUnit(DebugTypeSignature(id))
        };
        let first = match rest {
            [first] => number(first),
            _ => 0,
        };
        tell_unit(&found(table.get(file, said), name), first, said);
    } else {
        said.wrong("line", "unit");
    }
}

fn tell_unit(
    found: &Result<(Option<PackagedUnit<'_>>, u32), PackageError>,
    first: u64,
    said: &mut Said,
) {
    match found {
        Err(error) => {
            said.debug(error);
            said.add("\n");
        }
        Ok((None, slots)) => {
            said.number("absent, slots ", *slots as u64);
            said.add("\n");
        }
        Ok((Some(unit), slots)) => {
            tell_head(said, unit, *slots);
            tell_ranges(said, unit);
            tell_strings(said, unit, first);
        }
    }
}

fn tell_head(said: &mut Said, unit: &PackagedUnit<'_>, slots: u32) {
    let encoding = unit.encoding();
    said.number("version ", encoding.version as u64);
    said.add(" ");
    said.debug(&encoding.format);
    said.number(" address ", encoding.address_size as u64);
    said.number(" row ", unit.row() as u64);
    said.number(" slots ", slots as u64);
    said.add("\nunit ");
    said.hexadecimal(unit.bytes());
    said.add("\n");
}

/// Each contribution: its place, its size and its bytes, of many bytes the first 64.
fn tell_ranges(said: &mut Said, unit: &PackagedUnit<'_>) {
    for kind in SectionKind::ALL {
        if let Some(range) = unit.range(kind) {
            said.debug(&kind);
            said.in_hexadecimal(range.offset.0);
            said.in_hexadecimal(range.size);
            said.add(" ");
            tell_front(said, unit.section(kind));
        }
    }
}

fn tell_front(said: &mut Said, bytes: &[u8]) {
    match bytes.get(..64) {
        Some(front) => {
            said.hexadecimal(front);
            said.add("..\n");
        }
        None => {
            said.hexadecimal(bytes);
            said.add("\n");
        }
    }
}

/// Strings from a number on, or why one can't be read, up to the one that isn't there, or eight.
fn tell_strings(said: &mut Said, unit: &PackagedUnit<'_>, first: u64) {
    said.add("strings");
    for i in first..first.saturating_add(8) {
        said.add(" ");
        match unit.string(i) {
            Ok(Some(string)) => {
                said.add("\"");
                said.display(&string.escape_ascii());
                said.add("\"");
            }
            Ok(None) => {
                said.add("none\n");
                return;
            }
            Err(error) => said.debug(&error),
        }
    }
    said.add(" ..\n");
}

/// `units FILE`: the units that the slots of both indexes name.
pub fn units(table: &Table<'_>, words: &[&str], said: &mut Said) {
    if let [file] = words {
        tell_units(table.get(file, said), said);
    }
}

fn tell_units(file: &[u8], said: &mut Said) {
    match PackageFile::parse(file) {
        Err(error) => {
            said.add(" ");
            said.debug(&error);
        }
        Ok(package) => {
            for entry in package.units() {
                tell_name(said, entry.object);
                said.number(" row ", entry.row as u64);
                said.add(",");
            }
        }
    }
    said.add("\n");
}
