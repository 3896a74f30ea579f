//! The objects of a script.

use std::alloc::Global;
use test_rows::{Said, Table, order, place, split};
use thorin::{Class, SectionKind, WritableObject};

/// `object NAME CLASS ORDER MACHINE SECTION=WORD..`: an ELF file with these sections, as `info=x`,
/// in the order in which they first come; a section that comes again gets more bytes.
pub fn object<'n>(alloc: Global, table: &mut Table<'n>, words: &[&'n str], said: &mut Said) {
    if let [name, class, order_of, machine, sections @ ..] = words {
        let class = if *class == "elf32" {
            Class::Elf32
        } else {
            Class::Elf64
        };
        let machine = (place(machine) % 0x1_0000) as u16;
        let mut file = WritableObject::new(alloc, class, machine, order(order_of));
        for i in 0..sections.len() {
            append(alloc, table, &mut file, sections[i], said);
        }
        keep(table, name, &file, said);
    } else {
        said.wrong("line", "object");
    }
}

fn keep<'n>(table: &mut Table<'n>, name: &'n str, file: &WritableObject, said: &mut Said) {
    match file.write() {
        Ok(bytes) => table.keep(name, bytes, said),
        Err(_error) => said.note_that(false),
    }
}

/// Appends a section to a file.
fn append(
    alloc: Global,
    table: &Table<'_>,
    file: &mut WritableObject,
    section: &str,
    said: &mut Said,
) {
    let (kind, word) = split(section, "=");
    let bytes = table.joined(&[word], said);
    match kind_of(alloc, kind, said) {
        Some(kind) => said.note_that(file.append(kind, &bytes).is_ok()),
        None => said.wrong("section", section),
    }
}

/// The kind of the section `.debug_NAME.dwo`, or of the index `.debug_NAME`.
fn kind_of(alloc: Global, name: &str, said: &mut Said) -> Option<SectionKind> {
    let mut section = Said::new(alloc);
    section.add(".debug_");
    section.add(name);
    let index = SectionKind::of_name(section.as_str());
    section.add(".dwo");
    let section = said.made(section.finish(), String::new(alloc));
    SectionKind::of_name(section.as_str()).or(index)
}
