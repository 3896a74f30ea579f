//! Runs the lines of the scripts of `data/`, of those that its words name or of all, and prints
//! their comments, and each line that asks something with what it answers: packing, packages as
//! inputs, packages cut or damaged, packing in groups, and the same of what a seed damages. A
//! script makes its inputs byte for byte (`objects`), packs them (`packing`, `builders`, `large`),
//! reads what came of it (`reading`, `cutting`), and damages samples by chance (`random`). For the
//! gate; with `random`, by hand too.
#![tactic(auto)]

mod builders;
mod cutting;
mod large;
mod objects;
mod packing;
mod random;
mod reading;
mod sessions;
mod tally;

use std::alloc::Global;
use std::{fs, io};
use test_rows::{Said, Table, asked, split};

/// The script that names the parts that every other one may use.
const COMMON: &str = "common";

/// The scripts, in the order in which they are run; each begins with the names of the common one.
const SCRIPTS: [&str; 14] = [
    "one_object",
    "forms",
    "many_objects",
    "refused_objects",
    "groups",
    "large",
    "packages",
    "refused_packages",
    "own_packages",
    "sessions",
    "memory",
    "damaged",
    "cut",
    "random",
];

fn main(rt: HostRuntime) -> io::Result<()> {
    let asked = asked(&rt)?;
    for script in &asked {
        run_named(&rt, script)?;
    }
    if asked.is_empty() {
        for i in 0..SCRIPTS.len() {
            run_named(&rt, SCRIPTS[i])?;
        }
    }
    Ok(())
}

/// Runs the lines of the script that names parts, and then those of another, and prints what they
/// answer.
fn run_named(rt: &HostRuntime, script: &str) -> io::Result<()> {
    let mut said = Said::new(rt.alloc());
    let common = text_of(rt, COMMON, &mut said);
    let lines = text_of(rt, script, &mut said);
    let mut table = Table::new(rt.alloc());
    run_script(rt, &mut table, false, &common, &mut said);
    run_script(rt, &mut table, true, &lines, &mut said);
    let answers = said.finish()?;
    print!(rt; "== {script}\n{answers}")
}

/// The text of a file.
fn text_of(rt: &HostRuntime, file: &str, said: &mut Said) -> String {
    match fs::read_to_string(rt, file) {
        Ok(text) => text,
        Err(error) => {
            tell_unread(&error, file, said);
            String::new(rt.alloc())
        }
    }
}

/// Runs the lines of a script, and says its comments where they are asked for.
fn run_script<'n>(
    rt: &HostRuntime,
    table: &mut Table<'n>,
    is_told: bool,
    script: &'n str,
    said: &mut Said,
) {
    for line in script.lines() {
        if is_told && line.starts_with('#') {
            said.add(line);
            said.add("\n");
        }
        let line = split(line, "#").0;
        let words = line.split_whitespace().collect(rt.alloc());
        let words: Vec<&str> = said.made(words, Vec::new(rt.alloc()));
        if let [command, words @ ..] = words.as_slice() {
            run_words(rt, table, line, command, words, said);
        }
    }
}

/// Runs a line that only names bytes, or writes a line that asks something with its answer.
fn run_words<'n>(
    rt: &HostRuntime,
    table: &mut Table<'n>,
    line: &str,
    command: &str,
    words: &[&'n str],
    said: &mut Said,
) {
    match command {
        "file" => keep_files(rt, table, words, said),
        "bytes" => table.define(words, said),
        "patch" => table.patch(words, said),
        "replace" => table.replace(words, said),
        "object" => objects::object(rt.alloc(), table, words, said),
        "numbers" => large::numbers(rt.alloc(), table, words, said),
        _ => {
            said.add("$ ");
            said.add(line.trim_ascii());
            said.add("\n");
            ask(rt.alloc(), table, command, words, said);
        }
    }
}

/// `file NAME..`: the bytes of files, each under its name.
fn keep_files<'n>(rt: &HostRuntime, table: &mut Table<'n>, words: &[&'n str], said: &mut Said) {
    for i in 0..words.len() {
        match fs::read(rt, words[i]) {
            Ok(bytes) => table.keep(words[i], bytes, said),
            Err(error) => tell_unread(&error, words[i], said),
        }
    }
}

fn tell_unread(error: &io::Error, file: &str, said: &mut Said) {
    said.note_that(!matches!(error.kind(), io::ErrorKind::OutOfMemory));
    said.wrong("file", file);
}

/// Says what a line answers that asks something.
fn ask<'n>(
    alloc: Global,
    table: &mut Table<'n>,
    command: &str,
    words: &[&'n str],
    said: &mut Said,
) {
    match command {
        "show" => table.show(true, words, said),
        "size" => table.show(false, words, said),
        "same" => table.same(words, said),
        "unit" => reading::unit(table, words, said),
        "units" => reading::units(table, words, said),
        "text" => packing::text(alloc, table, words, said),
        "many" => large::many(alloc, table, words, said),
        _ => ask_packing(alloc, table, command, words, said),
    }
}

/// Says what a line answers that packs, or damages files.
fn ask_packing<'n>(
    alloc: Global,
    table: &mut Table<'n>,
    command: &str,
    words: &[&'n str],
    said: &mut Said,
) {
    match command {
        "pack" | "groups" | "builder" | "session" | "session_groups" => packing::pack_named(
            alloc, table, command, words, said,
        ),
        "retried" | "once" | "packed" => packing::refused(alloc, table, command, words, said),
        "damage" => cutting::damage(alloc, table, words, said),
        "every_cut" => cutting::every_cut(alloc, table, words, said),
        "random" => random::random(alloc, table, false, words, said),
        "random_counted" => random::random(alloc, table, true, words, said),
        _ => said.wrong("command", command),
    }
}
