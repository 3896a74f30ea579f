//! Packing of inputs: at once, in groups, and step by step. Each call of packing is met here and in
//! `builders` alone.

use crate::builders::build;
use crate::sessions::RefusingSession;
use std::alloc::Global;
use std::path::{AsPath, Path};
use test_rows::{Said, Table};
use thorin::{
    Bump, DwarfObject, Error, Input, MissingReferencedObjectBehaviour, RelocationEntry, Session,
    pack, pack_groups,
};

/// Where the executable is.
pub const EXECUTABLE: &str = "/e";

/// What is packed, and how.
#[derive(Clone, Copy)]
pub struct Job<'a> {
    pub alloc: Global,
    /// The files of the session, and the call that it refuses.
    pub files: &'a Table<'a>,
    pub refusal: &'a str,
    /// The command: `groups` or `session_groups`; one of a builder, as `builder`, `session`,
    /// `retried` and `once` are; or another, which packs at once.
    pub how: &'a str,
    pub names: &'a [&'a str],
    pub inputs: &'a [Input<'a>],
    /// The numbers of the inputs at which groups begin.
    pub starts: &'a [usize],
}

impl<'a> Job<'a> {
    /// That of inputs without names, where no call is refused.
    pub fn new(
        alloc: Global,
        files: &'a Table<'a>,
        how: &'a str,
        inputs: &'a [Input<'a>],
        starts: &'a [usize],
    ) -> Job<'a> {
        Job {
            alloc,
            files,
            refusal: "",
            how,
            names: &[],
            inputs,
            starts,
        }
    }

    /// The inputs that were taken.
    pub fn taken(self, made: &Made, said: &mut Said) -> Vec<Input<'a>> {
        let mut taken = Vec::new(self.alloc);
        for number in &made.taken {
            if let Some(input) = self.inputs.get(*number) {
                said.note_that(taken.push(*input).is_ok());
            }
        }
        taken
    }
}

/// What came of it. Where memory runs out for the texts they say so, and the run fails.
#[derive(Drop)]
pub struct Made {
    /// What was answered of each input, and what is printed.
    pub answers: Said,
    pub steps: Said,
    /// The numbers of the inputs that were taken.
    pub taken: Vec<usize>,
    /// What the builder showed last, its units, whether it lacks others, whether its file may be
    /// packed again, and whether calls contradicted each other.
    pub shown: Said,
    pub units: Vec<DwarfObject>,
    pub lacks_units: bool,
    pub packs_again: bool,
    pub contradicts: bool,
    /// Whether memory was refused for the last input, and whether any was refused for another
    /// reason.
    pub lacks_memory: bool,
    pub has_refused: bool,
    /// The file, and why there is none.
    pub file: Vec<u8>,
    pub error: Said,
}

impl Made {
    fn new(alloc: Global) -> Made {
        Made {
            answers: Said::new(alloc),
            steps: Said::new(alloc),
            taken: Vec::new(alloc),
            shown: Said::new(alloc),
            units: Vec::new(alloc),
            lacks_units: false,
            packs_again: false,
            contradicts: false,
            lacks_memory: false,
            has_refused: false,
            file: Vec::new(alloc),
            error: Said::new(alloc),
        }
    }

    /// Whether there is a file.
    pub fn has_file(&self) -> bool {
        self.error.as_str().is_empty()
    }

    /// Whether another has the same file, or none for the same error.
    pub fn is_file_of(&self, other: &Made) -> bool {
        self.error.as_str() == other.error.as_str() && self.file.as_slice() == other.file.as_slice()
    }

    /// Keeps the file, or its error.
    pub fn keep(&mut self, file: Result<Vec<u8>, Error>) {
        match file {
            Ok(file) => self.file = file,
            Err(error) => self.error.debug(&error),
        }
    }

    /// Notes what is answered of an input, by its number.
    pub fn note(&mut self, job: Job<'_>, number: usize, answer: &Result<(), Error>) {
        self.lacks_memory = matches!(answer, Err(Error::Memory));
        if answer.is_ok() {
            self.steps.note_that(self.taken.push(number).is_ok());
        } else if !self.lacks_memory {
            self.has_refused = true;
        }
        let name = job.names.get(number).copied().unwrap_or("?");
        tell_answer(job.how, name, answer, &mut self.answers);
        tell_answer(job.how, name, answer, &mut self.steps);
    }
}

/// Says what is answered of an input behind its name; `text` the text of it alone, and `damage` all
/// that is answered.
fn tell_answer(how: &str, name: &str, answer: &Result<(), Error>, line: &mut Said) {
    match how {
        "damage" => line.debug(answer),
        "text" => tell_text(answer, line),
        _ => {
            line.add(name);
            line.add(": ");
            tell_outcome(answer, line);
            line.add("\n");
        }
    }
}

fn tell_text(answer: &Result<(), Error>, line: &mut Said) {
    match answer {
        Ok(()) => line.add("Ok"),
        Err(error) => line.display(error),
    }
}

fn tell_outcome(answer: &Result<(), Error>, line: &mut Said) {
    match answer {
        Ok(()) => line.add("Ok"),
        Err(error) => line.debug(error),
    }
}

/// Packs inputs in a session of their own.
pub fn make(job: Job<'_>, said: &mut Said) -> Made {
    let arena = Bump::new(job.alloc);
    let session = RefusingSession::new(&arena, job.files, job.refusal);
    let mut made = Made::new(job.alloc);
    make_in(&session, job, &mut made);
    if job.how.starts_with("session") {
        session.tell(&mut made.steps);
    }
    said.note_said(&made.answers);
    said.note_said(&made.steps);
    said.note_said(&made.error);
    made
}

fn make_in<'s, S: Session<RelocationEntry>>(session: &'s S, job: Job<'s>, made: &mut Made) {
    match job.how {
        "groups" | "session_groups" => make_groups(session, job, made),
        "builder" | "session" | "retried" | "once" => build(session, job, made),
        _ => make_at_once(session, job, made),
    }
}

fn make_at_once<'s, S: Session<RelocationEntry>>(session: &'s S, job: Job<'s>, made: &mut Made) {
    match pack(job.alloc, session, job.inputs) {
        Ok(packed) => {
            for number in 0..packed.outcomes.len() {
                made.note(job, number, &packed.outcomes[number]);
            }
            for signature in &packed.differing {
                made.steps.debug(signature);
                made.steps.add(" differs\n");
            }
            made.keep(packed.file);
        }
        Err(error) => made.keep(Err(error)),
    }
}

/// Packs the inputs that are bytes, in groups.
fn make_groups<'s, S: Session<RelocationEntry>>(session: &'s S, job: Job<'s>, made: &mut Made) {
    let mut inputs = Vec::new(job.alloc);
    for input in job.inputs {
        if let Input::Bytes(bytes) = input {
            made.steps.note_that(inputs.push(*bytes).is_ok());
        }
    }
    let mut groups = Vec::new(job.alloc);
    for i in 0..job.starts.len() {
        let end = match job.starts.get(i.saturating_add(1)) {
            Some(end) => *end,
            None => inputs.len(),
        };
        let group = inputs.get(job.starts[i]..end).unwrap_or(&[]);
        made.steps.note_that(groups.push(group).is_ok());
    }
    made.keep(pack_groups(job.alloc, session, &groups));
}

/// The input of a word: `skip` and `stop` are the executable, by what is done where an object isn't
/// there, with `nameless_` before them where units without a name are passed over; a path is its
/// object; and a name is its bytes.
fn input<'t>(table: &'t Table<'_>, word: &'t str, said: &mut Said) -> Input<'t> {
    let path = Path::new(EXECUTABLE);
    match word {
        "skip" => Input::Executable(path, MissingReferencedObjectBehaviour::Skip),
        "stop" => Input::Executable(path, MissingReferencedObjectBehaviour::Error),
        "nameless_skip" => Input::ExecutableSkippingNameless(
            path,
            MissingReferencedObjectBehaviour::Skip,
        ),
        "nameless_stop" => Input::ExecutableSkippingNameless(
            path,
            MissingReferencedObjectBehaviour::Error,
        ),
        _ if word.starts_with('/') => Input::Object(Path::new(word)),
        _ => Input::Bytes(table.get(word, said)),
    }
}

/// The inputs of words, and the numbers at which their groups begin: the first word of a group
/// begins with `[`, the last ends with `]`.
fn inputs<'t>(
    alloc: Global,
    table: &'t Table<'_>,
    words: &[&'t str],
    said: &mut Said,
) -> (Vec<Input<'t>>, Vec<usize>) {
    let mut inputs = Vec::new(alloc);
    let mut starts = Vec::new(alloc);
    for i in 0..words.len() {
        let mut word = words[i];
        if let Some(behind) = word.strip_prefix("[") {
            said.note_that(starts.push(inputs.len()).is_ok());
            word = behind;
        }
        let word = word.strip_suffix("]").unwrap_or(word);
        if !word.is_empty() {
            let input = input(table, word, said);
            said.note_that(inputs.push(input).is_ok());
        }
    }
    (inputs, starts)
}

/// `pack FILE INPUT..`: what each input answers, and the type units that differ. `groups FILE
/// [INPUT..] [INPUT..] ..`: the package of the packages of these groups. `builder FILE INPUT..`:
/// what a builder shows of itself, then each input's answer with what it shows then. `session FILE
/// REFUSAL INPUT..`: each input's answer, what the builder shows at the end, how many reads there
/// were, and whether packing at once says another thing. `session_groups FILE REFUSAL [INPUT..]
/// ..`: that of groups, and how many reads there were. Each keeps its file.
pub fn pack_named<'n>(
    alloc: Global,
    table: &mut Table<'n>,
    how: &str,
    words: &[&'n str],
    said: &mut Said,
) {
    if let [file, names @ ..] = words {
        let made = made_of(alloc, table, how, names, said);
        said.add_said(&made.steps);
        said.add(file);
        said.add(": ");
        if made.has_file() {
            said.number("", made.file.len() as u64);
            said.add(" bytes\n");
            table.keep(file, made.file, said);
        } else {
            said.add_said(&made.error);
            said.add("\n");
        }
    }
}

fn made_of(alloc: Global, table: &Table<'_>, how: &str, words: &[&str], said: &mut Said) -> Made {
    let (refusal, names) = match words {
        [refusal, names @ ..] if how.starts_with("session") => (*refusal, names),
        names => ("", names),
    };
    let (inputs, starts) = inputs(alloc, table, names, said);
    let job = Job {
        alloc,
        files: table,
        refusal,
        how,
        names,
        inputs: &inputs,
        starts: &starts,
    };
    let mut made = make(job, said);
    if how == "session" {
        compare_at_once(job, &mut made, said);
    }
    made
}

/// Says so where packing inputs at once answers another thing, or gives another file.
fn compare_at_once(mut job: Job<'_>, made: &mut Made, said: &mut Said) {
    job.how = "pack";
    let packed = make(job, said);
    if packed.answers.as_str() != made.answers.as_str() || !packed.is_file_of(made) {
        made.steps.add("  packed at once it is another\n");
    }
}

/// `retried INPUT..`, `once INPUT..`, `packed INPUT..`: whether a builder, or packing at once,
/// gives the file of those inputs that it takes; of `retried` what memory was refused for is given
/// again, and all is taken. `Memory` where it is refused to the file.
pub fn refused(alloc: Global, table: &Table<'_>, how: &str, words: &[&str], said: &mut Said) {
    let (inputs, _starts) = inputs(alloc, table, words, said);
    let job = Job::new(alloc, table, how, &inputs, &[]);
    let made = make(job, said);
    let lacks_some = how == "retried" && made.taken.len() != inputs.len();
    if made.contradicts || made.has_refused || lacks_some {
        said.add("contradictions\n");
    }
    tell_whether_same(job, &made, said);
}

/// Says whether packing at once gives the file of the inputs that were taken.
fn tell_whether_same(job: Job<'_>, made: &Made, said: &mut Said) {
    let taken = job.taken(made, said);
    let whole = Job::new(job.alloc, job.files, "pack", &taken, &[]);
    let whole = make(whole, said);
    let is_whole = whole.taken.len() == taken.len();
    said.add(if whole.is_file_of(made) && whole.has_file() {
        "the same\n"
    } else if is_whole && made.has_file() && whole.has_file() {
        "another file\n"
    } else {
        "Memory\n"
    });
}

/// What is made of inputs without files.
pub fn make_plain(alloc: Global, how: &str, inputs: &[Input<'_>], said: &mut Said) -> Made {
    let files = Table::new(alloc);
    make_with(alloc, &files, how, inputs, said)
}

fn make_with(
    alloc: Global,
    files: &Table<'_>,
    how: &str,
    inputs: &[Input<'_>],
    said: &mut Said,
) -> Made {
    let job = Job::new(alloc, files, how, inputs, &[]);
    make(job, said)
}

/// What is made of one input without files.
pub fn make_alone(alloc: Global, how: &str, input: &[u8], said: &mut Said) -> Made {
    let inputs = [Input::Bytes(input)];
    make_plain(alloc, how, &inputs, said)
}

/// `text INPUT`: the text of what packing one input answers of it.
pub fn text(alloc: Global, table: &Table<'_>, words: &[&str], said: &mut Said) {
    let input = table.joined(words, said);
    let made = make_alone(alloc, "text", &input, said);
    said.add_said(&made.steps);
    said.add("\n");
}
