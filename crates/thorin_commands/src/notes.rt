//! What is kept of the inputs for what is told of them: which input brought a unit of the package,
//! type units that differ from the ones kept, and objects that aren't there.

ghost use Rattle.std.specs.Prelude.{IfOk, string_bytes, ◌≡◌};
ghost use Rattle.thorin_join.specs.Builder.{differing_in};
ghost use Rattle.thorin_commands.specs.{Opened.unit_count, Warned.TellsNamed};

use crate::packing::{Packing, path_of};
use crate::telling::{ReportOptions, unit_line};
use dwp_bytes::RelocationEntry;
use dwp_table::{DebugTypeSignature, DwarfObject, DwoId};
use std::alloc::{AllocError, Global};
use std::cell::Cell;
use std::collections::BTreeMap;
use std::path::AsPath;
use thorin::{DwarfPackage, Input, NotTaken};
use thorin_errors::Error;
use thorin_inputs::{
    AbsentUnits, Compression, Encodings, Growth, MacroWarnings, place_of, place_of_member,
    type_names,
};
use thorin_sessions::Session;

/// How many bytes of names are kept, and are printed. Behind them the signature alone is told.
const MOST: usize = 1 << 24;

/// What was taken, by its path.
#[derive(Clone, Copy)]
pub(crate) enum Origin<'a> {
    /// The object at a path.
    Object(&'a str),
    /// The object that the executable at the first path names by the second.
    Named(&'a str, &'a str),
    /// A member of the archive at a path, by its name.
    Member(&'a str, &'a [u8]),
}

/// What the package has once something was taken.
#[derive(Clone, Copy)]
pub(crate) struct Holding<'a> {
    /// How many units.
    pub(crate) units: usize,
    /// The signatures of type units that were passed over and differ from the ones kept.
    pub(crate) differing: &'a [DebugTypeSignature],
}

/// What is kept of the inputs of a command.
#[derive(Drop)]
pub(crate) struct Notes {
    alloc: Global,
    /// Whether each type unit that differs is told of with its name and its input.
    names: bool,
    /// The path of the input.
    own: Cell<Option<String>>,
    /// The object that the input names and that was read last, unless it was taken.
    pub(crate) named: Cell<Option<NamedObject>>,
    absent: Cell<AbsentUnits>,
    /// What is left compressed of the file that was read last.
    pub(crate) compression: Cell<Compression>,
    pub(crate) encodings: Encodings,
    /// What is warned of where several of an object's sections of macros count.
    pub(crate) macros: MacroWarnings,
    /// What brought units, in order, as it is printed, each with the number of units that the
    /// package had then; none where there was no memory for it.
    origins: Cell<Option<Vec<(usize, String)>>>,
    /// The names of the types of the file that was read last, by their signatures.
    types: Cell<BTreeMap<u64, String>>,
    /// What is told of type units that differ; none where there was no memory for it.
    differing: Cell<Option<Differing>>,
}

/// Of each type unit that differs its name and the input, and how many bytes these have.
#[derive(Drop)]
struct Differing {
    texts: Vec<String>,
    size: usize,
}

/// An object that an executable names.
#[derive(Drop)]
pub(crate) struct NamedObject {
    pub(crate) path: String,
    /// Why it couldn't be read, if it couldn't.
    unread: Option<String>,
}

impl Notes {
    /// None yet.
    pub(crate) fn new(alloc: Global, packing: &Packing<'_, '_>) -> Notes {
        let texts = Vec::new(alloc);
        Notes {
            alloc,
            names: packing.tells_differences(),
            own: Cell::new(None),
            named: Cell::new(None),
            absent: Cell::new(AbsentUnits::new(alloc)),
            compression: Cell::new(Compression::None),
            encodings: Encodings::new(alloc),
            macros: MacroWarnings::new(alloc, packing.warns_of_macros),
            origins: Cell::new(Some(Vec::new(alloc))),
            types: Cell::new(BTreeMap::new(alloc)),
            differing: Cell::new(Some(Differing { texts, size: 0 })),
        }
    }

    /// Begins an input.
    pub(crate) fn begin(&self, input: Input<'_>) {
        self.own.set(match path_of(input) {
            Some(path) => String::from_str(self.alloc, path.path_text()).ok(),
            None => None,
        });
        self.named.set(None);
        let mut absent = self.absent_units();
        absent.begin();
        self.absent.set(absent);
        self.macros.begin();
    }

    /// Looks at a file of the input, at a member of it or at an object that it names by a path: at
    /// its encoding, and where these are asked for at the names of its types and its macros.
    pub(crate) fn inspect(
        &self,
        file: &[u8],
        named: &str,
        is_member: bool,
    ) -> Result<(), AllocError> {
        let named = if named.is_empty() { None } else { Some(named) };
        if self.names {
            let types = type_names(self.alloc, file);
            self.types.set(types.unwrap_or(BTreeMap::new(self.alloc)));
        }
        let Some(own) = self.own.replace(None) else {
            return Ok(());
        };
        self.encodings.keep_new(file, own.as_str(), named);
        let looked = if is_member {
            Ok(())
        } else {
            self.macros.look_for_several(file, own.as_str(), named)
        };
        self.own.set(Some(own));
        looked
    }

    /// Keeps an object that an executable names, if there is memory, and why it can't be read.
    pub(crate) fn keep_named(&self, path: Result<String, AllocError>, unread: Option<String>) {
        self.named.set(match path {
            Ok(path) => Some(NamedObject { path, unread }),
            Err(_) => None,
        });
    }

    /// Keeps the object of a unit that an executable names, once it was taken or passed over, and
    /// the unit where it isn't there.
    pub(crate) fn after_unit(&self, unit: DwarfObject, is_there: bool, now: Holding<'_>) {
        let (path, unread) = match self.named.replace(None) {
            Some(NamedObject { path, unread }) => (Some(path), unread),
            None => (None, None),
        };
        let Some(executable) = self.own.replace(None) else {
            return;
        };
        if let Some(path) = &path {
            self.keep_taken(Origin::Named(executable.as_str(), path.as_str()), now);
        }
        match unit {
            DwarfObject::Compilation(unit) if !is_there => {
                let mut absent = self.absent_units();
                let _ = absent.add(unit.0, executable.as_str(), path, unread);
                self.absent.set(absent);
            }
            _ => {}
        }
        self.own.set(Some(executable));
    }

    /// The units that weren't there once their objects were taken. Asked for once.
    pub(crate) fn absent_units(&self) -> AbsentUnits {
        self.absent.replace(AbsentUnits::new(self.alloc))
    }

    /// Keeps what was taken, where it brought a unit, and what the package has now. Where there is
    /// no memory for it, nothing is kept any more.
    pub(crate) fn keep_taken(&self, taken: Origin<'_>, now: Holding<'_>) {
        if let Some(mut origins) = self.origins.replace(None) {
            let before = origins.last().map_or(0, |(before, _)| *before);
            let is_kept = now.units <= before
                || match printed_origin(self.alloc, taken) {
                    Ok(place) => origins.push((now.units, place)).is_ok(),
                    Err(_) => false,
                };
            if is_kept {
                self.origins.set(Some(origins));
            }
        }
        if !self.names {
            return;
        }
        let types = self.types.replace(BTreeMap::new(self.alloc));
        if let Some(mut differing) = self.differing.replace(None) {
            let kept = differing.add(self.alloc, taken, now.differing, &types);
            if kept.is_ok() {
                self.differing.set(Some(differing));
            }
        }
        self.types.set(types);
    }

    /// Adds words and what brought the unit at a place to a line, where that is known: the first
    /// behind which the package has more units than stand before it. Their numbers grow.
    pub(crate) fn put_origin(
        &self,
        words: &str,
        place: usize,
        line: &mut String,
    ) -> Result<(), AllocError> {
        let Some(origins) = self.origins.replace(None) else {
            return Ok(());
        };
        let behind = origins.as_slice().partition_point(|entry| entry.0 <= place);
        let put = match origins.get(behind) {
            Some((_, origin)) => write!(line, "{words}{origin}"),
            None => Ok(()),
        };
        self.origins.set(Some(origins));
        put
    }

    /// What is known of a type unit that differs, by its number, and by the place of the one kept.
    fn difference(&self, number: usize, kept: Option<usize>) -> Result<String, AllocError> {
        let mut line = String::new(self.alloc);
        let Some(differing) = self.differing.replace(None) else {
            return Ok(line);
        };
        match differing.texts.get(number) {
            Some(text) if !text.is_empty() => {
                line.push_str(text.as_str())?;
                if let Some(place) = kept {
                    self.put_origin(", kept from ", place, &mut line)?;
                }
            }
            _ => {}
        }
        self.differing.set(Some(differing));
        Ok(line)
    }
}

impl Differing {
    /// Adds those that have no text yet, which this brought, by the names of types.
    fn add(
        &mut self,
        alloc: Global,
        origin: Origin<'_>,
        differing: &[DebugTypeSignature],
        types: &BTreeMap<u64, String>,
    ) -> Result<(), AllocError> {
        if self.texts.len() >= differing.len() {
            return Ok(());
        }
        let place = printed_origin(alloc, origin)?;
        for signature in &differing[self.texts.len()..] {
            let text = match types.get(&signature.0) {
                _ if self.size >= MOST => Ok(String::new(alloc)),
                Some(name) if !name.is_empty() => format!(in alloc; ": {name} in {place}"),
                _ => format!(in alloc; ": in {place}"),
            }?;
            self.size = self.size.saturating_add(text.len());
            self.texts.push(text)?;
        }
        Ok(())
    }
}

/// What was taken, as it is printed.
fn printed_origin(alloc: Global, origin: Origin<'_>) -> Result<String, AllocError> {
    match origin {
        Origin::Object(path) => place_of(alloc, path, None),
        Origin::Named(executable, path) => place_of(alloc, executable, Some(path)),
        Origin::Member(archive, name) => place_of_member(alloc, archive, name),
    }
}

/// How many units a package has.
pub(crate) fn unit_count<'o, 's: 'o, Sess: Session<RelocationEntry>>(
    builder: &DwarfPackage<'o, 's, Sess>,
) -> usize
    ensures { result ≡ unit_count builder.now.state }
{
    builder.contained_units().len()
}

/// What a package has now.
pub(crate) fn now_in<'b, 'o, 's: 'o, Sess: Session<RelocationEntry>>(
    builder: &'b DwarfPackage<'o, 's, Sess>,
) -> Holding<'b>
    ensures { result.units ≡ unit_count builder.now.state }
{
    Holding {
        units: unit_count(builder),
        differing: builder.differing_types(),
    }
}

/// Where among the package's units the one stands that an input has too, of which an error tells.
pub(crate) fn place_of_refused<'o, 's: 'o, Sess: Session<RelocationEntry>>(
    builder: &DwarfPackage<'o, 's, Sess>,
    why: &NotTaken<Error, Growth>,
) -> Option<usize> {
    match why {
        NotTaken::Failed(Error::DuplicateUnit(id)) => {
            let unit = DwarfObject::Compilation(DwoId(*id));
            builder.contained_units().get_index_of(&unit)
        }
        _ => None,
    }
}

/// The lines of all type units that differ, to be printed behind the package, if asked for.
#[tactic(auto, using(crate::proofs::Warned::without_names))]
pub(crate) fn lines_of_differing<'o, 's: 'o, Sess: Session<RelocationEntry>>(
    notes: &Notes,
    builder: &DwarfPackage<'o, 's, Sess>,
    options: ReportOptions,
) -> Result<String, AllocError>
    ensures { IfOk result (λ lines. TellsNamed options.names (differing_in builder.now.state)
        (string_bytes lines)) }
{
    let alloc = options.alloc;
    let mut lines = String::new(alloc);
    if !options.names {
        return Ok(lines);
    }
    let differing = builder.differing_types();
    for number in 0..differing.len() {
        let signature = differing[number];
        let more = if lines.len() < MOST {
            let unit = DwarfObject::TypeUnit(signature);
            let kept = builder.contained_units().get_index_of(&unit);
            notes.difference(number, kept)?
        } else {
            String::new(alloc)
        };
        let line = unit_line(
            alloc,
            "warning: type unit 0x",
            signature.0,
            " differs from the one kept",
            more.as_str(),
        )?;
        lines.push_str(line.as_str())?;
    }
    Ok(lines)
}
