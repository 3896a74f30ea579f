//! The paths of split objects. The path that came last is kept with where its strings stand: many
//! units may name one path.

ghost use Rattle.thorin_executable.specs.Paths as spec;
ghost use Rattle.std.specs.Prelude.{IfOk, IfSome, IsTrue, OnErr, string_bytes, ◌≡◌};
ghost use Rattle.dwp_dwarf.specs.{Attributes.attribute_of, Sections.strings_of};
ghost use Rattle.dwp_dwarf.specs.Split.{attributes_of};
ghost use Rattle.thorin_errors.specs.Answers.{Gives};
ghost use Rattle.thorin_executable.specs.Paths.{IsKept, IsPathAt, IsStringAt};

use dwp_dwarf::{
    Attribute, Format, GNU_STR_INDEX, LINE_STRP, ReadError, Reader, STRP, STRX, STRX1, STRX2, STRX3,
    STRX4, SplitAttributes, StringSections, attr_string,
};
use std::alloc::{AllocError, Global};
use thorin_errors::Error;

/// Where a string stands that isn't in its unit.
#[derive(Clone, Copy, PartialEq)]
pub(crate) enum StringPlace {
    /// At an offset of `.debug_str`.
    Str(u64),
    /// At an offset of `.debug_line_str`.
    LineStr(u64),
    /// At the offset of `.debug_str` that stands at an index of the table of string offsets that
    /// begins at a base.
    Indexed(Format, u64, u64),
}

/// Where the strings of a path stand: its name, and its directory.
#[derive(Clone, Copy, PartialEq)]
pub(crate) struct PathPlaces {
    pub name: StringPlace,
    pub directory: Option<StringPlace>,
}

/// The path that came last, and where its strings stand, if that is known.
#[derive(Drop)]
pub(crate) struct LastPath {
    pub alloc: Global,
    pub places: Option<PathPlaces>,
    pub text: String,
}

/// The path of a name in a directory; a name from the root on replaces it.
#[tactic(auto, unfolding(crate::specs::Paths::path_in))]
fn path_in(alloc: Global, directory: &str, name: &str) -> Result<String, AllocError>
    ensures { IfOk result (λ path. string_bytes path ≡ spec.path_in directory.now name.now) }
{
    if name.as_bytes().starts_with(b"/") {
        return String::from_str(alloc, name);
    }
    let mut path = String::from_str(alloc, directory)?;
    if !directory.is_empty() && !directory.as_bytes().ends_with(b"/") {
        path.push_str("/")?;
    }
    path.push_str(name)?;
    Ok(path)
}

/// A string as text.
#[tactic(auto, using(crate::proofs::SamePaths::text_of_some, crate::proofs::SamePaths::text_of_none), unfolding(crate::specs::Paths::text_of))]
fn text<R: Reader>(string: &R) -> Result<&str, Error>
    ensures { Gives (λ text. text.now) result (spec.text_of (R.input string.now)) }
{
    str::from_utf8(string.to_slice()).map_err(|_| Error::GimliRead(ReadError::BadUtf8))
}

/// The path of the split object that an attribute of a root entry names: `GimliRead` where a string
/// can't be read or isn't UTF-8. A directory whose string can't be read is absent.
#[tactic(auto, unfolding(crate::specs::Paths::object_path))]
fn object_path<R: Reader>(
    alloc: Global,
    strings: &StringSections<R>,
    format: Format,
    root: &SplitAttributes<R>,
    name: &Attribute<R>,
) -> Result<String, Error>
    ensures { Gives string_bytes result (spec.object_path (strings_of R.input strings.now) format
        (attributes_of R.input root.now) (attribute_of R.input name.now)) }
{
    let base = root.str_offsets_base.unwrap_or(0);
    let name = attr_string(strings, format, base, name)?;
    let name = text(&name)?;
    let directory = match &root.comp_dir {
        Some(directory) => attr_string(strings, format, base, directory).ok(),
        None => None,
    };
    Ok(match &directory {
        Some(directory) => path_in(alloc, text(directory)?, name)?,
        None => path_in(alloc, "", name)?,
    })
}

/// Where the string of an attribute stands; none where it is in the unit.
#[tactic(auto, unfolding(dwp_dwarf::specs::Strings::string_of))]
fn string_place<R: Reader>(
    format: Format,
    base: u64,
    attribute: &Attribute<R>,
) -> Option<StringPlace>
    ensures { IfSome result (IsStringAt format base (attribute_of R.input attribute.now)) }
{
    let mut value = attribute.value;
    let index = match attribute.form {
        STRP => return Some(StringPlace::Str(value.read_offset(format).ok()?)),
        LINE_STRP => return Some(StringPlace::LineStr(value.read_offset(format).ok()?)),
        STRX | GNU_STR_INDEX => value.read_uleb128().ok()?,
        STRX1 => u64::from(value.read_u8().ok()?),
        STRX2 => u64::from(value.read_u16().ok()?),
        STRX3 => u64::from(value.read_u24().ok()?),
        STRX4 => u64::from(value.read_u32().ok()?),
        _ => return None,
    };
    Some(StringPlace::Indexed(format, base, index))
}

/// Where the strings of the path stand that an attribute of a root entry names; none where one of
/// them is in the unit.
#[tactic(auto, using(crate::proofs::SamePaths::path_with, crate::proofs::SamePaths::path_without))]
fn path_places<R: Reader>(
    format: Format,
    root: &SplitAttributes<R>,
    name: &Attribute<R>,
) -> Option<PathPlaces>
    ensures { IfSome result (IsPathAt format (attributes_of R.input root.now)
        (attribute_of R.input name.now)) }
{
    let base = root.str_offsets_base.unwrap_or(0);
    let name = string_place(format, base, name)?;
    let directory = match &root.comp_dir {
        Some(directory) => Some(string_place(format, base, directory)?),
        None => None,
    };
    Some(PathPlaces { name, directory })
}

impl LastPath {
    /// Makes it the path that an attribute of a root entry names. Answers whether it was that
    /// before; then no string is read. Where it fails, the text stays.
    #[tactic(auto, using(crate::proofs::SamePaths::kept_is, crate::proofs::SamePaths::kept_anew))]
    pub fn set<R: Reader>(
        &mut self,
        strings: &StringSections<R>,
        format: Format,
        root: &SplitAttributes<R>,
        name: &Attribute<R>,
    ) -> Result<bool, Error>
        requires { IsKept (strings_of R.input strings.now) self.old }
        ensures meaning { Gives (λ _. string_bytes self.new.text) result
            (spec.object_path (strings_of R.input strings.now) format
            (attributes_of R.input root.now) (attribute_of R.input name.now)) }
        ensures kept { IsKept (strings_of R.input strings.now) self.new }
        ensures again { IfOk result (λ again. IsTrue again
            → string_bytes self.new.text ≡ string_bytes self.old.text) }
        ensures failed { OnErr result (string_bytes self.new.text ≡ string_bytes self.old.text) }
    {
        let places = path_places(format, root, name);
        if let (Some(kept), Some(places)) = (self.places, places) {
            if kept == places {
                return Ok(true);
            }
        }
        self.places = None;
        self.text = object_path(self.alloc, strings, format, root, name)?;
        self.places = places;
        Ok(false)
    }
}
