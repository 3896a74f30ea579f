//! Faults as values, how they are printed, in lines or as JSON objects (RFC 8259), and told.

ghost use Rattle.thorin_check.specs.Telling.{so_far, IsFault, Tells};
ghost use Rattle.thorin_check.specs.Texts.{TellsText, TellsWhat, IsSomeText};
ghost use Rattle.thorin_check.specs.Rendering.{value_of, fault_text, fault_members};
ghost use Rattle.thorin_check.specs.Rendering.{totals_text, count_text};
ghost use Rattle.std.specs.Prelude.{◌≡◌, ◌++◌, OnOk, string_bytes};

use dwp_table::DwarfObject;
use std::alloc::AllocError;
use std::io::Write;
use thorin_find::{put_json_unit, put_object};
use thorin_print::{Failure, Form, print, put_spelled};

/// How many bytes wait before they are handed over.
const MANY: usize = 8192;

/// The faults that were told.
#[derive(Drop)]
pub(crate) struct Faults {
    /// How they are printed.
    pub form: Form,
    /// What waits for the writer.
    pub waiting: String,
    /// How many faults there are, as far as 64 bits go.
    pub count: u64,
}

/// Tells a fault: counts it, and hands what waits to the writer where that is much.
#[tactic(auto, using(crate::proofs::Told::one_waits, crate::proofs::Told::one_handed))]
pub(crate) fn tell_fault<O: Write>(
    fault: Fault<'_>,
    faults: &mut Faults,
    out: &mut O,
) -> Result<(), Failure>
    ensures { Tells (IsFault (value_of fault.entry)) (so_far (O.contents out.old) faults.old)
        (so_far (O.contents out.new) faults.new) result }
{
    put_fault(faults.form, fault, &mut faults.waiting)?;
    faults.count = faults.count.saturating_add(1);
    if faults.waiting.len() < MANY {
        return Ok(());
    }
    let printed = print(faults.waiting.as_str(), out);
    faults.waiting.clear();
    printed
}

/// Tells a fault of a unit, where there is one: then it has a text, unless memory ran out.
pub(crate) fn tell<O: Write>(
    object: DwarfObject,
    text: Result<Option<String>, AllocError>,
    faults: &mut Faults,
    out: &mut O,
) -> Result<(), Failure>
    ensures { TellsText object text (so_far (O.contents out.old) faults.old)
        (so_far (O.contents out.new) faults.new) result }
{
    match text? {
        Some(text) => tell_fault(Fault::Unit(object, text.as_str()), faults, out),
        None => Ok(()),
    }
}

/// The same of a package, apart from a unit.
pub(crate) fn tell_of_package<O: Write>(
    text: Result<String, AllocError>,
    faults: &mut Faults,
    out: &mut O,
) -> Result<(), Failure>
    ensures { TellsWhat text (so_far (O.contents out.old) faults.old)
        (so_far (O.contents out.new) faults.new) result }
{
    let text = text?;
    tell_fault(Fault::Package(text.as_str()), faults, out)
}

/// A text that there is.
pub(crate) fn some(text: Result<String, AllocError>) -> Result<Option<String>, AllocError>
    ensures { IsSomeText text result }
{
    Ok(Some(text?))
}

/// What is wrong.
#[derive(Clone, Copy)]
pub(crate) enum Fault<'a> {
    /// With a unit.
    Unit(DwarfObject, &'a str),
    /// With the package, apart from a unit.
    Package(&'a str),
    /// With an executable, which has this name.
    Executable(&'a str, &'a str),
}

/// Adds what is wrong.
#[tactic(auto, unfolding(crate::specs::Rendering::fault_text))]
fn put_fault(form: Form, fault: Fault<'_>, text: &mut String) -> Result<(), AllocError>
    ensures { OnOk result (string_bytes text.new
        ≡ string_bytes text.old ++ fault_text form (value_of fault.entry)) }
{
    match form {
        Form::Lines => match fault {
            Fault::Unit(object, what) => {
                put_object(object, text)?;
                writeln!(text, ": {what}")
            }
            Fault::Package(what) => writeln!(text, "{what}"),
            Fault::Executable(name, what) => writeln!(text, "{name}: {what}"),
        },
        Form::Json => {
            put_members(fault, text)?;
            text.push_str("\"}\n")
        }
    }
}

/// Adds an object of what is wrong, up to the end of its last string.
fn put_members(fault: Fault<'_>, text: &mut String) -> Result<(), AllocError>
    ensures { OnOk result (string_bytes text.new
        ≡ string_bytes text.old ++ fault_members (value_of fault.entry)) }
{
    match fault {
        Fault::Unit(object, what) => {
            put_json_unit(object, text)?;
            text.push_str("\",\"fault\":\"")?;
            put_spelled(what.as_bytes(), Form::Json, text)
        }
        Fault::Package(what) => {
            text.push_str("{\"fault\":\"")?;
            put_spelled(what.as_bytes(), Form::Json, text)
        }
        Fault::Executable(name, what) => {
            text.push_str("{\"fault\":\"")?;
            put_spelled(name.as_bytes(), Form::Json, text)?;
            text.push_str(": ")?;
            put_spelled(what.as_bytes(), Form::Json, text)
        }
    }
}

/// Adds how many units and faults there are.
#[tactic(auto, unfolding(crate::specs::Rendering::totals_text))]
pub(crate) fn put_totals(
    form: Form,
    units: u64,
    faults: u64,
    text: &mut String,
) -> Result<(), AllocError>
    ensures { OnOk result (string_bytes text.new
        ≡ string_bytes text.old ++ totals_text form units faults) }
{
    match form {
        Form::Lines => {
            put_count(units, "unit", text)?;
            text.push_str(", ")?;
            put_count(faults, "fault", text)?;
            text.push_str("\n")
        }
        Form::Json => writeln!(text, "{{\"units\":{units},\"faults\":{faults}}}"),
    }
}

/// Adds a number of things of one name: `1 unit`, `2 units`.
fn put_count(number: u64, name: &str, text: &mut String) -> Result<(), AllocError>
    ensures { OnOk result (string_bytes text.new
        ≡ string_bytes text.old ++ count_text number name.now) }
{
    if number == 1 {
        write!(text, "1 {name}")
    } else {
        write!(text, "{number} {name}s")
    }
}
