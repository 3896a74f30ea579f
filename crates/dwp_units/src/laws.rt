//! What the units of a section are, as a law.

ghost use Rattle.dwp_units.specs.Units.{UnitsAreTaken, UnitsAreSection, ErrorIsNext, UnitsAreOne};

/// The units of a section have all its bytes, each byte once and in order; where one can't be read,
/// all bytes before it. There is no other list of units that goes from the section's start to its
/// end. A unit has the bytes that reading it takes, at least one. It does nothing.
pub fn units_have_all_bytes()
    ensures taken { UnitsAreTaken }
    ensures whole { UnitsAreSection }
    ensures error { ErrorIsNext }
    ensures one { UnitsAreOne }
{}
