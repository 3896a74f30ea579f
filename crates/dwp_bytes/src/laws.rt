//! What reading takes, as a law.

ghost use Rattle.dwp_bytes.specs.Leb.{LebsTakeBytes};

/// The law of numbers of variable length: reading one goes forward by at least a byte. It does
/// nothing.
pub fn lebs_take_bytes()
    ensures { LebsTakeBytes }
{}
