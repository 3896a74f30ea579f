//! What exports take and answer.

/// Bytes that were lent: where they begin, and how many there are.
#[repr(C)]
#[derive(Clone, Copy)]
pub struct ThorinBytes<'a> {
    /// The bytes.
    pub bytes: &'a [u8],
}

/// A unit's part of a section, in bytes; of size 0 where it has none there.
#[repr(C)]
#[derive(Clone, Copy)]
pub struct ThorinRange {
    /// Where it begins in its section.
    pub offset: u64,
    /// How many bytes it has.
    pub size: u64,
}

/// A unit of a package: its ranges in the sections, its row in the index and its encoding.
#[repr(C)]
#[derive(Clone, Copy)]
pub struct ThorinUnit {
    /// Its range in each section that it may have a part of, in the order of `CONTRIBUTION_KINDS`.
    pub ranges: [ThorinRange; 10],
    /// Its row in the index of its kind, counted from 1.
    pub row: u32,
    /// How many slots of the index were looked at.
    pub slots: u32,
    /// The version of DWARF.
    pub version: u16,
    /// How many bytes an offset has, 4 or 8.
    pub offset_size: u8,
    /// How many bytes an address has.
    pub address_size: u8,
}

/// Where the sections of a package lie among its bytes: plain numbers, of which any are safe.
#[repr(C)]
#[derive(Clone, Copy)]
pub struct ThorinPackage {
    /// Each section, in the order of `SectionKind::ALL`.
    pub sections: [ThorinRange; 13],
    /// 0 where numbers have their lowest byte first.
    pub big_endian: u64,
}

/// A unit that an index names.
#[repr(C)]
#[derive(Clone, Copy)]
pub struct ThorinName {
    /// The identifier of a compilation unit, or the signature of a type unit.
    pub id: u64,
    /// Its row in the index of its kind, counted from 1.
    pub row: u32,
    /// 1 for a compilation unit, 2 for a type unit.
    pub kind: u8,
}

/// A split unit that an executable names.
#[repr(C)]
#[derive(Clone, Copy)]
pub struct ThorinSkeleton {
    /// The identifier of a compilation unit, or the signature of a type unit.
    pub id: u64,
    /// How many bytes the path of its object has, without the zero byte behind it.
    pub path_size: u64,
    /// 1 for a compilation unit, 2 for a type unit.
    pub kind: u8,
}

/// One of many look-ups: which unit, and what came of it.
#[repr(C)]
#[derive(Clone, Copy)]
pub struct ThorinLookup {
    /// The identifier or signature that is asked for.
    pub id: u64,
    /// 1 for a compilation unit, 2 for a type unit.
    pub kind: u8,
    /// What `thorin_find` answers.
    pub status: i32,
    /// The unit, where the status is 0.
    pub unit: ThorinUnit,
}

/// What packing tells beside its answer.
#[repr(C)]
#[derive(Clone, Copy)]
pub struct ThorinReport {
    /// How many bytes the package has.
    pub size: u64,
    /// The number of the input that was refused, or at which memory ran out, from 0 on.
    pub input: u64,
    /// How many type units were passed over whose bytes differ from those of the unit that is kept.
    pub differing: u64,
    /// 1 where the package is sure to be taken as an input again, else 0.
    pub packs_again: u32,
    /// The number of the error, from 1 on.
    pub fault: u32,
    /// How many bytes the error's text has.
    pub text_size: u32,
    /// The error's text, with a zero byte behind it.
    pub text: [u8; 256],
}
