//! What is wrong with DWARF data.

use thiserror::Error;

/// What is wrong with DWARF data, or with an index of a package.
#[derive(Clone, Copy, Debug, PartialEq, Eq, Hash, Error)]
pub enum ReadError {
    /// The bytes end within what is read.
    #[error("Unexpected end of data")]
    UnexpectedEof,
    /// An initial length from 0xfffffff0 to 0xfffffffe.
    #[error("Reserved unit length")]
    ReservedLength,
    /// A version other than 2 to 5.
    #[error("Unknown DWARF version")]
    UnknownVersion,
    /// A unit type other than 1 to 6.
    #[error("Unknown unit type")]
    UnknownUnitType,
    /// An address size other than 1, 2, 4 or 8.
    #[error("Unknown address size")]
    AddressSize,
    /// A LEB128 number past 64 bits or 10 bytes.
    #[error("LEB128 number is too large")]
    BigLeb,
    /// A form that isn't known.
    #[error("Unknown form")]
    UnknownForm,
    /// An abbreviation with tag 0.
    #[error("Abbreviation with tag 0")]
    ZeroTag,
    /// An abbreviation's byte on children that is neither 0 nor 1.
    #[error("Bad byte on children in an abbreviation")]
    BadChildren,
    /// An abbreviation code that its table doesn't have.
    #[error("Unknown abbreviation code")]
    UnknownCode,
    /// An offset past the end of its section.
    #[error("Offset is outside its section")]
    OffsetOutOfRange,
    /// A string with no zero byte at its end.
    #[error("String without a terminator")]
    NoTerminator,
    /// A text that is no UTF-8.
    #[error("Text is no UTF-8")]
    BadUtf8,
    /// An index of a version other than 2 and 5.
    #[error("Unknown index version")]
    IndexVersion,
    /// A number of slots that is neither a power of two above the number of units, nor 0 with no
    /// units.
    #[error("Bad number of slots in an index")]
    SlotCount,
    /// A column that the index's version lacks.
    #[error("Unknown column in an index")]
    UnknownColumn,
    /// A column that stands twice in an index.
    #[error("Repeated column in an index")]
    RepeatedColumn,
    /// A row number past the rows of an index.
    #[error("Row number is past the rows of the index")]
    RowOutOfRange,
    /// An attribute whose form is no string.
    #[error("Attribute is no string")]
    NotAString,
}

/// Why DWARF data could not be written.
#[derive(Clone, Copy, Debug, PartialEq, Eq, Hash, Error)]
pub enum WriteError {
    /// A value doesn't fit its field.
    #[error("Value is too large for its field")]
    ValueTooLarge,
}
