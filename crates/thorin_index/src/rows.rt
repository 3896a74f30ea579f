//! The rows of an index, each held in few bytes: what neighbouring rows share is held once.
#![tactic(auto, using(crate::proofs::Held::rows_held))]

ghost use Rattle.std.specs.Prelude.{get_or, length, Some, take, [], ◌++◌, ◌+◌, ◌<◌, ◌∷◌, ◌≡◌, ◌≤◌};
ghost use Rattle.std.specs.Prelude.{IfOk, IsTrue, OnErr, OnOk, slice_get};
ghost use Rattle.dwp_table.specs.Table.{HasSlots, IsHashTable};
ghost use Rattle.thorin_errors.specs.Answers.{Gives};
ghost use Rattle.thorin_index.specs.{Entries.contribution_to, EntryTests.count_test, Rows.with_own};
ghost use Rattle.thorin_index.specs.{IndexText.entry_ids, Rows.blank};

use crate::entry::IndexEntry;
use crate::index_writer::bucket;
use dwp_base::{Contribution, SectionKind};
use dwp_bytes::Encoding;
use dwp_table::{Bucketable, CONTRIBUTION_KINDS, DebugTypeSignature, DwarfObject};
use std::alloc::{AllocError, Global};
use std::marker::Model;
use thorin_errors::Error;

/// The contribution of a unit to the section that it stands in, which it shares with no other.
#[derive(Clone, Copy)]
enum Own {
    /// It has none.
    Nothing,
    /// To `.debug_info.dwo`.
    Info(Contribution),
    /// To `.debug_types.dwo`.
    Types(Contribution),
}

/// A row but for what it may share with others, of which it has the number.
#[derive(Clone, Copy)]
struct Row {
    id: DwarfObject,
    own: Own,
    shared: usize,
}

impl Bucketable for Row {
    ghost use Rattle.dwp_table.specs.Objects.{identifier_of};

    ghost identifier = { λ row. identifier_of row.id };

    fn index(&self) -> u64 {
        self.id.index()
    }
}

/// An entry but for its unit, and for the contribution to the section that the unit stands in.
fn split(entry: &IndexEntry) -> (Own, IndexEntry)
    ensures { with_own entry.now.id result.0 result.1 ≡ entry.now }
{
    let mut shared = *entry;
    shared.id = DwarfObject::TypeUnit(DebugTypeSignature(0));
    if let Some(range) = shared.debug_info {
        shared.debug_info = None;
        return (Own::Info(range), shared);
    }
    if let Some(range) = shared.debug_types {
        shared.debug_types = None;
        return (Own::Types(range), shared);
    }
    (Own::Nothing, shared)
}

/// Whether two entries are the same.
fn same_entry(a: &IndexEntry, b: &IndexEntry) -> bool
    ensures { IsTrue result → a.now ≡ b.now }
{
    for kind in &CONTRIBUTION_KINDS {
        if a.contribution(*kind) != b.contribution(*kind) {
            return false;
        }
    }
    a.encoding == b.encoding && a.id == b.id
}

/// The number of an entry among others: that of the last, where it is the same, else of a new last
/// one. Errors: `AllocError` where there is no memory; then nothing is added.
pub fn share(entries: &mut Vec<IndexEntry>, entry: &IndexEntry) -> Result<usize, AllocError>
    ensures there { IfOk result (λ number. slice_get entries.new.items number ≡ Some entry.now) }
    ensures kept { take (length entries.old.items) entries.new.items ≡ entries.old.items }
    ensures last { IfOk result (λ number. number + 1 ≡ length entries.new.items) }
    ensures few { IfOk result (λ number. number ≤ length entries.old.items) }
    ensures err { OnErr result (entries.new.items ≡ entries.old.items) }
{
    let count = entries.len();
    if count > 0 && same_entry(&entries[count - 1], entry) {
        return Ok(count - 1);
    }
    entries.push(*entry)?;
    Ok(count)
}

/// The rows of an index. In clauses they are the list of their entries.
///
/// The units of an object share their contributions to all sections but the one that they stand in.
/// Of rows that follow each other and share these, each but the first takes 48 bytes, where an
/// entry takes 264.
#[derive(Drop)]
pub struct IndexRows {
    rows: Vec<Row>,
    // What rows share: entries whose unit, and whose contribution to its section, say nothing.
    shared: Vec<IndexEntry>,
}

impl Model for IndexRows {
    ghost use Rattle.std.specs.Prelude.{◌<◌, All, List, length, map};
    ghost use Rattle.thorin_index.specs.declared.entry.IndexEntry.{IndexEntry};
    ghost use Rattle.thorin_index.specs.Rows.{row_of};

    ghost Value = { List IndexEntry };

    ghost view = { λ r. map (row_of r.shared.items) r.rows.items };

    ghost invariant = { λ r. All (λ row. row.shared < length r.shared.items) r.rows.items };
}

impl IndexRows {
    /// No rows, which take no memory.
    pub fn new(alloc: Global) -> IndexRows
        ensures { result ≡ [] }
    {
        IndexRows {
            rows: Vec::new(alloc),
            shared: Vec::new(alloc),
        }
    }

    /// How many rows there are.
    pub fn len(&self) -> usize
        ensures { result ≡ length self.now }
    {
        self.rows.len()
    }

    /// The unit of a row.
    pub fn unit(&self, position: usize) -> DwarfObject
        requires { position < length self.now }
        ensures { result ≡ (get_or self.now position blank).id }
    {
        self.rows[position].id
    }

    /// The encoding of a row's unit.
    pub fn encoding(&self, position: usize) -> Encoding
        requires { position < length self.now }
        ensures { result ≡ (get_or self.now position blank).encoding }
    {
        self.shared[self.rows[position].shared].encoding
    }

    /// The contribution of a row's unit to a section; none to one that an index has no column for.
    pub fn contribution(&self, position: usize, kind: SectionKind) -> Option<Contribution>
        requires { position < length self.now }
        ensures { result ≡ contribution_to kind (get_or self.now position blank) }
    {
        let Row { own, shared, .. } = self.rows[position];
        match (kind, own) {
            (SectionKind::Info, Own::Info(range)) => Some(range),
            (SectionKind::Types, Own::Types(range)) => Some(range),
            _ => self.shared[shared].contribution(kind),
        }
    }

    /// The entry of a row.
    pub fn entry(&self, position: usize) -> IndexEntry
        requires { position < length self.now }
        ensures { result ≡ get_or self.now position result }
    {
        let row = self.rows[position];
        let mut entry = self.shared[row.shared];
        entry.id = row.id;
        match row.own {
            Own::Nothing => {}
            Own::Info(range) => entry.debug_info = Some(range),
            Own::Types(range) => entry.debug_types = Some(range),
        }
        entry
    }

    /// Adds a row. Errors: `AllocError` where there is no memory; then the rows are as they were.
    pub fn push(&mut self, entry: &IndexEntry) -> Result<(), AllocError>
        ensures pushed { OnOk result (self.new ≡ self.old ++ entry.now ∷ []) }
        ensures err { OnErr result (self.new ≡ self.old) }
    {
        let (own, rest) = split(entry);
        let shared = share(&mut self.shared, &rest)?;
        let row = Row {
            id: entry.id,
            own,
            shared,
        };
        self.rows.push(row)?;
        Ok(())
    }

    /// The slots of a hash table of the rows' units.
    pub(crate) fn slots(&self, alloc: Global) -> Result<Vec<u32>, Error>
        ensures refusal { Gives (λ _. tt) result (count_test (length self.now)) }
        ensures table { IfOk result (λ slots. IsHashTable (entry_ids self.now) slots.items) }
        ensures slots { IfOk result (λ slots. HasSlots (length self.now) (length slots.items)) }
    {
        let table = bucket(alloc, &self.rows)?;
        Ok(table.slots)
    }

    /// Forgets the rows behind so many.
    pub fn truncate(&mut self, count: usize)
        ensures { self.new ≡ take count self.old }
    {
        self.rows.truncate(count);
    }
}
