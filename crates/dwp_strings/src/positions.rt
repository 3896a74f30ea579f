//! Lists of numbers, read and changed by rank.

ghost use Rattle.std.specs.Prelude.{◌≡◌, ◌≤◌, ◌<◌, ◌+◌, ◌^◌, List, [], ◌++◌, All, length};
ghost use Rattle.std.specs.Prelude.{slice_index, slice_index_or, slice_set, vec_len, insert, map};
ghost use Rattle.std.specs.Prelude.{filter, nat_lt, take, drop, OnOk, OnErr, IfOk};
ghost use Rattle.dwp_strings.specs.Chunks.{pieces, starts_from, AreShort, IsHalved, IsPieceOf};
ghost use Rattle.{dwp_strings.specs.Chunks.IsChunked, std.specs.List.concat};

use std::alloc::{AllocError, Global};
use std::marker::Model;

/// How many numbers a chunk holds before it is cut in two.
const CHUNK: usize = 1024;

/// A list of numbers, read and changed by rank.
///
/// It is kept in chunks of bounded size, with the rank at which each begins: an insertion moves the
/// numbers of one chunk, and a rank finds its chunk by halving the list of chunks.
#[derive(Drop)]
pub struct Positions {
    alloc: Global,
    chunks: Vec<Vec<u64>>,
    starts: Vec<usize>,
    len: usize,
}

impl Model for Positions {
    ghost use Rattle.std.specs.Prelude.{List, ℕ};
    ghost use Rattle.std.specs.List.{concat};
    ghost use Rattle.dwp_strings.specs.Chunks.{pieces, IsChunked};

    ghost Value = { List ℕ };

    ghost view = { λ p. concat (pieces p.chunks.items) };

    ghost invariant = { λ p. IsChunked (pieces p.chunks.items) p.starts.items p.len };
}

/// The chunk in which a rank is, or goes. The chunk `near` is tried first.
fn chunk_of(starts: &[usize], rank: usize, near: usize) -> usize
    requires some { 0 < length starts.now }
    requires first { slice_index starts.now 0 ≤ rank }
    ensures { IsPieceOf starts.now rank result }
{
    let mut low = 0;
    let mut high = starts.len();
    if near < high && starts[near] <= rank && (near + 1 == high || rank < starts[near + 1]) {
        return near;
    }
    while high - low > 1 {
        let middle = low + (high - low) / 2;
        if starts[middle] <= rank {
            low = middle;
        } else {
            high = middle;
        }
    }
    low
}

/// Puts a number into a chunk.
fn put(chunks: &mut Vec<Vec<u64>>, at: usize, place: usize, position: u64) -> Result<(), AllocError>
    requires chunk { at < vec_len chunks.old }
    requires within { place ≤ length (slice_index_or (pieces chunks.old.items) at []) }
    ensures ok { OnOk result (pieces chunks.new.items ≡ slice_set (pieces chunks.old.items) at
        (insert (slice_index_or (pieces chunks.old.items) at []) place position)) }
    ensures err { OnErr result (pieces chunks.new.items ≡ pieces chunks.old.items) }
{
    let chunk = &mut chunks[at];
    chunk.insert(place, position)?;
    Ok(())
}

/// Adds one to each number from a place on.
fn raise(starts: &mut [usize], from: usize)
    requires within { from ≤ length starts.old }
    requires small { All (λ s. s + 1 < 2 ^ 64) starts.old }
    ensures { starts.new ≡ take from starts.old ++ map (λ s. s + 1) (drop from starts.old) }
{
    for i in from..starts.len() {
        starts[i] += 1;
    }
}

/// Cuts a chunk in two.
#[tactic(auto, using(crate::proofs::Chunks::counts))]
fn cut(
    alloc: Global,
    chunks: &mut Vec<Vec<u64>>,
    starts: &mut Vec<usize>,
    at: usize,
) -> Result<(), AllocError>
    requires chunk { at < vec_len chunks.old }
    requires begun { starts.old.items ≡ starts_from 0 (pieces chunks.old.items) }
    requires small { length (concat (pieces chunks.old.items)) < 2 ^ 64 }
    requires short { AreShort (pieces chunks.old.items) }
    ensures begun { starts.new.items ≡ starts_from 0 (pieces chunks.new.items) }
    ensures same { concat (pieces chunks.new.items) ≡ concat (pieces chunks.old.items) }
    ensures short { AreShort (pieces chunks.new.items) }
    ensures halved { OnOk result (IsHalved (pieces chunks.old.items) (pieces chunks.new.items) at) }
{
    chunks.reserve(1)?;
    starts.reserve(1)?;
    let chunk = &mut chunks[at];
    let half = chunk.len() / 2;
    let upper = Vec::from_slice(alloc, &chunk[half..])?;
    chunk.truncate(half);
    chunks.insert(at + 1, upper).unwrap();
    let start = starts[at] + half;
    starts.insert(at + 1, start).unwrap();
    Ok(())
}

/// Makes room for a number at a rank, and gives the chunk in which it goes.
#[tactic(auto, using(crate::proofs::Chunks::counts, crate::proofs::Chunks::first_start))]
fn room_at(
    alloc: Global,
    chunks: &mut Vec<Vec<u64>>,
    starts: &mut Vec<usize>,
    rank: usize,
) -> Result<usize, AllocError>
    requires begun { starts.old.items ≡ starts_from 0 (pieces chunks.old.items) }
    requires small { length (concat (pieces chunks.old.items)) < 2 ^ 64 }
    requires short { AreShort (pieces chunks.old.items) }
    ensures begun { starts.new.items ≡ starts_from 0 (pieces chunks.new.items) }
    ensures same { concat (pieces chunks.new.items) ≡ concat (pieces chunks.old.items) }
    ensures short { AreShort (pieces chunks.new.items) }
    ensures at { IfOk result (IsPieceOf starts.new.items rank) }
    ensures room { IfOk result (λ at.
        length (slice_index_or (pieces chunks.new.items) at []) < 1024) }
{
    if chunks.is_empty() {
        chunks.reserve(1)?;
        starts.push(0)?;
        chunks.push(Vec::new(alloc)).unwrap();
        return Ok(0);
    }
    let at = chunk_of(starts, rank, 0);
    if chunks[at].len() < CHUNK {
        return Ok(at);
    }
    cut(alloc, chunks, starts, at)?;
    Ok(if rank < starts[at + 1] { at } else { at + 1 })
}

/// Keeps the numbers below a limit, and gives how many they are.
#[tactic(auto, using(crate::proofs::Chunks::counts))]
fn keep_all(chunks: &mut Vec<Vec<u64>>, starts: &mut [usize], limit: u64) -> usize
    requires begun { starts.old ≡ starts_from 0 (pieces chunks.old.items) }
    requires small { length (concat (pieces chunks.old.items)) < 2 ^ 64 }
    requires short { AreShort (pieces chunks.old.items) }
    ensures kept { pieces chunks.new.items
        ≡ map (filter (λ p. nat_lt p limit)) (pieces chunks.old.items) }
    ensures chunked { IsChunked (pieces chunks.new.items) starts.new result }
{
    let mut total = 0;
    for at in 0..starts.len() {
        starts[at] = total;
        let chunk = &mut chunks[at];
        chunk.retain(|p| *p < limit);
        total += chunk.len();
    }
    total
}

#[tactic(auto, using(crate::proofs::Chunks::counts))]
impl Positions {
    /// The empty list, which takes no memory.
    pub fn new(alloc: Global) -> Self
        ensures { result ≡ [] }
    {
        Positions {
            alloc,
            chunks: Vec::new(alloc),
            starts: Vec::new(alloc),
            len: 0,
        }
    }

    /// How many numbers there are.
    pub fn len(&self) -> usize
        ensures { result ≡ length self.now }
    {
        self.len
    }

    /// The number of a rank, and its chunk. The chunk `near` is tried first.
    #[tactic(auto, using(crate::proofs::Chunks::counts, crate::proofs::Chunks::first_start, crate::proofs::Chunks::some_piece))]
    pub fn get_near(&self, rank: usize, near: usize) -> (u64, usize)
        requires { rank < length self.now }
        ensures { result.0 ≡ slice_index self.now rank }
    {
        let at = chunk_of(self.starts.as_slice(), rank, near);
        let chunk = &self.chunks[at];
        (chunk[rank - self.starts[at]], at)
    }

    /// Puts a number at a rank, and moves those from there on up by one. Errors: want of memory,
    /// and then the list is as it was.
    pub fn insert(&mut self, rank: usize, position: u64) -> Result<(), AllocError>
        requires within { rank ≤ length self.old }
        requires small { length self.old + 1 < 2 ^ 64 }
        ensures ok { OnOk result (self.new ≡ insert self.old rank position) }
        ensures err { OnErr result (self.new ≡ self.old) }
    {
        let at = room_at(self.alloc, &mut self.chunks, &mut self.starts, rank)?;
        let place = rank - self.starts[at];
        put(&mut self.chunks, at, place, position)?;
        raise(&mut self.starts, at + 1);
        self.len += 1;
        Ok(())
    }

    /// Keeps the numbers below a limit, in their order.
    #[tactic(auto, using(crate::proofs::Chunks::counts, crate::proofs::Chunks::concat_filter))]
    pub fn keep_below(&mut self, limit: u64)
        ensures { self.new ≡ filter (λ p. nat_lt p limit) self.old }
    {
        self.len = keep_all(&mut self.chunks, &mut self.starts, limit);
    }
}
