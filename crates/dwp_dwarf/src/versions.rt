//! Maps from numbers, among them one whose versions share what they have alike.

ghost use Rattle.std.specs.Prelude.{false, IfSome, length, Some, true, ℕ, ◌<◌, ◌≡◌, ◌≢◌, ◌≤◌};
ghost use Rattle.dwp_dwarf.specs.Versions.{node_of, side_of, value_below, value_in, with_side};
ghost use Rattle.dwp_dwarf.specs.Versions.{copy_of, Grows, half, older};
ghost use Rattle.std.specs.{BTreeMap.get, Ordering.nat_cmp};

use std::alloc::Global;
use std::collections::BTreeMap;

/// Puts a value under a key. False where there is no memory for it.
pub(crate) fn put<V: Drop>(map: &mut BTreeMap<u64, V>, key: u64, value: V) -> bool
    ensures added { result ≡ true → get nat_cmp map.new key ≡ Some value }
    ensures others { (other : ℕ) → other ≢ key
        → get nat_cmp map.new other ≡ get nat_cmp map.old other }
    ensures refused { result ≡ false → (other : ℕ)
        → get nat_cmp map.new other ≡ get nat_cmp map.old other }
{
    map.insert(key, value).is_ok()
}

/// The value of a key, and where the others are.
#[derive(Clone, Copy)]
pub(crate) struct Node {
    // 0 where there is none.
    pub(crate) value: u32,
    // The version that has each even key but 0, as half of what is before it, rounded down.
    pub(crate) even: u32,
    // The version that has each odd key, as half of what is before it.
    pub(crate) odd: u32,
}

/// A map from numbers to numbers but 0, in versions that are all kept. The version 0 has nothing.
#[derive(Drop)]
pub(crate) struct Versions {
    // Each version but 0 is the number of a node, counted from 1.
    pub(crate) nodes: Vec<Node>,
}

/// The nodes on a way, at most: one for each bit of a key, and one below them.
const LEVELS: u32 = 65;

impl Versions {
    /// The version 0 alone. No memory is taken.
    pub(crate) fn new(alloc: Global) -> Versions {
        Versions {
            nodes: Vec::new(alloc),
        }
    }

    pub(crate) fn get(&self, version: u32, key: u64) -> Option<u32>
        ensures { result ≡ value_in self.now.nodes.items version key }
    {
        value_below(&self.nodes, LEVELS, version, key)
    }

    /// A version that has this value for the key, and else what that version has. It takes as many
    /// nodes as the number behind the key has bits, at most 65. None for the value 0, or where
    /// there is no memory.
    pub(crate) fn insert(&mut self, version: u32, key: u64, value: u32) -> Option<u32>
        ensures grows { Grows self.old.nodes.items self.new.nodes.items }
        ensures fits { IfSome result (λ added. added ≤ length self.new.nodes.items) }
        ensures value { IfSome result (λ added. value_in self.new.nodes.items added key
            ≡ Some value) }
        ensures others { IfSome result (λ added. (other : ℕ) → other ≢ key → value_in
            self.new.nodes.items added other ≡ value_in self.old.nodes.items version other) }
    {
        if value == 0 {
            return None;
        }
        insert_below(&mut self.nodes, LEVELS, version, key, value)
    }
}

impl Node {
    fn side(&self, key: u64) -> u32
        ensures { result ≡ side_of self.now key }
    {
        if key % 2 == 0 { self.even } else { self.odd }
    }

    /// The node with another version on the side of a key.
    fn with_side(mut self, key: u64, version: u32) -> Node
        ensures { result ≡ with_side self key version }
    {
        if key % 2 == 0 {
            self.even = version;
        } else {
            self.odd = version;
        }
        self
    }
}

fn older(version: u32, other: u32) -> u32
    ensures { result ≡ older version other }
{
    if other < version { other } else { 0 }
}

/// What is left of a key on its side.
fn half(key: u64) -> u64
    ensures { result ≡ half key }
{
    key.saturating_sub(1) / 2
}

fn node_of(nodes: &[Node], version: u32) -> Option<Node>
    ensures { result ≡ node_of nodes.now version }
{
    if version == 0 {
        return None;
    }
    nodes.get(version as usize - 1).copied()
}

/// A node that has what a version has.
fn copy_of(nodes: &[Node], version: u32) -> Node
    ensures { result ≡ copy_of nodes.now version }
{
    match node_of(nodes, version) {
        Some(node) => Node {
            value: node.value,
            even: older(version, node.even),
            odd: older(version, node.odd),
        },
        None => Node {
            value: 0,
            even: 0,
            odd: 0,
        },
    }
}

/// The value of a key in a version, of so many nodes on the way at most.
#[tactic(auto, using(crate::proofs::Places::one_level), unfolding(crate::specs::Versions::value_below))]
fn value_below(nodes: &[Node], levels: u32, version: u32, key: u64) -> Option<u32>
    ensures { result ≡ value_below levels nodes.now version key }
{
    if levels == 0 {
        return None;
    }
    let node = node_of(nodes, version)?;
    if key == 0 {
        return (node.value != 0).then_some(node.value);
    }
    value_below(nodes, levels - 1, older(version, node.side(key)), half(key))
}

/// Adds a node, and says its version.
fn add(nodes: &mut Vec<Node>, node: Node) -> Option<u32>
    ensures grows { Grows nodes.old.items nodes.new.items }
    ensures fits { IfSome result (λ added. added ≤ length nodes.new.items) }
    ensures above { IfSome result (λ added. length nodes.old.items < added) }
    ensures node { IfSome result (λ added. node_of nodes.new.items added ≡ Some node) }
{
    nodes.push(node).ok()?;
    u32::try_from(nodes.len()).ok()
}

/// A version that has the value for the key, and else what that version has, of so many nodes on
/// the way at most.
fn insert_below(
    nodes: &mut Vec<Node>,
    levels: u32,
    version: u32,
    key: u64,
    value: u32,
) -> Option<u32>
    requires { value ≢ 0 }
    ensures grows { Grows nodes.old.items nodes.new.items }
    ensures fits { IfSome result (λ added. added ≤ length nodes.new.items) }
    ensures value { IfSome result (λ added. value_below levels nodes.new.items added key
        ≡ Some value) }
    ensures others { IfSome result (λ added. (other : ℕ) → other ≢ key → value_below levels
        nodes.new.items added other ≡ value_below levels nodes.old.items version other) }
{
    if levels == 0 {
        return None;
    }
    let node = copy_of(nodes, version);
    if key == 0 {
        return add(nodes, Node { value, ..node });
    }
    let side = insert_below(nodes, levels - 1, node.side(key), half(key), value)?;
    add(nodes, node.with_side(key, side))
}
