//! The nodes that a structure holds.
ghost use Rattle.std.specs.Prelude.{◌≡◌, ◌+◌, ◌-◌, ◌^◌, ◌<◌, ◌≤◌, ℕ, [], ◌++◌, Some, OnOk, IfOk, length, nat_lt, slice_get, ◌==◌, cond};
ghost use Rattle.std.specs.FinMap.{get};
ghost use Rattle.std.specs.Map.{lookup};
ghost use Rattle.std.specs.VecDeque.{deque_len, deque_capacity};
ghost use Rattle.merkle_batch_theory.specs.Held.{PinsBefore, overwritten_by};
ghost use Rattle.merkle_batch_theory.specs.MemModel.{stored_of};

use merkle_base::family::Family;
use merkle_base::position::Position;
use merkle_digest::digest::Digest;
use std::alloc::{AllocError, Global};
use std::collections::{BTreeMap, VecDeque};
use std::marker::Model;

/// The nodes that a structure holds: all from position `start` on, and pinned ones before it.
///
/// Contracts model it as that position, the size in nodes, the nodes by position, and the number of
/// nodes that its memory has room for.
#[derive(Debug, Drop)]
pub struct HeldNodes<F: Family, D: Digest> {
    start: Position<F>,
    // the nodes before `start` that are held, by position
    pins: BTreeMap<Position<F>, D>,
    // the nodes from position `start` on
    nodes: VecDeque<D>,
}

impl<F: Family, D: Digest> Model for HeldNodes<F, D> {
    ghost use Rattle.std.specs.Prelude.{◌+◌, length};
    ghost use Rattle.std.specs.VecDeque.{deque_capacity};
    ghost use Rattle.merkle_batch_theory.specs.Held.{Held, held_code, PinsBefore};
    ghost use Rattle.merkle_batch_theory.specs.MemModel.{stored_of};

    ghost Value = { Held D };

    ghost coded = { held_code D.code };

    ghost view = { λ h. record {
      start = h.start;
      size = h.start + length h.nodes.items;
      stored = stored_of h.pins.entries h.start h.nodes.items;
      capacity = h.start + deque_capacity h.nodes;
    } };

    ghost invariant = { λ h. PinsBefore h.start h.pins.entries };
}

impl<F: Family, D: Digest> HeldNodes<F, D> {
    /// Holds no nodes.
    pub fn new(alloc: Global) -> Self
        ensures start { result.start ≡ 0 }
        ensures size { result.size ≡ 0 }
        ensures stored { result.stored ≡ stored_of [] 0 [] }
    {
        HeldNodes {
            start: Position::new(0),
            pins: BTreeMap::new(alloc),
            nodes: VecDeque::new(alloc),
        }
    }

    /// Holds the nodes from position `start` on, and pins before it.
    pub fn from_parts(start: Position<F>, pins: BTreeMap<Position<F>, D>, nodes: Vec<D>) -> Self
        requires { PinsBefore start pins.entries }
        ensures start { result.start ≡ start }
        ensures size { result.size ≡ start + length nodes.items }
        ensures stored { result.stored ≡ stored_of pins.entries start nodes.items }
    {
        HeldNodes {
            start,
            pins,
            nodes: VecDeque::from(nodes),
        }
    }

    /// Returns the size in nodes, including nodes that are not held.
    pub fn size(&self) -> Position<F>
        requires { self.now.size < 2 ^ 64 }
        ensures { result ≡ self.now.size }
    {
        self.start + self.nodes.len() as u64
    }

    /// Returns the digest of the node at `position`, or `None` if it is not held.
    pub fn get(&self, position: Position<F>) -> Option<D>
        ensures { result ≡ get self.now.stored position }
    {
        if position < self.start {
            self.pins.get(&position).copied()
        } else {
            self.nodes
                .get((position - self.start).as_u64() as usize)
                .copied()
        }
    }

    /// Returns the allocator of the nodes.
    pub fn allocator(&self) -> Global {
        *self.nodes.allocator()
    }

    /// Returns a deep copy. Fails only if a memory request is refused.
    pub fn clone(&self) -> Result<Self, AllocError>
        ensures start { IfOk result (λ h. h.start ≡ self.now.start) }
        ensures size { IfOk result (λ h. h.size ≡ self.now.size) }
        ensures stored { IfOk result (λ h. h.stored ≡ self.now.stored) }
    {
        Ok(HeldNodes {
            start: self.start,
            pins: self.pins.clone()?,
            nodes: copied(&self.nodes)?,
        })
    }

    /// Reserves room for `count` more nodes. Fails only if a memory request is refused.
    pub fn reserve(&mut self, count: usize) -> Result<(), AllocError>
        ensures start { self.new.start ≡ self.old.start }
        ensures size { self.new.size ≡ self.old.size }
        ensures stored { self.new.stored ≡ self.old.stored }
        ensures room { OnOk result (self.old.size + count ≤ self.new.capacity) }
    {
        self.nodes.reserve(count)
    }

    /// Replaces the digest of the node at `position`, if it is held.
    pub fn replace(&mut self, position: Position<F>, digest: D)
        ensures start { self.new.start ≡ self.old.start }
        ensures size { self.new.size ≡ self.old.size }
        ensures capacity { self.new.capacity ≡ self.old.capacity }
        ensures stored { (p : ℕ) → get self.new.stored p ≡ cond (p == position) (overwritten_by (Some digest) (get self.old.stored p)) (get self.old.stored p) }
    {
        if position < self.start {
            if let Some(pin) = self.pins.get_mut(&position) {
                *pin = digest;
            }
        } else if let Some(node) = self
            .nodes
            .get_mut((position - self.start).as_u64() as usize)
        {
            *node = digest;
        }
    }

    /// Appends nodes, for which there is room.
    pub fn append(&mut self, digests: &[D])
        requires { self.old.size + length digests.now ≤ self.old.capacity }
        ensures start { self.new.start ≡ self.old.start }
        ensures size { self.new.size ≡ self.old.size + length digests.now }
        ensures capacity { self.new.capacity ≡ self.old.capacity }
        ensures stored { (p : ℕ) → get self.new.stored p ≡ cond (nat_lt p self.old.size) (get self.old.stored p) (slice_get digests.now (p - self.old.size)) }
    {
        push_all(&mut self.nodes, digests);
    }

    /// Drops the nodes before position `start`, and pins `pins`.
    pub fn drop_before(&mut self, start: Position<F>, pins: BTreeMap<Position<F>, D>)
        requires later { self.old.start ≤ start }
        requires within { start ≤ self.old.size }
        requires before { PinsBefore start pins.entries }
        ensures start { self.new.start ≡ start }
        ensures size { self.new.size ≡ self.old.size }
        ensures stored { (p : ℕ) → get self.new.stored p ≡ cond (nat_lt p start) (lookup (λ q. p == q) pins.entries) (get self.old.stored p) }
    {
        let gone = (start - self.start).as_u64() as usize;
        self.nodes.drain(..gone);
        self.pins = pins;
        self.start = start;
    }
}

// Returns a copy of the nodes.
fn copied<D: Digest>(nodes: &VecDeque<D>) -> Result<VecDeque<D>, AllocError>
    ensures { IfOk result (λ copy. copy.items ≡ nodes.now.items) }
{
    let (older, newer) = nodes.as_slices();
    let mut copy = Vec::with_capacity(*nodes.allocator(), nodes.len())?;
    copy.extend_from_slice(older)?;
    copy.extend_from_slice(newer)?;
    Ok(VecDeque::from(copy))
}

// Appends nodes, for which there is room.
fn push_all<D: Digest>(nodes: &mut VecDeque<D>, digests: &[D])
    requires { deque_len nodes.old + length digests.now ≤ deque_capacity nodes.old }
    ensures capacity { deque_capacity nodes.new ≡ deque_capacity nodes.old }
    ensures items { nodes.new.items ≡ nodes.old.items ++ digests.now }
{
    for digest in digests {
        nodes.push_back_reserved(*digest);
    }
}
