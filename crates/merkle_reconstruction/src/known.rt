//! The digests of nodes that are known by position.
ghost use Rattle.std.specs.Prelude.{◌≡◌, [], ◌++◌, ℕ, IfOk, IfSome, OnOk, map};
ghost use Rattle.merkle_base.specs.Hashing.{Hashing};
ghost use Rattle.merkle_base.specs.Table.{digest_for};
ghost use Rattle.merkle_reconstruction.specs.Inside.{AreListed, IsDigestAt};

use merkle_base::family::Family;
use merkle_base::position::Position;
use merkle_digest::digest::Digest;
use merkle_hasher::hasher::{Hasher, Parent};
use merkle_hasher::nodes::node_digests;
use std::alloc::{AllocError, Global};

/// The digests of some nodes, each at the index of its position.
#[derive(Drop)]
pub struct ComputedNodes<F, D> {
    /// The positions of the nodes.
    pub(crate) positions: Vec<Position<F>>,
    /// Their digests.
    pub(crate) digests: Vec<D>,
}

impl<F: Family, D: Digest> ComputedNodes<F, D> {
    /// Creates an empty table.
    pub(crate) fn new(alloc: Global) -> Self
        ensures positions { result.positions.items ≡ [] }
        ensures digests { result.digests.items ≡ [] }
    {
        ComputedNodes {
            positions: Vec::new(alloc),
            digests: Vec::new(alloc),
        }
    }

    /// Creates an empty table with room for `capacity` nodes.
    pub(crate) fn with_capacity(alloc: Global, capacity: usize) -> Result<Self, AllocError>
        ensures positions { IfOk result (λ k. k.positions.items ≡ []) }
        ensures digests { IfOk result (λ k. k.digests.items ≡ []) }
    {
        let positions = Vec::with_capacity(alloc, capacity)?;
        let digests = Vec::with_capacity(alloc, capacity)?;
        Ok(ComputedNodes { positions, digests })
    }

    /// Computes the digests of nodes, which are given with the digests of their children.
    pub(crate) fn of_parents<H: Hasher<F, Digest = D>>(
        alloc: Global,
        hasher: &H,
        parents: &[Parent<F, D>],
    ) -> Result<Self, AllocError>
        ensures positions { IfOk result (λ k. k.positions.items ≡ map (λ n. n.0) parents.now) }
        ensures digests { IfOk result (λ k. k.digests.items ≡ map (λ n. (H.hashing hasher.now).node n.0 n.1 n.2) parents.now) }
    {
        let mut known = ComputedNodes::with_capacity(alloc, parents.len())?;
        known.put_parents(hasher, parents)?;
        Ok(known)
    }

    /// Computes the digests of further nodes, which are given with the digests of their children.
    pub(crate) fn put_parents<H: Hasher<F, Digest = D>>(
        &mut self,
        hasher: &H,
        parents: &[Parent<F, D>],
    ) -> Result<(), AllocError>
        ensures positions { OnOk result (self.new.positions.items ≡ self.old.positions.items ++ map (λ n. n.0) parents.now) }
        ensures digests { OnOk result (self.new.digests.items ≡ self.old.digests.items ++ map (λ n. (H.hashing hasher.now).node n.0 n.1 n.2) parents.now) }
    {
        for parent in parents {
            self.positions.push(parent.0)?;
        }
        node_digests(hasher, parents, &mut self.digests)
    }

    /// Returns the digest of the node at `position`, if it is known.
    pub(crate) fn get(&self, position: Position<F>) -> Option<D>
        ensures { result ≡ digest_for self.now.positions.items self.now.digests.items position }
    {
        find_digest(&self.positions, &self.digests, position)
    }

    /// Returns the digest of the node that is `number`-th from the end, the last being the first, if
    /// `position` is that node's.
    pub(crate) fn get_numbered(&self, number: usize, position: Position<F>) -> Option<D>
        ensures { (h : Hashing D) (leaf : ℕ → D) → AreListed h F.rule F.MAX_LEAVES leaf self.now.positions.items self.now.digests.items
            → IfSome result (λ d. IsDigestAt h F.rule F.MAX_LEAVES leaf position d) }
    {
        let Some(index) = self.positions.len().checked_sub(number) else {
            return None;
        };
        let Some(found) = self.positions.get(index) else {
            return None;
        };
        if *found == position {
            return self.digests.get(index).copied();
        }
        None
    }
}

/// Returns the digest at the index that `position` has among `positions`.
pub fn find_digest<F, D: Digest>(
    positions: &[Position<F>],
    digests: &[D],
    position: Position<F>,
) -> Option<D>
    ensures { result ≡ digest_for positions.now digests.now position }
{
    let mut rest = digests;
    for listed in positions {
        let Some((digest, others)) = rest.split_first() else {
            return None;
        };
        if *listed == position {
            return Some(*digest);
        }
        rest = others;
    }
    None
}
