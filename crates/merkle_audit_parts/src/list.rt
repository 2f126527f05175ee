//! A list of leaf digests, with its nodes and what is hashed for its root.
ghost use Rattle.std.specs.Prelude.{◌≡◌, ◌≢◌, ◌≤◌, ◌<◌, Some, Ok, Err, IfOk, IfErr, IsOkUnless, length, map};
ghost use Rattle.merkle_base.specs.Cases.{first_case};
ghost use Rattle.merkle_base.specs.Places.{peaks_of};
ghost use Rattle.merkle_hasher.specs.declared.subtree.Subtree.{Subtree};
ghost use Rattle.merkle_audit_theory.specs.Seen.{children_of};
ghost use Rattle.merkle_audit_parts.specs.Found.{list_refusals};
ghost use Rattle.merkle_audit_parts.specs.Listed.{digest_in, IsOfList, ForListed, GivesListRoot, RefusesListRoot, GivesListTop, IsHashedList};

use merkle_core::batch::MerkleizedBatch;
use merkle_core::digest::Digest;
use merkle_core::error::{Error, OutOfMemory};
use merkle_core::family::Family;
use merkle_core::hasher::Hasher;
use merkle_core::location::Location;
use merkle_core::mem::Mem;
use merkle_core::position::Position;
use merkle_core::subtree::Subtree;
use merkle_hasher::peaks::list_peaks;
use merkle_walks::nodes::Hashes;
use merkle_walks::top::{Shape, Top, above_peaks};
use std::alloc::{AllocError, Global};
use std::rc::Rc;

/// The nodes of a list.
#[derive(Drop)]
pub struct ListNodes<F: Family, D: Digest> {
    /// A batch that adds all leaves to a structure without any.
    pub nodes: Rc<MerkleizedBatch<F, D>>,
}

/// Returns the leaf count of a list of this length.
///
/// # Errors
///
/// - `LocationOverflow` of the length if it exceeds [`MAX_LEAVES`](Family::MAX_LEAVES)
pub fn leaf_count<F: Family>(length: usize) -> Result<Location<F>, Error<F>>
    ensures ok { IfOk result (λ n. (n ≡ length) × (n ≤ F.MAX_LEAVES)) }
    ensures err { IfErr result (λ e. (F.MAX_LEAVES < length) × (e ≡ Error.LocationOverflow length)) }
{
    let leaves = Location::new(length as u64);
    if leaves.is_valid() {
        Ok(leaves)
    } else {
        Err(Error::LocationOverflow(leaves))
    }
}

/// Returns the number of peaks of a list of `leaves` leaves.
///
/// Requires `leaves` to be at most [`MAX_LEAVES`](Family::MAX_LEAVES).
pub(crate) fn peak_count<F: Family>(leaves: Location<F>) -> usize
    requires { leaves ≤ F.MAX_LEAVES }
    ensures { result ≡ length (peaks_of F.rule leaves) }
{
    F::nodes_to_pin(leaves).count()
}

/// Returns the leaf count of a list of `count` leaves, which has at least `inactive` peaks. It hashes
/// nothing.
///
/// # Errors
///
/// The first that applies:
/// - `LocationOverflow` of the leaf count if it exceeds [`MAX_LEAVES`](Family::MAX_LEAVES)
/// - `InvalidInactivePeaks` if `inactive` exceeds the number of peaks
pub fn allowed_count<F: Family>(count: usize, inactive: usize) -> Result<Location<F>, Error<F>>
    ensures ok { IfOk result (λ n. (n ≡ count) × (n ≤ F.MAX_LEAVES) × (inactive ≤ length (peaks_of F.rule n))) }
    ensures err { IfErr result (λ e. first_case (list_refusals F.rule F.MAX_LEAVES count inactive) ≡ Some e) }
{
    let leaves = match leaf_count(count) {
        Ok(leaves) => leaves,
        Err(error) => return Err(error),
    };
    let peaks = peak_count(leaves);
    if inactive > peaks {
        return Err(Error::InvalidInactivePeaks {
            requested: inactive,
            peaks,
        });
    }
    Ok(leaves)
}

impl<F: Family, D: Digest> ListNodes<F, D> {
    /// Computes the nodes of a list.
    ///
    /// Requires that its length is within [`MAX_LEAVES`](Family::MAX_LEAVES).
    ///
    /// # Errors
    ///
    /// - `OutOfMemory` if a memory request is refused
    pub fn new<H: Hasher<F, Digest = D>>(
        alloc: Global,
        hasher: &H,
        list: &[D],
    ) -> Result<Self, Error<F>>
        requires { length list.now ≤ F.MAX_LEAVES }
        ensures of_list { let s = H.scheme hasher.now in IfOk result (λ v. IsOfList s.hashing s.rule v.nodes.value list.now) }
        ensures refused { IsOkUnless result Error.OutOfMemory }
    {
        let empty = Mem::new(alloc);
        let batch = match empty.new_batch() {
            Ok(batch) => batch,
            Err(error) => return Err(error),
        };
        let batch = match batch.add_leaf_digests(list) {
            Ok(batch) => batch,
            Err(error) => return Err(error),
        };
        match batch.merkleize(&empty, hasher) {
            Ok(nodes) => Ok(ListNodes { nodes }),
            Err(error) => Err(error),
        }
    }

    /// Returns the root of the list for a number of inactive peaks.
    ///
    /// # Errors
    ///
    /// - `InvalidInactivePeaks` if `inactive` exceeds the number of peaks of the list
    pub fn root<H: Hasher<F, Digest = D>>(&self, hasher: &H, inactive: usize) -> Result<D, Error<F>>
        ensures ok { let s = H.scheme hasher.now in ForListed s self.now.nodes.value (GivesListRoot s inactive result) }
        ensures err { let s = H.scheme hasher.now in ForListed s self.now.nodes.value (RefusesListRoot s inactive result) }
    {
        self.nodes.root(hasher, inactive)
    }

    // Returns the digest of a node of the list.
    fn digest(&self, position: Position<F>) -> D
        ensures { result ≡ digest_in D.EMPTY self.now.nodes.value position }
    {
        match self.nodes.get_node(position) {
            Some(digest) => digest,
            None => D::EMPTY,
        }
    }

    /// Returns the digests of nodes of the list, in their order; the empty digest for a node that it does not have.
    ///
    /// # Errors
    ///
    /// - `AllocError` if a memory request is refused
    pub fn digests(&self, alloc: Global, nodes: &[Subtree<F>]) -> Result<Vec<D>, AllocError>
        ensures { IfOk result (λ v. v.items ≡ map (λ (n : Subtree F). digest_in D.EMPTY self.now.nodes.value n.position) nodes.now) }
    {
        let mut digests = Vec::with_capacity(alloc, nodes.len())?;
        for node in nodes {
            digests.push(self.digest(node.position))?;
        }
        Ok(digests)
    }

    /// Returns what is hashed above the peaks of the list.
    ///
    /// Requires at least `inactive` peaks, and at most 64.
    ///
    /// # Errors
    ///
    /// - `OutOfMemory` if a memory request is refused
    pub fn top<H: Hasher<F, Digest = D>>(
        &self,
        alloc: Global,
        hasher: &H,
        inactive: usize,
        peaks: &[Subtree<F>],
    ) -> Result<Top<F, D>, OutOfMemory>
        requires inactive { inactive ≤ length peaks.now }
        requires few { length peaks.now ≤ 64 }
        ensures { let s = H.scheme hasher.now in ForListed s self.now.nodes.value (GivesListTop s inactive peaks.now result) }
    {
        let digests = self.digests(alloc, peaks)?;
        let shape = Shape {
            leaves: self.nodes.leaves(),
            inactive,
            apart: inactive,
            number: 1,
        };
        above_peaks(alloc, hasher, &shape, &digests)
    }
}

impl<F: Family, D: Digest> Hashes<F, D> for ListNodes<F, D> {
    ghost hashed = { λ s t. children_of (digest_in D.EMPTY s.nodes.value) t };

    fn pair(&self, left: &Subtree<F>, right: &Subtree<F>) -> Option<(D, D)> {
        Some((self.digest(left.position), self.digest(right.position)))
    }
}

/// All that is hashed for a list, and its root.
#[derive(Drop)]
pub struct HashedList<F: Family, D: Digest> {
    pub root: D,
    pub top: Top<F, D>,
    pub nodes: ListNodes<F, D>,
    pub peaks: Vec<Subtree<F>>,
}

impl<F: Family, D: Digest> HashedList<F, D> {
    /// Computes all that is hashed for a list and a number of inactive peaks. A list that is refused costs
    /// no hash.
    ///
    /// # Errors
    ///
    /// The first that applies:
    /// - `LocationOverflow` of the length of the list if it exceeds [`MAX_LEAVES`](Family::MAX_LEAVES)
    /// - `InvalidInactivePeaks` if `inactive` exceeds the number of peaks of the list
    ///
    /// `OutOfMemory` at any point if a memory request is refused.
    pub fn new<H: Hasher<F, Digest = D>>(
        alloc: Global,
        hasher: &H,
        list: &[D],
        inactive: usize,
    ) -> Result<Self, Error<F>>
        ensures err { IfErr result (λ e. e ≢ Error.OutOfMemory
            → first_case (list_refusals F.rule F.MAX_LEAVES (length list.now) inactive) ≡ Some e) }
        ensures within { IfOk result (λ _. (length list.now ≤ F.MAX_LEAVES) × (inactive ≤ length (peaks_of F.rule (length list.now)))) }
        ensures hashed { let s = H.scheme hasher.now in IfOk result (λ l. IsHashedList s list.now inactive l) }
    {
        let leaves = match allowed_count(list.len(), inactive) {
            Ok(leaves) => leaves,
            Err(error) => return Err(error),
        };
        let peaks = list_peaks(alloc, leaves)?;
        let nodes = match ListNodes::new(alloc, hasher, list) {
            Ok(nodes) => nodes,
            Err(error) => return Err(error),
        };
        let root = match nodes.root(hasher, inactive) {
            Ok(root) => root,
            Err(error) => return Err(error),
        };
        let Ok(top) = nodes.top(alloc, hasher, inactive, &peaks) else {
            return Err(Error::OutOfMemory);
        };
        Ok(HashedList {
            root,
            top,
            nodes,
            peaks,
        })
    }
}
