//! Structures, batches and proofs as values: what they print, their copies, and who else may read them.

use super::{assert_prints, digest};
use merkle_core::batch::MerkleizedBatch;
use merkle_core::digest::{Digest, Xor8, Xor8Digest};
use merkle_core::element_plan::ElementPlan;
use merkle_core::error::{Error, OutOfMemory, ReconstructionError};
use merkle_core::family::{Bagging, Family, Unused};
use merkle_core::hasher::Hasher;
use merkle_core::mem::{Config, Mem};
use merkle_core::mmr::{Location, Mmr, Proof, StandardHasher};
use merkle_core::position::Position;
use merkle_core::range_plan::RangePlan;
use merkle_core::read::Readable;
use merkle_core::{mmb, mmr};
use std::alloc::Global;
use std::fmt::Debug;
use std::process::Abort;
use std::rc::Rc;

/// These digests.
fn list(rt: &(impl Abort + AllocGlobal), digests: &[Xor8Digest]) -> Vec<Xor8Digest> {
    digests.to_vec(rt.alloc()).ok().expect(rt, "memory")
}

/// The batch without changes to a structure; `None` where it is refused.
fn without_changes<F: Family, D: Digest>(
    structure: &Mem<F, D>,
) -> Option<Rc<MerkleizedBatch<F, D>>> {
    match MerkleizedBatch::from_mem(structure) {
        Ok(batch) => Some(batch),
        Err(_) => None,
    }
}

/// A batch over another with one more leaf, with an element of one byte, and its nodes; `None` where it is refused.
fn with_leaf<F: Family, H: Hasher<F>>(
    parent: &Rc<MerkleizedBatch<F, H::Digest>>,
    base: &Mem<F, H::Digest>,
    hasher: &H,
    element: u8,
) -> Option<Rc<MerkleizedBatch<F, H::Digest>>> {
    let Ok(batch) = parent.new_batch() else {
        return None;
    };
    let Ok(batch) = batch.add(hasher, &[element]) else {
        return None;
    };
    match batch.merkleize(base, hasher) {
        Ok(batch) => Some(batch),
        Err(_) => None,
    }
}

/// The structure of two leaves, with the elements 01 and 02, made of a batch and one over it; `None` where one is refused.
fn two_leaves_by<F: Family, H: Hasher<F>>(alloc: Global, hasher: &H) -> Option<Mem<F, H::Digest>> {
    let mut structure = Mem::new(alloc);
    let root = without_changes(&structure)?;
    let first = with_leaf(&root, &structure, hasher, 1)?;
    let second = with_leaf(&first, &structure, hasher, 2)?;
    if structure.apply_batch(&second).is_err() {
        return None;
    }
    Some(structure)
}

/// The leaves 01 and 03, with the node 00 over them. The hasher is a reference all the way.
fn two_leaves(alloc: Global) -> Option<Mmr<Xor8Digest>> {
    let standard = StandardHasher::<Xor8>::new(Bagging::ForwardFold);
    two_leaves_by(alloc, &&standard)
}

/// The node count of what is read, and its nodes up to position 3.
fn nodes_of<R: Readable<Digest = Xor8Digest>>(value: &R) -> (u64, [Option<Xor8Digest>; 4]) {
    let nodes = [
        value.get_node(Position::new(0)),
        value.get_node(Position::new(1)),
        value.get_node(Position::new(2)),
        value.get_node(Position::new(3)),
    ];
    (value.size().as_u64(), nodes)
}

#[test]
fn structure_read_as_any_other(rt: HostRuntime) {
    let structure = two_leaves(rt.alloc()).expect(&rt, "no refusal");
    let copy = structure.clone().ok().expect(&rt, "memory");
    let shared = Rc::new(rt.alloc(), structure).ok().expect(&rt, "memory");
    let nodes = [
        Some(digest(&rt, 1)),
        Some(digest(&rt, 3)),
        Some(digest(&rt, 0)),
        None,
    ];
    assert!(rt; nodes_of(&copy) == (3, nodes));
    assert!(rt; nodes_of(&shared) == (3, nodes));
}

const STRUCTURE: &str =
    "Mem { held: HeldNodes { start: Position(0), pins: {}, nodes: [Xor8Digest { byte: 1 }, Xor8Digest { byte: 3 }, Xor8Digest { byte: 0 }] }";

#[test]
fn what_is_printed_of_a_structure(rt: HostRuntime) {
    let structure = two_leaves(rt.alloc()).expect(&rt, "no refusal");
    assert_prints(&rt, rt.alloc(), &structure, STRUCTURE);
}

#[test]
fn what_is_printed_of_a_batch(rt: HostRuntime) {
    let structure: Mmr<Xor8Digest> = Mem::new(rt.alloc());
    let batch = without_changes(&structure).expect(&rt, "no refusal");
    let start = "MerkleizedBatch { own: Record { size_before: Position(0)";
    assert_prints(&rt, rt.alloc(), &batch, start);
}

const PARTS: &str =
    "Config { nodes: [Xor8Digest { byte: 5 }], pruning_boundary: Location(1), pinned_nodes: [Xor8Digest { byte: 7 }] }";

#[test]
fn what_is_printed_of_parts(rt: HostRuntime) {
    let (five, seven) = (digest(&rt, 5), digest(&rt, 7));
    let parts = Config {
        nodes: list(&rt, &[five]),
        pruning_boundary: Location::new(1),
        pinned_nodes: list(&rt, &[seven]),
    };
    assert_prints(&rt, rt.alloc(), &parts, PARTS);
}

/// Whether a proof is equal to that of these parts; `None` where there is no memory for that.
fn has_parts(
    alloc: Global,
    proof: &Proof<Xor8Digest>,
    leaves: u64,
    inactive_peaks: usize,
    digests: &[Xor8Digest],
) -> Option<bool> {
    let Ok(digests) = digests.to_vec(alloc) else {
        return None;
    };
    let made = Proof {
        leaves: Location::new(leaves),
        inactive_peaks,
        digests,
    };
    Some(*proof == made)
}

#[test]
fn proofs_and_their_copies(rt: HostRuntime) {
    let alloc = rt.alloc();
    let (three, seven) = (digest(&rt, 3), digest(&rt, 7));
    let proof = Proof {
        leaves: Location::new(3),
        inactive_peaks: 1,
        digests: list(&rt, &[seven, three]),
    };
    let copy = proof.clone().ok().expect(&rt, "memory");
    let same = [
        has_parts(alloc, &Proof::empty(alloc), 0, 0, &[]),
        has_parts(alloc, &proof, 3, 1, &[seven, three]),
        has_parts(alloc, &copy, 3, 1, &[seven, three]),
    ];
    let other = [
        has_parts(alloc, &proof, 4, 1, &[seven, three]),
        has_parts(alloc, &proof, 3, 0, &[seven, three]),
        has_parts(alloc, &proof, 3, 1, &[seven]),
        has_parts(alloc, &proof, 3, 1, &[three, seven]),
    ];
    assert!(rt; same == [Some(true); 3]);
    assert!(rt; other == [Some(false); 4]);
}

#[test]
fn what_is_printed_of_errors(rt: HostRuntime) {
    let alloc = rt.alloc();
    let error = Error::<mmr::Family>::LocationOverflow(Location::new(7));
    assert_prints(&rt, alloc, &error, "LocationOverflow(Location(7))");
    assert_prints(&rt, alloc, &ReconstructionError::InvalidSize, "InvalidSize");
    assert_prints(&rt, alloc, &OutOfMemory, "OutOfMemory");
}

#[test]
fn what_is_printed_of_a_proof(rt: HostRuntime) {
    let proof = Proof {
        leaves: Location::new(3),
        inactive_peaks: 1,
        digests: list(&rt, &[digest(&rt, 7)]),
    };
    let start = "Proof { leaves: Location(3), inactive_peaks: 1, digests: [Xor8Digest { byte: 7 }]";
    assert_prints(&rt, rt.alloc(), &proof, start);
}

#[test]
fn what_is_printed_of_plans(rt: HostRuntime) {
    let alloc = rt.alloc();
    let (leaves, first) = (Location::new(3), Location::new(0));
    let range = RangePlan::new(alloc, leaves, first..leaves)
        .ok()
        .expect(&rt, "no refusal");
    assert_prints(&rt, alloc, &range, "RangePlan { leaves: Location(3)");
    let leaf = ElementPlan::new(alloc, leaves, first)
        .ok()
        .expect(&rt, "no refusal");
    assert_prints(
        &rt,
        alloc,
        &leaf,
        "ElementPlan { plan: RangePlan { leaves: Location(3)",
    );
}

/// Asserts that a marker is equal to its copy, and what is printed of it.
fn assert_marker<T: Copy + Eq + Debug + Default>(rt: &impl Abort, alloc: Global, text: &str) {
    let marker = T::default();
    let copy = marker;
    assert!(rt; marker == copy);
    assert_prints(rt, alloc, &copy, text);
}

#[test]
fn markers(rt: HostRuntime) {
    assert_marker::<mmr::Family>(&rt, rt.alloc(), "Family");
    assert_marker::<mmb::Family>(&rt, rt.alloc(), "Family");
    assert_marker::<Unused>(&rt, rt.alloc(), "Unused");
}
