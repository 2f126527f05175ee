//! Proofs and their checks, measured at one hash and one bagging.

use crate::stopwatch::Stopwatch;
use merkle_core::digest::Digest;
use merkle_core::family::Family;
use merkle_core::hasher::Hasher;
use merkle_core::location::Location;
use merkle_core::mem::Mem;
use merkle_core::proof::Proof;
use std::alloc::Global;
use std::time::CpuClock;

/// The most leaves of a range, but for a long one.
const MOST_IN_RANGE: u64 = 50;

/// The most leaves of a long range.
const MOST_IN_LONG_RANGE: u64 = 1000;

/// How often the proof of a long range is checked.
const TIMES: usize = 5;

/// Leaves in a row: the first one, and the one after the last.
type LeafRange = (u64, u64);

/// How the structure's proof of leaves in a row is asked for.
#[derive(Clone, Copy)]
enum Query {
    Leaf,
    Range,
}

/// What is done with a proof and the elements of its leaves.
#[derive(Clone, Copy)]
enum Task {
    LeafCheck,
    RangeCheck,
    PinnedCheck,
    Extraction,
}

/// A proof of leaves in a row.
#[derive(Drop)]
pub struct Case<F: Family, D: Digest> {
    leaves: LeafRange,
    pub proof: Proof<F, D>,
    // the digests of the peaks over the leaves before
    pins: Vec<D>,
}

/// What proofs are made of and checked against, at one hash and one bagging, under a name in the table.
#[derive(Drop)]
pub struct Proofs<'a, F: Family, H: Hasher<F>> {
    alloc: Global,
    tree: &'static str,
    hasher: &'a H,
    structure: &'a Mem<F, H::Digest>,
    elements: &'a [&'a [u8]],
    root: H::Digest,
}

impl<'a, F: Family, H: Hasher<F>> Proofs<'a, F, H> {
    /// The proofs of a structure of leaves with these elements, under that name in the table.
    pub fn new(
        alloc: Global,
        tree: &'static str,
        hasher: &'a H,
        structure: &'a Mem<F, H::Digest>,
        elements: &'a [&'a [u8]],
    ) -> Option<Self> {
        let root = structure.root(hasher, 0).ok()?;
        Some(Proofs {
            alloc,
            tree,
            hasher,
            structure,
            elements,
            root,
        })
    }

    // The proofs of these leaves, each with the pins before them.
    fn cases(&self, ranges: &[LeafRange]) -> Option<Vec<Case<F, H::Digest>>> {
        let mut cases = Vec::new(self.alloc);
        for (start, end) in ranges {
            let range = Location::new(*start)..Location::new(*end);
            let proof = self.structure.range_proof(self.hasher, range, 0).ok()?;
            let pins = pins_of(self.alloc, self.structure, Location::new(*start))?;
            let leaves = (*start, *end);
            cases
                .push(Case {
                    leaves,
                    proof,
                    pins,
                })
                .ok()?;
        }
        Some(cases)
    }

    // Makes the proofs of these leaves, and lets them go.
    fn prove_each<C: CpuClock>(
        &self,
        watch: &mut Stopwatch<C>,
        work: &'static str,
        query: Query,
        ranges: &[LeafRange],
    ) {
        let mut digests: usize = 0;
        let begun = watch.now();
        for (start, end) in ranges {
            let (start, end) = (Location::new(*start), Location::new(*end));
            let proof = match query {
                Query::Leaf => self.structure.proof(self.hasher, start, 0),
                Query::Range => self.structure.range_proof(self.hasher, start..end, 0),
            };
            match proof {
                Ok(proof) => digests = digests.wrapping_add(proof.digests.len()),
                Err(_) => watch.is_whole = false,
            }
        }
        watch.note(self.tree, work, ranges.len() as u64, begun);
        watch.keep(&digests.to_be_bytes());
    }

    // Whether a task with a proof and the elements of its leaves is done.
    fn does(&self, task: Task, case: &Case<F, H::Digest>) -> bool {
        let (hasher, proof, root) = (self.hasher, &case.proof, &self.root);
        let (start, end) = case.leaves;
        let Some(elements) = self.elements.get(start as usize..end as usize) else {
            return false;
        };
        let start = Location::new(start);
        match task {
            Task::LeafCheck => match elements.first() {
                Some(element) => matches!(
                    proof.verify_element_inclusion(hasher, element, start, root),
                    Ok(true)
                ),
                None => false,
            },
            Task::RangeCheck => matches!(
                proof.verify_range_inclusion(hasher, elements, start, root),
                Ok(true)
            ),
            Task::PinnedCheck => matches!(
                proof.verify_proof_and_pinned_nodes(hasher, elements, start, &case.pins, root),
                Ok(true)
            ),
            Task::Extraction => proof
                .verify_range_inclusion_and_extract_digests(hasher, elements, start, root)
                .is_ok(),
        }
    }

    // Does a task with each of these proofs.
    fn do_each<C: CpuClock>(
        &self,
        watch: &mut Stopwatch<C>,
        work: &'static str,
        task: Task,
        cases: &[Case<F, H::Digest>],
    ) {
        let begun = watch.now();
        for case in cases {
            watch.is_whole &= self.does(task, case);
        }
        watch.note(self.tree, work, cases.len() as u64, begun);
    }

    /// Proofs of these leaves, and of the ranges that begin at them, and their checks, the last ones at the other bagging. Those
    /// of the leaves are returned.
    pub fn measure_proofs<C: CpuClock>(
        &self,
        watch: &mut Stopwatch<C>,
        backward: &Self,
        leaves: &[u64],
    ) -> Option<Vec<Case<F, H::Digest>>> {
        let count = self.elements.len() as u64;
        let ranges = ranges_of(self.alloc, leaves, count, 1)?;
        self.prove_each(watch, "proof of one", Query::Leaf, &ranges);
        let ones = self.cases(&ranges)?;
        self.do_each(watch, "check of one", Task::LeafCheck, &ones);
        let ranges = ranges_of(self.alloc, leaves, count, MOST_IN_RANGE)?;
        self.prove_each(watch, "proof of 50", Query::Range, &ranges);
        let cases = self.cases(&ranges)?;
        self.do_each(watch, "check of 50", Task::RangeCheck, &cases);
        self.do_each(watch, "extraction of 50", Task::Extraction, &cases);
        self.do_each(watch, "pinned check of 50", Task::PinnedCheck, &cases);
        let cases = backward.cases(&ranges)?;
        backward.do_each(watch, "check of 50, backward", Task::RangeCheck, &cases);
        Some(ones)
    }

    /// The check of a proof of many leaves in a row, from a third of all leaves on.
    pub fn measure_long_check<C: CpuClock>(&self, watch: &mut Stopwatch<C>) -> Option<()> {
        let leaves = self.elements.len() as u64;
        let start = leaves / 3;
        let end = start.saturating_add(MOST_IN_LONG_RANGE).min(leaves);
        let cases = self.cases(&[(start, end); TIMES])?;
        self.do_each(watch, "check of 1000", Task::RangeCheck, &cases);
        Some(())
    }
}

// The digests of the peaks of the first leaves of a structure, oldest first.
fn pins_of<F: Family, D: Digest>(
    alloc: Global,
    structure: &Mem<F, D>,
    leaves: Location<F>,
) -> Option<Vec<D>> {
    let mut pins = Vec::new(alloc);
    if !leaves.is_valid() {
        return None;
    }
    for position in F::nodes_to_pin(leaves) {
        pins.push(structure.get_node(position)?).ok()?;
    }
    Some(pins)
}

// Ranges of at most so many leaves, each from one of these leaves on, the last of them up to the leaf count.
fn ranges_of(alloc: Global, starts: &[u64], leaves: u64, most: u64) -> Option<Vec<LeafRange>> {
    let mut ranges = Vec::new(alloc);
    for start in starts {
        let end = start.saturating_add(most).min(leaves);
        ranges.push((*start, end)).ok()?;
    }
    Some(ranges)
}
