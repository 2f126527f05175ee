//! The calls that are measured, at one family and one hash.

use crate::codec::measure_codec;
use crate::hashers::Hashers;
use crate::nodes::measure_nodes;
use crate::proofs::Proofs;
use crate::scattered::measure_scattered;
use crate::stopwatch::Stopwatch;
use crate::workload::{ELEMENT_SIZE, Workload};
use merkle_core::batch::UnmerkleizedBatch;
use merkle_core::digest::Digest;
use merkle_core::family::Family;
use merkle_core::hasher::Hasher;
use merkle_core::location::Location;
use merkle_core::mem::Mem;
use merkle_core::position::Position;
use std::alloc::Global;
use std::time::CpuClock;

/// The names of the rows of a batch that is merkleized and applied.
#[derive(Clone, Copy)]
struct CommitRows {
    merkleize: &'static str,
    apply: &'static str,
}

const APPEND_ROWS: CommitRows = CommitRows {
    merkleize: "append at once: merkleize",
    apply: "append at once: apply",
};

const UPDATE_ROWS: CommitRows = CommitRows {
    merkleize: "updates: merkleize",
    apply: "updates: apply",
};

/// What is measured at one family and one hash, under a name in the table.
#[derive(Drop)]
struct Trees<'a, F: Family, H: Hasher<F>> {
    alloc: Global,
    name: &'static str,
    hashers: &'a Hashers<H>,
    elements: &'a [&'a [u8]],
    scattered: &'a [u64],
    structure: Mem<F, H::Digest>,
}

impl<F: Family, H: Hasher<F>> Trees<'_, F, H> {
    // All leaves in one batch, whose digests are computed several at a time. The batch is dropped.
    fn add_together<C: CpuClock>(&self, watch: &mut Stopwatch<C>) -> Option<()> {
        let start = watch.now();
        let batch = self.structure.new_batch().ok()?;
        let batch = batch.add_all(&self.hashers.forward, self.elements).ok()?;
        let units = self.elements.len() as u64;
        watch.note(self.name, "append at once: add_all", units, start);
        watch.keep(&batch.leaves().as_u64().to_be_bytes());
        Some(())
    }

    // A batch of all leaves, which are added one by one.
    fn add_each<C: CpuClock>(
        &self,
        watch: &mut Stopwatch<C>,
    ) -> Option<UnmerkleizedBatch<F, H::Digest>> {
        let start = watch.now();
        let mut batch = self.structure.new_batch().ok()?;
        for element in self.elements {
            batch = batch.add(&self.hashers.forward, element).ok()?;
        }
        let units = self.elements.len() as u64;
        watch.note(self.name, "append at once: add", units, start);
        Some(batch)
    }

    // A batch with new elements for the scattered leaves.
    fn update_each<C: CpuClock>(
        &self,
        watch: &mut Stopwatch<C>,
    ) -> Option<UnmerkleizedBatch<F, H::Digest>> {
        let start = watch.now();
        let mut batch = self.structure.new_batch().ok()?;
        for leaf in self.scattered {
            batch = batch
                .update_leaf(&self.hashers.forward, Location::new(*leaf), b"new")
                .ok()?;
        }
        let units = self.scattered.len() as u64;
        watch.note(self.name, "updates: update", units, start);
        Some(batch)
    }

    // The digests of a batch of so many leaves, which is then applied.
    fn commit<C: CpuClock>(
        &mut self,
        watch: &mut Stopwatch<C>,
        rows: &CommitRows,
        units: usize,
        batch: UnmerkleizedBatch<F, H::Digest>,
    ) -> Option<()> {
        let start = watch.now();
        let batch = batch
            .merkleize(&self.structure, &self.hashers.forward)
            .ok()?;
        watch.note(self.name, rows.merkleize, units as u64, start);
        let start = watch.now();
        watch.is_whole &= self.structure.apply_batch(&batch).is_ok();
        watch.note(self.name, rows.apply, units as u64, start);
        Some(())
    }

    // The search for a damaged node, of which there is none.
    fn search_damage<C: CpuClock>(&self, watch: &mut Stopwatch<C>) {
        let start = watch.now();
        let found = self.structure.first_damaged(&self.hashers.forward);
        let units = self.elements.len() as u64;
        watch.note(self.name, "first_damaged", units, start);
        watch.is_whole &= found.is_none();
    }

    // A batch for each leaf.
    fn append_one_by_one<C: CpuClock>(&self, watch: &mut Stopwatch<C>) -> Option<()> {
        let mut structure: Mem<F, H::Digest> = Mem::new(self.alloc);
        let start = watch.now();
        for element in self.elements {
            append(&mut structure, &self.hashers.forward, element)?;
        }
        let units = self.elements.len() as u64;
        watch.note(self.name, "append one by one", units, start);
        Some(())
    }

    // The root, many times.
    fn roots<C: CpuClock>(&self, watch: &mut Stopwatch<C>) {
        let units = 100;
        let start = watch.now();
        for _ in 0..units {
            match self.structure.root(&self.hashers.forward, 0) {
                Ok(root) => watch.keep(root.as_bytes()),
                Err(_) => watch.is_whole = false,
            }
        }
        watch.note(self.name, "root", units, start);
    }

    // The proofs of the structure at a bagging.
    fn proofs_by<'b>(&'b self, hasher: &'b H) -> Option<Proofs<'b, F, H>> {
        Proofs::new(
            self.alloc,
            self.name,
            hasher,
            &self.structure,
            self.elements,
        )
    }

    // Proofs, their checks and bytes.
    fn proofs<C: CpuClock>(&self, watch: &mut Stopwatch<C>) -> Option<()> {
        let leaves = self.scattered;
        let forward = self.proofs_by(&self.hashers.forward)?;
        let backward = self.proofs_by(&self.hashers.backward)?;
        let ones = forward.measure_proofs(watch, &backward, leaves)?;
        measure_scattered(
            self.alloc,
            watch,
            self.name,
            &self.hashers.forward,
            &self.structure,
            self.elements,
            leaves,
        )?;
        forward.measure_long_check(watch)?;
        measure_codec(self.alloc, watch, self.name, &ones);
        Some(())
    }

    // A copy, which is pruned to its half.
    fn prune<C: CpuClock>(&self, watch: &mut Stopwatch<C>) -> Option<()> {
        let half = Location::new(self.structure.leaves().as_u64() / 2);
        let start = watch.now();
        let mut copy = self.structure.clone().ok()?;
        watch.note(self.name, "clone", 1, start);
        let start = watch.now();
        watch.is_whole &= copy.prune(half).is_ok();
        watch.note(self.name, "prune to half", 1, start);
        Some(())
    }

    // The positions of the leaves.
    fn leaf_positions(&self) -> Option<Vec<u64>> {
        let mut positions = Vec::new(self.alloc);
        for leaf in 0..self.elements.len() as u64 {
            let Ok(position) = Position::<F>::try_from(Location::new(leaf)) else {
                return None;
            };
            positions.push(position.as_u64()).ok()?;
        }
        Some(positions)
    }

    // The locations at these positions.
    fn locations<C: CpuClock>(
        &self,
        watch: &mut Stopwatch<C>,
        work: &'static str,
        positions: &[u64],
    ) {
        let mut sum: u64 = 0;
        let start = watch.now();
        for number in positions {
            let position = Position::<F>::new(*number);
            if !position.is_valid() {
                watch.is_whole = false;
                continue;
            }
            if let Some(location) = F::position_to_location(position) {
                sum = sum.wrapping_add(location.as_u64());
            }
        }
        watch.keep(&sum.to_be_bytes());
        watch.note(self.name, work, positions.len() as u64, start);
    }

    // The hash of 72 bytes, which is that of a node.
    fn hashes<C: CpuClock>(&self, watch: &mut Stopwatch<C>) {
        let units = 1000;
        let mut bytes = [7u8; 72];
        let start = watch.now();
        for i in 0..units {
            bytes[0] = u64::to_be_bytes(i)[7];
            let digest = self.hashers.forward.hash(&[&bytes]);
            watch.keep(digest.as_bytes());
        }
        watch.note(self.name, "hash of 72 bytes", units, start);
    }

    // All calls, in one round.
    fn measure<C: CpuClock>(&mut self, watch: &mut Stopwatch<C>) -> Option<()> {
        self.add_together(watch)?;
        let batch = self.add_each(watch)?;
        self.commit(watch, &APPEND_ROWS, self.elements.len(), batch)?;
        self.search_damage(watch);
        self.append_one_by_one(watch)?;
        self.roots(watch);
        self.proofs(watch)?;
        self.prune(watch)?;
        let batch = self.update_each(watch)?;
        self.commit(watch, &UPDATE_ROWS, self.scattered.len(), batch)?;
        let positions = self.leaf_positions()?;
        self.locations(watch, "position_to_location of leaves", &positions);
        self.locations(watch, "position_to_location, scattered", self.scattered);
        self.hashes(watch);
        measure_nodes(self.alloc, watch, self.name, &self.hashers.forward)
    }
}

// Appends a leaf in a batch of its own.
fn append<F: Family, H: Hasher<F>>(
    structure: &mut Mem<F, H::Digest>,
    hasher: &H,
    element: &[u8],
) -> Option<()> {
    let batch = structure.new_batch().ok()?;
    let batch = batch.add(hasher, element).ok()?;
    let batch = batch.merkleize(structure, hasher).ok()?;
    if structure.apply_batch(&batch).is_err() {
        return None;
    }
    Some(())
}

/// Measures all calls at a family and a hash, in one round, under that name in the table.
pub fn measure<F: Family, H: Hasher<F>, C: CpuClock>(
    alloc: Global,
    watch: &mut Stopwatch<C>,
    name: &'static str,
    hashers: &Hashers<H>,
    workload: &Workload,
) -> Option<()> {
    let elements: Vec<&[u8]> = workload
        .elements
        .chunks_exact(ELEMENT_SIZE)
        .collect(alloc)
        .ok()?;
    let mut trees: Trees<F, H> = Trees {
        alloc,
        name,
        hashers,
        elements: &elements,
        scattered: &workload.scattered,
        structure: Mem::new(alloc),
    };
    trees.measure(watch)
}
