//! A server proves and a client checks: proofs of one leaf, of leaves in a row, and of scattered leaves, sent as bytes.

use crate::input::{Operations, Source};
use crate::journal::Journal;
use crate::tally::{Halt, Tally};
use merkle_core::codec::{Read, Write};
use merkle_core::digest::Sha256Digest;
use merkle_core::family::{Bagging, Family};
use merkle_core::location::Location;
use merkle_core::proof::{MAX_PROOF_DIGESTS_PER_ELEMENT, Proof};
use merkle_core::verification::multi_proof;
use std::alloc::Global;

/// The most leaves in a row that are proved together.
const MOST_IN_ROW: u64 = 1000;

/// How many scattered leaves are proved together.
const SCATTERED: u64 = 50;

/// A server's journal, pruned, with its operations, its root, and how many peaks are inactive.
#[derive(Drop)]
pub struct Server<F: Family> {
    pub journal: Journal<F>,
    pub operations: Operations,
    pub inactive: usize,
    pub root: Sha256Digest,
}

impl<F: Family> Server<F> {
    /// The server of a journal of that many leaves, the first eighth of which are inactive and pruned.
    pub fn new(
        alloc: Global,
        source: &mut Source,
        leaves: u64,
        bagging: Bagging,
    ) -> Result<Self, Halt> {
        let mut journal: Journal<F> = Journal::new(alloc, bagging);
        let operations = source.operations(alloc, leaves)?;
        journal.append(&operations)?;
        let floor = Location::new(leaves / 8);
        let inactive = F::inactive_peaks(journal.structure.leaves(), floor);
        granted!(journal.structure.prune(floor));
        let root = granted!(journal.structure.root(&journal.hasher, inactive));
        Ok(Server {
            journal,
            operations,
            inactive,
            root,
        })
    }

    /// A leaf that is held, at least that many before the end.
    pub fn next_leaf(&self, source: &mut Source, before_end: u64) -> u64 {
        let bounds = self.journal.structure.bounds();
        let start = bounds.start.as_u64();
        let last = bounds.end.as_u64().saturating_sub(before_end);
        start.saturating_add(source.below(last.saturating_sub(start)))
    }

    /// The proof of leaves in a row.
    pub fn prove(&self, start: u64, end: u64) -> Result<Proof<F, Sha256Digest>, Halt> {
        let range = Location::new(start)..Location::new(end);
        let journal = &self.journal;
        Ok(granted!(
            journal
                .structure
                .range_proof(&journal.hasher, range, self.inactive)
        ))
    }

    // Sends a proof of that many leaves as bytes, and returns what is read from them.
    fn send(
        &self,
        proof: &Proof<F, Sha256Digest>,
        leaves: u64,
        tally: &mut Tally,
    ) -> Result<Proof<F, Sha256Digest>, Halt> {
        let alloc = self.journal.alloc;
        let mut bytes = Vec::new(alloc);
        granted!(proof.write(&mut bytes));
        tally.keep(&bytes);
        let most = MAX_PROOF_DIGESTS_PER_ELEMENT.saturating_mul(leaves as usize);
        let mut rest = bytes.as_slice();
        Ok(granted!(Proof::read(alloc, &mut rest, &most)))
    }

    // Proves one leaf, sends the proof as bytes, and checks what is read from them with the operation of the leaf.
    fn serve_one(&self, source: &mut Source, tally: &mut Tally) -> Result<(), Halt> {
        let leaf = self.next_leaf(source, 1);
        let location = Location::new(leaf);
        let journal = &self.journal;
        let sent = granted!(
            journal
                .structure
                .proof(&journal.hasher, location, self.inactive)
        );
        let proof = self.send(&sent, 1, tally)?;
        let element = self.operations.get(leaf)?;
        let is_right = granted!(proof.verify_element_inclusion(
            &journal.hasher,
            element,
            location,
            &self.root
        ));
        tally.keep_number(u64::from(is_right));
        Ok(())
    }

    // Proves leaves in a row, and checks that.
    fn serve_row(&self, source: &mut Source, count: u64, tally: &mut Tally) -> Result<(), Halt> {
        let count = count.min(self.journal.leaves() / 2).max(1);
        let start = self.next_leaf(source, count);
        let end = start.saturating_add(count);
        let proof = self.send(&self.prove(start, end)?, count, tally)?;
        let journal = &self.journal;
        let elements = self.operations.views(journal.alloc, start, end)?;
        let location = Location::new(start);
        let is_right = granted!(proof.verify_range_inclusion(
            &journal.hasher,
            &elements,
            location,
            &self.root
        ));
        tally.keep_number(u64::from(is_right));
        Ok(())
    }

    // Scattered leaves, ascending.
    fn scattered(&self, source: &mut Source) -> Result<Vec<Location<F>>, Halt> {
        let mut locations = Vec::new(self.journal.alloc);
        for _ in 0..SCATTERED {
            locations.push(Location::new(self.next_leaf(source, 1)))?;
        }
        locations.sort_unstable();
        locations.dedup();
        Ok(locations)
    }

    // The operations of some leaves, each with its location.
    fn located(&self, locations: &[Location<F>]) -> Result<Vec<(&[u8], Location<F>)>, Halt> {
        let mut all: Vec<(&[u8], Location<F>)> = Vec::new(self.journal.alloc);
        for location in locations {
            let element = self.operations.get(location.as_u64())?;
            if all.push((element, *location)).is_err() {
                return Err(Halt::OutOfMemory);
            }
        }
        Ok(all)
    }

    // Proves scattered leaves, and checks that.
    fn serve_scattered(&self, source: &mut Source, tally: &mut Tally) -> Result<(), Halt> {
        let locations = self.scattered(source)?;
        let journal = &self.journal;
        let alloc = journal.alloc;
        let sent = granted!(multi_proof(alloc, &journal.structure, self.inactive, &locations));
        let proof = self.send(&sent, SCATTERED, tally)?;
        let elements = self.located(&locations)?;
        let is_right = granted!(proof.verify_multi_inclusion(
            &journal.hasher,
            &elements,
            &self.root
        ));
        tally.keep_number(u64::from(is_right));
        Ok(())
    }

    // Proofs of one leaf for each hundred leaves of the journal, and fewer of the others.
    fn serve(&self, source: &mut Source, tally: &mut Tally) -> Result<(), Halt> {
        for _ in 0..self.journal.leaves() / 100 + 1 {
            for _ in 0..8 {
                self.serve_one(source, tally)?;
            }
            let count = source.below(MOST_IN_ROW / 10).saturating_add(10);
            self.serve_row(source, count, tally)?;
        }
        for _ in 0..self.journal.leaves() / 1000 + 1 {
            let count = source.below(MOST_IN_ROW).saturating_add(10);
            self.serve_row(source, count, tally)?;
            self.serve_scattered(source, tally)?;
            self.serve_scattered(source, tally)?;
        }
        Ok(())
    }
}

/// Proofs of a structure of that many leaves, and their checks, by both baggings.
pub fn run<F: Family>(
    alloc: Global,
    source: &mut Source,
    leaves: u64,
    tally: &mut Tally,
) -> Result<(), Halt> {
    let server: Server<F> = Server::new(alloc, source, leaves, Bagging::ForwardFold)?;
    server.serve(source, tally)?;
    let server: Server<F> = Server::new(alloc, source, leaves, Bagging::BackwardFold)?;
    server.serve(source, tally)
}
