//! A client catches up: it checks a long range with pins, keeps its proof as a store, serves parts of it, and goes on from there.

use crate::client::Server;
use crate::input::Source;
use crate::tally::{Halt, Tally};
use merkle_core::codec::Write;
use merkle_core::digest::{Digest, Sha256Digest};
use merkle_core::family::{Bagging, Family};
use merkle_core::location::Location;
use merkle_core::mem::Mem;
use merkle_core::position::Position;
use merkle_core::proof::Proof;
use merkle_core::verification::ProofStore;
use std::alloc::Global;

/// The most leaves of a part.
const MOST_IN_PART: u64 = 50;

// The digest of the node at a position.
fn digest_at<F: Family>(
    structure: &Mem<F, Sha256Digest>,
    position: Position<F>,
) -> Result<Sha256Digest, Halt> {
    match structure.get_node(position) {
        Some(digest) => Ok(digest),
        None => Err(Halt::Refused),
    }
}

// The digests of the peaks of the first leaves of a structure, oldest first.
fn pins_before<F: Family>(
    alloc: Global,
    structure: &Mem<F, Sha256Digest>,
    leaves: Location<F>,
) -> Result<Vec<Sha256Digest>, Halt> {
    let mut pins = Vec::new(alloc);
    if !leaves.is_valid() {
        return Err(Halt::Refused);
    }
    for position in F::nodes_to_pin(leaves) {
        pins.push(digest_at(structure, position)?)?;
    }
    Ok(pins)
}

// The digests of the nodes of a structure from the position of a leaf on.
fn nodes_from<F: Family>(
    alloc: Global,
    structure: &Mem<F, Sha256Digest>,
    leaf: Location<F>,
) -> Result<Vec<Sha256Digest>, Halt> {
    let mut nodes = Vec::new(alloc);
    if !leaf.is_valid() {
        return Err(Halt::Refused);
    }
    let first = F::location_to_position(leaf).as_u64();
    for number in first..structure.size().as_u64() {
        nodes.push(digest_at(structure, Position::new(number))?)?;
    }
    Ok(nodes)
}

/// What a client is given: leaves in a row, and their proof.
#[derive(Drop)]
struct Given<'a, F: Family> {
    server: &'a Server<F>,
    start: u64,
    end: u64,
    proof: Proof<F, Sha256Digest>,
}

impl<'a, F: Family> Given<'a, F> {
    // The proof of the leaves from one on, before another.
    fn new(server: &'a Server<F>, start: u64, end: u64) -> Result<Self, Halt> {
        let proof = server.prove(start, end)?;
        Ok(Given {
            server,
            start,
            end,
            proof,
        })
    }

    // Checks the range with its pins.
    fn check_pinned(&self, elements: &[&[u8]], tally: &mut Tally) -> Result<(), Halt> {
        let journal = &self.server.journal;
        let first = Location::new(self.start);
        let pins = pins_before(journal.alloc, &journal.structure, first)?;
        let is_right = granted!(
            self.proof.verify_proof_and_pinned_nodes(
                &self.server.journal.hasher,
                elements,
                Location::new(self.start),
                &pins,
                &self.server.root,
            )
        );
        tally.keep_number(u64::from(is_right));
        Ok(())
    }

    // Takes in the digests that the check of the range computes.
    fn extract(&self, elements: &[&[u8]], tally: &mut Tally) -> Result<(), Halt> {
        let pairs = granted!(
            self.proof.verify_range_inclusion_and_extract_digests(
                &self.server.journal.hasher,
                elements,
                Location::new(self.start),
                &self.server.root,
            )
        );
        for (position, digest) in &pairs {
            tally.keep_number(position.as_u64());
            tally.keep(digest.as_bytes());
        }
        Ok(())
    }

    // Proofs of parts, out of a store of the proof.
    fn serve_parts(
        &self,
        source: &mut Source,
        elements: &[&[u8]],
        tally: &mut Tally,
    ) -> Result<(), Halt> {
        let hasher = &self.server.journal.hasher;
        let first = Location::new(self.start);
        let root = &self.server.root;
        let store = granted!(ProofStore::new(hasher, &self.proof, elements, first, root));
        let mut bytes = Vec::new(self.server.journal.alloc);
        for _ in 0..self.end.saturating_sub(self.start) / 2 + 1 {
            let start = self
                .start
                .saturating_add(source.below(self.end.saturating_sub(self.start)));
            let most = self.end.saturating_sub(start).min(MOST_IN_PART);
            let end = start.saturating_add(source.below(most)).saturating_add(1);
            let range = Location::new(start)..Location::new(end);
            let part = granted!(store.range_proof(hasher, range));
            bytes.clear();
            granted!(part.write(&mut bytes));
            tally.keep(&bytes);
        }
        Ok(())
    }

    // All that the client does with the range.
    fn catch_up(&self, source: &mut Source, tally: &mut Tally) -> Result<(), Halt> {
        let server = self.server;
        let elements = server
            .operations
            .views(server.journal.alloc, self.start, self.end)?;
        self.check_pinned(&elements, tally)?;
        self.extract(&elements, tally)?;
        self.serve_parts(source, &elements, tally)
    }
}

// A structure of the nodes from a leaf on, and the pins before it. Its root is taken in.
fn go_on<F: Family>(server: &Server<F>, start: u64, tally: &mut Tally) -> Result<(), Halt> {
    let journal = &server.journal;
    let boundary: Location<F> = Location::new(start);
    let nodes = nodes_from(journal.alloc, &journal.structure, boundary)?;
    let pins = pins_before(journal.alloc, &journal.structure, boundary)?;
    let copy: Mem<F, Sha256Digest> = granted!(Mem::from_components(nodes, boundary, pins));
    let root = granted!(copy.root(&journal.hasher, server.inactive));
    tally.keep(root.as_bytes());
    Ok(())
}

// Clients of one server.
fn serve<F: Family>(
    alloc: Global,
    source: &mut Source,
    leaves: u64,
    bagging: Bagging,
    tally: &mut Tally,
) -> Result<(), Halt> {
    let server: Server<F> = Server::new(alloc, source, leaves, bagging)?;
    for _ in 0..leaves / 5000 + 1 {
        let count = source
            .below(9001)
            .saturating_add(1000)
            .min(leaves / 2)
            .max(1);
        let start = server.next_leaf(source, count);
        let given = Given::new(&server, start, start.saturating_add(count))?;
        given.catch_up(source, tally)?;
        go_on(&server, start, tally)?;
    }
    Ok(())
}

/// Clients that catch up with a structure of that many leaves, by both baggings.
pub fn run<F: Family>(
    alloc: Global,
    source: &mut Source,
    leaves: u64,
    tally: &mut Tally,
) -> Result<(), Halt> {
    serve::<F>(alloc, source, leaves, Bagging::ForwardFold, tally)?;
    serve::<F>(alloc, source, leaves, Bagging::BackwardFold, tally)
}
