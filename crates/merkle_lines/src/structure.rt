//! The structure that the lines work on.
ghost use Rattle.std.specs.Prelude.{◌≡◌, ◌<◌, ◌≤◌, ◌+◌, ◌++◌, ◌∷◌, [], ℕ, List, Option, None, length, vec_len, vec_capacity, IfOk, OnOk, IsOkUnless};
ghost use Rattle.merkle_base.specs.Scheme.{scheme_of};
ghost use Rattle.merkle_commands.specs.Commands.{IsCommand};
ghost use Rattle.merkle_commands.specs.Words.{IsHexWord};
ghost use Rattle.merkle_leaves.specs.Standard.{standard};
ghost use Rattle.merkle_lines.specs.AnswerText.{answer_text};
ghost use Rattle.merkle_lines.specs.Answers.{IsRequestAnswered};
ghost use Rattle.merkle_lines.specs.StructureState.{StructureState, changes, empty_structure};
ghost use Rattle.merkle_lines.specs.Held.{IsStructureHeld, Makes, edited};
ghost use Rattle.merkle_hasher.specs.LeafDigests.{leaf_digests};

use crate::answer::{Answer, Named, or_fault};
use crate::auditing::audit;
use crate::checking::check;
use merkle_commands::command::{Command, Request};
use merkle_commands::hex_words::{read_hex, write_hex};
use merkle_core::batch::UnmerkleizedBatch;
use merkle_core::codec::Write;
use merkle_core::digest::{Digest, PlainHasher};
use merkle_core::error::{Error, OutOfMemory};
use merkle_core::family::{Bagging, Family};
use merkle_core::hasher::{Hasher, Standard};
use merkle_core::location::Location;
use merkle_core::mem::Mem;
use std::alloc::Global;

/// A structure of one family and hash function, with its pending batch.
#[derive(Drop)]
pub(crate) struct Structure<F: Family, H: PlainHasher> {
    pub(crate) hasher: Standard<H>,
    pub(crate) committed: Mem<F, H::Digest>,
    pub(crate) pending: Option<UnmerkleizedBatch<F, H::Digest>>,
    /// The leaf digests of the committed elements, those that are pruned among them.
    pub(crate) list: Vec<H::Digest>,
    /// The leaf digests that the pending batch changes and adds, in the order of the lines.
    pub(crate) edits: Vec<(Location<F>, H::Digest)>,
}

// Changes a leaf digest, or adds it past the end of the list, for which there is room.
fn put<F: Family, D: Digest>(list: &mut Vec<D>, location: Location<F>, digest: D)
    requires { vec_len list.old < vec_capacity list.old }
    ensures items { list.new.items ≡ edited list.old.items ((location, digest) ∷ []) }
    ensures len { vec_len list.new ≤ vec_len list.old + 1 }
    ensures capacity { vec_capacity list.new ≡ vec_capacity list.old }
{
    let index = location.as_u64() as usize;
    if index < list.len() {
        list[index] = digest;
        return;
    }
    list.push_reserved(digest);
}

// Changes leaf digests, and adds those past the end of the list, for which there is room.
fn edit<F: Family, D: Digest>(list: &mut Vec<D>, edits: &[(Location<F>, D)])
    requires { vec_len list.old + length edits.now ≤ vec_capacity list.old }
    ensures { list.new.items ≡ edited list.old.items edits.now }
{
    for (location, digest) in edits {
        put(list, *location, *digest);
    }
}

impl<F: Family, H: PlainHasher> Structure<F, H> {
    // Creates an empty structure without a pending batch.
    pub(crate) fn new(alloc: Global, bagging: Bagging) -> Self
        ensures kind { result.hasher ≡ bagging }
        ensures held { IsStructureHeld (standard H.digest_of H.Digest.bytes H.Digest.eq H.Digest.EMPTY)
            F.rule F.MAX_LEAVES result.committed result.pending result.list.items result.edits.items empty_structure }
    {
        Structure {
            hasher: Standard::new(bagging),
            committed: Mem::new(alloc),
            pending: None,
            list: Vec::new(alloc),
            edits: Vec::new(alloc),
        }
    }

    // Takes the pending batch out of the structure, so that it is lost if the request fails; if
    // there is none, creates a new batch.
    fn take_pending(&mut self) -> Result<UnmerkleizedBatch<F, H::Digest>, Error<F>>
        ensures kind { self.new.hasher ≡ self.old.hasher }
        ensures kept { self.new.committed ≡ self.old.committed }
        ensures gone { self.new.pending ≡ None }
        ensures listed { self.new.list.items ≡ self.old.list.items }
        ensures edits { let h = standard H.digest_of H.Digest.bytes H.Digest.eq H.Digest.EMPTY in (g : StructureState)
            → IsStructureHeld h F.rule F.MAX_LEAVES self.old.committed self.old.pending self.old.list.items self.old.edits.items g
            → edited self.new.list.items self.new.edits.items ≡ leaf_digests h F.rule 0 (changes g).elements }
        ensures batch { let h = standard H.digest_of H.Digest.bytes H.Digest.eq H.Digest.EMPTY in IfOk result (λ b. (g : StructureState)
            → IsStructureHeld h F.rule F.MAX_LEAVES self.old.committed self.old.pending self.old.list.items self.old.edits.items g
            → Makes h F.rule (leaf_digests h F.rule 0 g.committed) b (changes g)) }
        ensures refused { IsOkUnless result Error.OutOfMemory }
    {
        match self.pending.take() {
            Some(batch) => Ok(batch),
            None => {
                self.edits.clear();
                self.committed.new_batch()
            }
        }
    }

    // Keeps a leaf digest that the pending batch has at a location.
    fn keep(&mut self, location: Location<F>, digest: H::Digest) -> Result<(), OutOfMemory>
        ensures kind { self.new.hasher ≡ self.old.hasher }
        ensures kept { self.new.committed ≡ self.old.committed }
        ensures same { self.new.pending ≡ self.old.pending }
        ensures listed { self.new.list.items ≡ self.old.list.items }
        ensures edits { OnOk result (self.new.edits.items ≡ self.old.edits.items ++ (location, digest) ∷ []) }
    {
        match self.edits.push((location, digest)) {
            Ok(()) => Ok(()),
            Err(_) => Err(OutOfMemory),
        }
    }

    fn add(&mut self, alloc: Global, digits: &str) -> Answer
        ensures kind { self.new.hasher ≡ self.old.hasher }
        ensures answered { let h = standard H.digest_of H.Digest.bytes H.Digest.eq H.Digest.EMPTY in (g : StructureState) → IsHexWord digits.entry.now
            → IsStructureHeld h F.rule F.MAX_LEAVES self.old.committed self.old.pending self.old.list.items self.old.edits.items g → (u : StructureState)
            × IsStructureHeld h F.rule F.MAX_LEAVES self.new.committed self.new.pending self.new.list.items self.new.edits.items u
            × IsRequestAnswered (scheme_of h self.old.hasher F.rule F.MAX_LEAVES F.DOMAIN) H.Digest.SIZE H.Digest.Spells
            g (Request.Add digits.entry) u (answer_text result) }
    {
        let batch = or_fault!(self.take_pending());
        let element = or_fault!(read_hex(alloc, digits));
        let location = batch.leaves();
        let position = F::location_to_position(location);
        let digest = self.hasher.leaf_digest(position, element.as_slice());
        let batch = or_fault!(batch.add_leaf_digest(digest));
        or_fault!(self.keep(location, digest));
        self.pending = Some(batch);
        Answer::Added(location.as_u64())
    }

    fn update(&mut self, alloc: Global, location: u64, digits: &str) -> Answer
        ensures kind { self.new.hasher ≡ self.old.hasher }
        ensures answered { let h = standard H.digest_of H.Digest.bytes H.Digest.eq H.Digest.EMPTY in (g : StructureState) → IsHexWord digits.entry.now
            → IsStructureHeld h F.rule F.MAX_LEAVES self.old.committed self.old.pending self.old.list.items self.old.edits.items g → (u : StructureState)
            × IsStructureHeld h F.rule F.MAX_LEAVES self.new.committed self.new.pending self.new.list.items self.new.edits.items u
            × IsRequestAnswered (scheme_of h self.old.hasher F.rule F.MAX_LEAVES F.DOMAIN) H.Digest.SIZE H.Digest.Spells
            g (Request.Update location digits.entry) u (answer_text result) }
    {
        let batch = or_fault!(self.take_pending());
        let element = or_fault!(read_hex(alloc, digits));
        let leaf = Location::new(location);
        if leaf >= batch.leaves() {
            return Answer::Fault("LeafOutOfBounds");
        }
        let position = F::location_to_position(leaf);
        let digest = self.hasher.leaf_digest(position, element.as_slice());
        let batch = or_fault!(batch.update_leaf_digest(leaf, digest));
        or_fault!(self.keep(leaf, digest));
        self.pending = Some(batch);
        Answer::Done
    }

    fn commit(&mut self) -> Answer
        ensures kind { self.new.hasher ≡ self.old.hasher }
        ensures answered { let h = standard H.digest_of H.Digest.bytes H.Digest.eq H.Digest.EMPTY in (g : StructureState)
            → IsStructureHeld h F.rule F.MAX_LEAVES self.old.committed self.old.pending self.old.list.items self.old.edits.items g → (u : StructureState)
            × IsStructureHeld h F.rule F.MAX_LEAVES self.new.committed self.new.pending self.new.list.items self.new.edits.items u
            × IsRequestAnswered (scheme_of h self.old.hasher F.rule F.MAX_LEAVES F.DOMAIN) H.Digest.SIZE H.Digest.Spells
            g Request.Commit u (answer_text result) }
    {
        let batch = or_fault!(self.take_pending());
        let merkleized = or_fault!(batch.merkleize(&self.committed, &self.hasher));
        if self.list.reserve(self.edits.len()).is_err() {
            return Answer::Fault("OutOfMemory");
        }
        or_fault!(self.committed.apply_batch(&merkleized));
        edit(&mut self.list, &self.edits);
        Answer::Committed {
            leaves: self.committed.leaves().as_u64(),
            size: self.committed.size().as_u64(),
        }
    }

    fn prune(&mut self, location: u64) -> Answer
        ensures kind { self.new.hasher ≡ self.old.hasher }
        ensures answered { let h = standard H.digest_of H.Digest.bytes H.Digest.eq H.Digest.EMPTY in (g : StructureState)
            → IsStructureHeld h F.rule F.MAX_LEAVES self.old.committed self.old.pending self.old.list.items self.old.edits.items g → (u : StructureState)
            × IsStructureHeld h F.rule F.MAX_LEAVES self.new.committed self.new.pending self.new.list.items self.new.edits.items u
            × IsRequestAnswered (scheme_of h self.old.hasher F.rule F.MAX_LEAVES F.DOMAIN) H.Digest.SIZE H.Digest.Spells
            g (Request.Prune location) u (answer_text result) }
    {
        or_fault!(self.committed.prune(Location::new(location)));
        Answer::Pruned {
            start: self.committed.pruning_boundary().as_u64(),
            end: self.committed.leaves().as_u64(),
        }
    }

    fn root(&self, alloc: Global, inactive: usize) -> Answer
        ensures { let h = standard H.digest_of H.Digest.bytes H.Digest.eq H.Digest.EMPTY in (g : StructureState)
            → IsStructureHeld h F.rule F.MAX_LEAVES self.now.committed self.now.pending self.now.list.items self.now.edits.items g
            → IsRequestAnswered (scheme_of h self.now.hasher F.rule F.MAX_LEAVES F.DOMAIN) H.Digest.SIZE H.Digest.Spells
            g (Request.Root inactive) g (answer_text result) }
    {
        let root = or_fault!(self.committed.root(&self.hasher, inactive));
        Answer::Digits(or_fault!(write_hex(alloc, root.as_bytes())))
    }

    fn prove(&self, alloc: Global, start: u64, end: u64, inactive: usize) -> Answer
        ensures { let h = standard H.digest_of H.Digest.bytes H.Digest.eq H.Digest.EMPTY in (g : StructureState)
            → IsStructureHeld h F.rule F.MAX_LEAVES self.now.committed self.now.pending self.now.list.items self.now.edits.items g
            → IsRequestAnswered (scheme_of h self.now.hasher F.rule F.MAX_LEAVES F.DOMAIN) H.Digest.SIZE H.Digest.Spells
            g (Request.Prove start end inactive) g (answer_text result) }
    {
        let range = Location::new(start)..Location::new(end);
        let proof = or_fault!(self.committed.range_proof(&self.hasher, range, inactive));
        let mut bytes = Vec::new(alloc);
        or_fault!(proof.write(&mut bytes));
        Answer::Digits(or_fault!(write_hex(alloc, bytes.as_slice())))
    }

    // Carries out a request, and returns its answer.
    pub(crate) fn answer(&mut self, alloc: Global, request: Request<'_>) -> Answer
        ensures kind { self.new.hasher ≡ self.old.hasher }
        ensures answered { let h = standard H.digest_of H.Digest.bytes H.Digest.eq H.Digest.EMPTY in (g : StructureState)
            → IsCommand (Command.Ask request.entry)
            → IsStructureHeld h F.rule F.MAX_LEAVES self.old.committed self.old.pending self.old.list.items self.old.edits.items g → (u : StructureState)
            × IsStructureHeld h F.rule F.MAX_LEAVES self.new.committed self.new.pending self.new.list.items self.new.edits.items u
            × IsRequestAnswered (scheme_of h self.old.hasher F.rule F.MAX_LEAVES F.DOMAIN) H.Digest.SIZE H.Digest.Spells
            g request.entry u (answer_text result) }
    {
        match request {
            Request::Add(digits) => self.add(alloc, digits),
            Request::Update { location, digits } => self.update(alloc, location, digits),
            Request::Commit => self.commit(),
            Request::Prune(location) => self.prune(location),
            Request::Root(inactive) => self.root(alloc, inactive),
            Request::Prove {
                start,
                end,
                inactive,
            } => self.prove(alloc, start, end, inactive),
            Request::Check {
                start,
                inactive,
                root,
                proof,
                elements,
            } => { check::<F, H>(alloc, &self.hasher, start, inactive, root, proof, elements) },
            Request::Audit {
                start,
                inactive,
                proof,
                elements,
            } => audit::<F, H>(
                alloc,
                &self.hasher,
                &self.list,
                start,
                inactive,
                proof,
                elements,
            ),
        }
    }
}
