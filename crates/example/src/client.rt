//! A light client of a log, with contracts of its own that are proved from those of the library's calls alone.
//!
//! The client keeps a root, and no entries. An entry that it accepts is in every log with that root, at the given location,
//! or else two different inputs with one digest are at hand. A root that it moves on to is that of logs that begin with the
//! entries so far, or else such inputs are at hand. Honest proofs are accepted.
ghost use Rattle.std.specs.Prelude.{◌≡◌, ◌↔◌, ◌∷◌, [], IsTrue, IfOk, OnErr, false};
ghost use Rattle.merkle_core.specs.Walk.{bytes_of};
ghost use Rattle.merkle_core.specs.Input.{input_of};
ghost use Rattle.merkle_core.specs.CheckAnswers.{GivesRoot};
ghost use Rattle.example.specs.Log.{IsSoundForLogs, IsCompleteForLogs, IsSoundForGrowth, IsCompleteForGrowth};

use merkle_core::digest::Digest;
use merkle_core::error::OutOfMemory;
use merkle_core::family::Family;
use merkle_core::hasher::Hasher;
use merkle_core::location::Location;
use merkle_core::proof::Proof;

/// A light client of a log: the root that it trusts, and what the root was made for.
///
/// # Examples
///
/// ```
/// let mut client = Client { leaves: Location::new(5), inactive_peaks: 0, root };
/// if client.accept(&hasher, &proof, b"cleo", Location::new(2))? {
///     // the third of the five entries is `cleo`
/// }
/// if client.follow(&hasher, &newer_proof, &[b"fay", b"gus"], &pinned_nodes, &newer_root)? {
///     // `client` trusts the newer root now; the sixth entry is `fay` and the seventh is `gus`
/// }
/// ```
#[derive(Drop)]
pub struct Client<F: Family, D: Digest> {
    /// The number of entries behind the root.
    pub leaves: Location<F>,
    /// The number of inactive peaks that the root was made for.
    pub inactive_peaks: usize,
    /// The root that is trusted.
    pub root: D,
}

impl<F: Family, D: Digest> Client<F, D> {
    /// Whether the log has an entry at a location, as the proof shows.
    ///
    /// `true` means that every log with the trusted root has the entry there, or else that it has another one with the same
    /// leaf digest, or that the computation and the log hash different inputs to one digest above. The honest proof of an
    /// entry of such a log is never answered `false`.
    ///
    /// # Errors
    ///
    /// `OutOfMemory` where there is no memory.
    pub fn accept<H: Hasher<F, Digest = D>>(
        &self,
        hasher: &H,
        proof: &Proof<F, D>,
        entry: &[u8],
        location: Location<F>,
    ) -> Result<bool, OutOfMemory>
        ensures sound { let s = H.scheme hasher.now in
            IfOk result (IsSoundForLogs s self.now.root (input_of s proof.now location (entry.now ∷ [])) entry.now) }
        ensures honest { let s = H.scheme hasher.now in
            IfOk result (IsCompleteForLogs s self.now.root (input_of s proof.now location (entry.now ∷ [])) entry.now) }
    {
        proof.verify_element_inclusion(hasher, entry, location, &self.root)
    }

    // Whether the digests of the peaks over the entries so far give the root that is trusted.
    fn is_given_by<H: Hasher<F, Digest = D>>(&self, hasher: &H, peaks: &[D]) -> bool
        ensures { let s = H.scheme hasher.now in
            IsTrue result ↔ GivesRoot s self.now.root self.now.leaves self.now.inactive_peaks peaks.now }
    {
        match hasher.root(self.leaves, self.inactive_peaks, peaks) {
            Ok(root) => root == self.root,
            Err(_) => false,
        }
    }

    /// Moves on to a newer root, if the log behind it begins with the entries so far, as the proof and the pins show, and
    /// tells whether it does.
    ///
    /// The pins are the digests of the peaks over the entries so far, oldest first. `added` are the entries that follow these,
    /// or some of them. `true` means that in every log with the newer root the first entries have the root that was trusted and
    /// are followed by the added ones, or else that there is a collision as in [`accept`](Client::accept). An honest proof with
    /// honest pins is never answered `false` where the log begins with entries that have the trusted root.
    ///
    /// # Errors
    ///
    /// `OutOfMemory` where there is no memory. The client is then unchanged.
    pub fn follow<H: Hasher<F, Digest = D>>(
        &mut self,
        hasher: &H,
        proof: &Proof<F, D>,
        added: &[&[u8]],
        pinned_nodes: &[D],
        root: &D,
    ) -> Result<bool, OutOfMemory>
        ensures err { OnErr result (self.new ≡ self.old) }
        ensures no { IfOk result (λ yes. yes ≡ false → self.new ≡ self.old) }
        ensures yes { IfOk result (λ yes. IsTrue yes
            → self.new ≡ record { leaves = proof.now.leaves; inactive_peaks = proof.now.inactive_peaks; root = root.now }) }
        ensures sound { let s = H.scheme hasher.now in let o = self.old in
            let r = input_of s proof.now o.leaves (bytes_of added.now) in
            IfOk result (IsSoundForGrowth s o.root o.leaves o.inactive_peaks root.now r pinned_nodes.now (bytes_of added.now)) }
        ensures honest { let s = H.scheme hasher.now in let o = self.old in
            let r = input_of s proof.now o.leaves (bytes_of added.now) in
            IfOk result (IsCompleteForGrowth s o.root o.leaves o.inactive_peaks root.now r pinned_nodes.now) }
    {
        if !self.is_given_by(hasher, pinned_nodes) {
            return Ok(false);
        }
        let is_extended = proof.verify_proof_and_pinned_nodes(
            hasher,
            added,
            self.leaves,
            pinned_nodes,
            root,
        )?;
        if is_extended {
            self.leaves = proof.leaves;
            self.inactive_peaks = proof.inactive_peaks;
            self.root = *root;
        }
        Ok(is_extended)
    }
}
