//! A log without its nodes, with a contract of its own that is proved from those of the library's calls alone.
//!
//! Who only appends entries and gives roots needs the peaks over the entries, and nothing below them. Each root is that of
//! every list that the peaks are of, with the entry at its end.
ghost use Rattle.std.specs.Prelude.{◌≡◌, [], IfOk, OnErr};
ghost use Rattle.merkle_core.specs.MemModel.{contents};
ghost use Rattle.example.specs.Appended.{ExtendsBy, IsAppended, StillAgrees};

use crate::LogError;
use merkle_core::batch::MerkleizedBatch;
use merkle_core::digest::Digest;
use merkle_core::family::Family;
use merkle_core::granted;
use merkle_core::hasher::Hasher;
use merkle_core::mem::{Config, Mem};
use std::alloc::Global;
use std::rc::Rc;

/// The frontier of a log: the peaks over its entries, and besides them at most the nodes that the last entry added.
///
/// # Examples
///
/// ```
/// let mut frontier: Frontier<mmr::Family, Sha256Digest> = Frontier::new(alloc);
/// let root = frontier.append(&hasher, b"ann")?;
/// let saved = frontier.save()?;
/// // `saved` has the digests of the peaks, and no nodes
/// ```
#[derive(Drop)]
pub struct Frontier<F: Family, D: Digest> {
    /// A structure that is pruned to its end before each entry.
    pub peaks: Mem<F, D>,
}

impl<F: Family, D: Digest> Frontier<F, D> {
    /// The frontier of a log without entries.
    pub fn new(alloc: Global) -> Self {
        Frontier {
            peaks: Mem::new(alloc),
        }
    }

    // The batch that adds a leaf.
    fn extended<H: Hasher<F, Digest = D>>(
        &self,
        hasher: &H,
        leaf: D,
    ) -> Result<Rc<MerkleizedBatch<F, D>>, LogError>
        ensures { IfOk result (λ b. ExtendsBy (H.hashing hasher.now) F.rule (contents self.now.peaks) leaf b.value) }
    {
        let fork = match self.peaks.new_batch() {
            Ok(fork) => fork,
            Err(error) => return Err(LogError::from(&error)),
        };
        let longer = match fork.add_leaf_digest(leaf) {
            Ok(longer) => longer,
            Err(error) => return Err(LogError::from(&error)),
        };
        match longer.merkleize(&self.peaks, hasher) {
            Ok(batch) => Ok(batch),
            Err(error) => Err(LogError::from(&error)),
        }
    }

    /// Appends an entry, and answers the new root, for no inactive peaks.
    ///
    /// Of every list of leaf digests that the frontier agreed with, it then agrees with the list with the entry's leaf digest
    /// at its end, and the root is that of this longer list.
    ///
    /// # Errors
    ///
    /// `Refused` where the log is full, and `OutOfMemory` where there is no memory. No entry is appended then.
    pub fn append<H: Hasher<F, Digest = D>>(
        &mut self,
        hasher: &H,
        entry: &[u8],
    ) -> Result<D, LogError>
        ensures appended { let s = H.scheme hasher.now in
            IfOk result (IsAppended (H.hashing hasher.now) F.rule s (contents self.old.peaks) (contents self.new.peaks) entry.now) }
        ensures err { OnErr result (StillAgrees (H.hashing hasher.now) F.rule (contents self.old.peaks) (contents self.new.peaks)) }
    {
        if let Err(error) = self.peaks.prune_all() {
            return Err(LogError::from(&error));
        }
        // The next leaf comes after all nodes.
        let leaf = hasher.leaf_digest(self.peaks.size(), entry);
        let batch = self.extended(hasher, leaf)?;
        if let Err(error) = self.peaks.apply_batch(&batch) {
            return Err(LogError::from(&error));
        }
        match self.peaks.root(hasher, 0) {
            Ok(root) => Ok(root),
            Err(error) => Err(LogError::from(&error)),
        }
    }

    /// The peaks alone, to be written down: components without nodes, of which [`restore`](Mem::restore) makes the structure
    /// again.
    ///
    /// # Errors
    ///
    /// `OutOfMemory` where there is no memory. The frontier agrees with the same lists, whatever is answered.
    pub fn save(&mut self) -> Result<Config<F, D>, LogError>
        ensures bare { IfOk result (λ c. c.nodes.items ≡ []) }
    {
        let entries = self.peaks.bounds();
        granted!(self.peaks.prune(entries.end));
        Ok(self.peaks.to_config()?)
    }
}
