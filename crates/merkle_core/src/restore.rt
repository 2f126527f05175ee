//! Structures restored from components that are checked against a root.
ghost use Rattle.std.specs.Prelude.{◌≡◌, ◌≢◌, ◌+◌, ◌<◌, ◌≤◌, ◌^◌, ◌-◌, ℕ, Err, length, IfOk, IsOk, IsOkUnless};
ghost use Rattle.std.specs.FinMap.{get};
ghost use Rattle.merkle_base.specs.Forest.{size};
ghost use Rattle.merkle_base.specs.Places.{IsSize, peaks_of, peak_positions};
ghost use Rattle.merkle_root_theory.specs.Range.{ForRootOf};
ghost use Rattle.merkle_restore_theory.specs.Damage.{IsFirstDamaged, IsWhole};
ghost use Rattle.merkle_core.specs.Restored.{AgreesOrCollides, ForMade, HasRootAndIsWhole, IsErrorUnlessMemory, held_root, made_from};

use crate::components::Config;
use crate::granted;
use crate::mem::Mem;
use merkle_base::error::Error;
use merkle_base::family::Family;
use merkle_base::location::Location;
use merkle_base::position::Position;
use merkle_digest::digest::Digest;
use merkle_hasher::hasher::Hasher;

/// Why a structure is not restored.
#[derive(Debug, Drop, thiserror::Error)]
pub enum RestoreError<F> {
    /// The pruning boundary exceeds [`MAX_LEAVES`](Family::MAX_LEAVES).
    #[error("{0} > MAX_LEAVES")]
    LocationOverflow(Location<F>),
    /// No leaf count has this node count. The payload is `u64::MAX` if the node count exceeds
    /// [`MAX_NODES`](Family::MAX_NODES).
    #[error("invalid size: {0}")]
    InvalidSize(u64),
    /// The number of pinned digests differs from the number of peaks over the leaves before the
    /// pruning boundary.
    #[error("invalid pinned nodes")]
    InvalidPinnedNodes,
    /// More peaks are called inactive than there are.
    #[error("inactive peak count {requested} exceeds peak count {peaks}")]
    InvalidInactivePeaks {
        /// The number of inactive peaks that the caller asked for.
        requested: usize,
        /// The number of peaks.
        peaks: usize,
    },
    /// The digest of the node at the position is not that of its children; no node before it is
    /// damaged so.
    #[error("damaged node: {0}")]
    DamagedNode(Position<F>),
    /// The root of the components differs from the given one.
    #[error("root mismatch")]
    RootMismatch,
    /// A memory request was refused.
    #[error("out of memory")]
    OutOfMemory,
}

impl<F: Family> From<&Error<F>> for RestoreError<F> {
    ghost use Rattle.std.specs.Prelude.{◌≡◌};
    ghost use Rattle.merkle_core.specs.Restored.{restore_error};

    ghost from_gives = { λ e r. r ≡ restore_error e.now };

    fn from(error: &Error<F>) -> Self {
        match error {
            Error::LocationOverflow(location) => RestoreError::LocationOverflow(*location),
            Error::InvalidSize(nodes) => RestoreError::InvalidSize(*nodes),
            Error::InvalidPinnedNodes => RestoreError::InvalidPinnedNodes,
            Error::InvalidInactivePeaks { requested, peaks } => {
                RestoreError::InvalidInactivePeaks {
                    requested: *requested,
                    peaks: *peaks,
                }
            }
            _ => RestoreError::OutOfMemory,
        }
    }
}

impl<F: Family, D: Digest> Mem<F, D> {
    /// Creates the structure with these components, and checks them against `root`, which is its
    /// root with `inactive` inactive peaks.
    ///
    /// Each parent node from the position of the pruning boundary on is hashed once, up to the first
    /// damaged one. What is restored agrees with every list that has this root, or else its nodes and
    /// the list hash different inputs to the same digest at the same place. Components of a list are
    /// never refused with the root of that list.
    ///
    /// # Errors
    ///
    /// The first that applies:
    /// - `LocationOverflow` of the boundary if it exceeds [`MAX_LEAVES`](Family::MAX_LEAVES)
    /// - `InvalidSize` of `u64::MAX` if the size in nodes exceeds [`MAX_NODES`](Family::MAX_NODES)
    /// - `InvalidSize` of the size in nodes if no leaf count has that many nodes
    /// - `InvalidPinnedNodes` if the number of pinned digests differs from the number of peaks over
    ///   the leaves before the boundary
    /// - `InvalidInactivePeaks` if `inactive` exceeds the number of peaks
    /// - `DamagedNode` of the position of the [first damaged node](Mem::first_damaged)
    /// - `RootMismatch` if the root is another one
    ///
    /// `OutOfMemory` if a memory request is refused. On error the components are lost.
    pub fn restore<H: Hasher<F, Digest = D>>(
        config: Config<F, D>,
        hasher: &H,
        inactive: usize,
        root: &D,
    ) -> Result<Self, RestoreError<F>>
        ensures made { IfOk result (λ m. m ≡ made_from F.rule config m.leaves) }
        ensures checked { IfOk result (HasRootAndIsWhole (H.scheme hasher.now) inactive root.now) }

        // It agrees with each list that has this root, or the two collide.
        ensures agrees { let s = H.scheme hasher.now in IfOk result (λ m. ForRootOf s root.now (AgreesOrCollides s inactive m)) }
        ensures overflow { F.MAX_LEAVES < config.pruning_boundary → result ≡ Err (RestoreError.LocationOverflow config.pruning_boundary) }
        ensures too_large { config.pruning_boundary ≤ F.MAX_LEAVES → F.MAX_NODES < size F.rule config.pruning_boundary + length config.nodes.items
            → result ≡ Err (RestoreError.InvalidSize (2 ^ 64 - 1)) }
        ensures no_size { let end = size F.rule config.pruning_boundary + length config.nodes.items in
            config.pruning_boundary ≤ F.MAX_LEAVES → end ≤ F.MAX_NODES → ((n : ℕ) → size F.rule n ≢ end)
            → result ≡ Err (RestoreError.InvalidSize end) }
        ensures bad_pins { config.pruning_boundary ≤ F.MAX_LEAVES
            → IsSize F.rule F.MAX_LEAVES (size F.rule config.pruning_boundary + length config.nodes.items)
            → length config.pinned_nodes.items ≢ length (peak_positions F.rule config.pruning_boundary)
            → result ≡ Err RestoreError.InvalidPinnedNodes }
        ensures too_many { ForMade F.rule F.MAX_LEAVES config (λ m. length (peaks_of F.rule m.leaves) < inactive
            → IsErrorUnlessMemory result (RestoreError.InvalidInactivePeaks inactive (length (peaks_of F.rule m.leaves)))) }
        ensures damaged { ForMade F.rule F.MAX_LEAVES config (λ m. (p : ℕ) → inactive ≤ length (peaks_of F.rule m.leaves)
            → IsFirstDamaged (H.hashing hasher.now) F.rule m.leaves (get m.stored) p → IsErrorUnlessMemory result (RestoreError.DamagedNode p)) }
        ensures mismatch { ForMade F.rule F.MAX_LEAVES config (λ m. inactive ≤ length (peaks_of F.rule m.leaves)
            → IsWhole (H.hashing hasher.now) F.rule m.leaves (get m.stored) → held_root (H.scheme hasher.now) m inactive ≢ root.now
            → IsErrorUnlessMemory result RestoreError.RootMismatch) }
        ensures granted { ForMade F.rule F.MAX_LEAVES config (λ m. HasRootAndIsWhole (H.scheme hasher.now) inactive root.now m
            → IsOkUnless result RestoreError.OutOfMemory) }
    {
        let mem = granted!(Self::init(config));
        mem.check_root(hasher, inactive, root)?;
        Ok(mem)
    }

    // Checks that no node is damaged, and that the root is this one.
    fn check_root<H: Hasher<F, Digest = D>>(
        &self,
        hasher: &H,
        inactive: usize,
        root: &D,
    ) -> Result<(), RestoreError<F>>
        ensures checked { IfOk result (λ _. HasRootAndIsWhole (H.scheme hasher.now) inactive root.now self.now) }
        ensures agrees { let s = H.scheme hasher.now in IfOk result (λ _. ForRootOf s root.now (AgreesOrCollides s inactive self.now)) }
        ensures too_many { let count = length (peaks_of F.rule self.now.leaves) in
            count < inactive → result ≡ Err (RestoreError.InvalidInactivePeaks inactive count) }
        ensures damaged { (p : ℕ) → inactive ≤ length (peaks_of F.rule self.now.leaves)
            → IsFirstDamaged (H.hashing hasher.now) F.rule self.now.leaves (get self.now.stored) p → result ≡ Err (RestoreError.DamagedNode p) }
        ensures mismatch { inactive ≤ length (peaks_of F.rule self.now.leaves)
            → IsWhole (H.hashing hasher.now) F.rule self.now.leaves (get self.now.stored) → held_root (H.scheme hasher.now) self.now inactive ≢ root.now
            → result ≡ Err RestoreError.RootMismatch }
        ensures granted { HasRootAndIsWhole (H.scheme hasher.now) inactive root.now self.now → IsOk result }
    {
        let own = granted!(self.root(hasher, inactive));
        if let Some(position) = self.first_damaged(hasher) {
            return Err(RestoreError::DamagedNode(position));
        }
        if own != *root {
            return Err(RestoreError::RootMismatch);
        }
        Ok(())
    }
}
