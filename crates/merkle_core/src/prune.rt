//! Pruning: dropping the old nodes of a structure.
ghost use Rattle.std.specs.Prelude.{◌≡◌, ◌<◌, ◌≤◌, ℕ, List, Err, OnErr, OnOk, IfOk, IsOkUnless, ◌==◌};
ghost use Rattle.std.specs.Map.{lookup};
ghost use Rattle.merkle_base.specs.Hashing.{Hashing};
ghost use Rattle.merkle_base.specs.Places.{peak_positions};
ghost use Rattle.merkle_batch_theory.specs.Contents.{Agrees, pruned};
ghost use Rattle.merkle_batch_theory.specs.HeldPeaks.{pins_of};
ghost use Rattle.merkle_batch_theory.specs.MemModel.{contents};

use crate::mem::Mem;
use merkle_base::error::Error;
use merkle_base::family::Family;
use merkle_base::location::Location;
use merkle_base::position::Position;
use merkle_digest::digest::Digest;
use std::alloc::AllocError;
use std::collections::BTreeMap;

impl<F: Family, D: Digest> Mem<F, D> {
    /// Drops the nodes before the leaf at `location`, except for the peaks of `location` leaves,
    /// which are pinned.
    ///
    /// Nothing happens if `location` is at or below the pruning boundary.
    ///
    /// # Errors
    ///
    /// - `LeafOutOfBounds` of the location if it exceeds the leaf count
    /// - `OutOfMemory` if a memory request is refused
    ///
    /// On error the structure is unchanged.
    pub fn prune(&mut self, location: Location<F>) -> Result<(), Error<F>>
        ensures unchanged { OnErr result (self.new ≡ self.old) }
        ensures pruned { OnOk result (contents self.new ≡ pruned F.rule location (contents self.old)) }
        ensures counted { self.new.leaves ≡ self.old.leaves }
        ensures refused { self.old.leaves < location → result ≡ Err (Error.LeafOutOfBounds location) }
        ensures allowed { location ≤ self.old.leaves → IsOkUnless result Error.OutOfMemory }
        ensures agrees { OnOk result ((h : Hashing D) → (X : List D) → Agrees h F.rule (contents self.old) X → Agrees h F.rule (contents self.new) X) }
    {
        if location > self.leaves {
            return Err(Error::LeafOutOfBounds(location));
        }
        Ok(self.prune_to(location)?)
    }

    /// Drops all nodes except for the peaks, which are pinned.
    ///
    /// # Errors
    ///
    /// - `OutOfMemory` if a memory request is refused
    ///
    /// On error the structure is unchanged.
    pub fn prune_all(&mut self) -> Result<(), Error<F>>
        ensures unchanged { OnErr result (self.new ≡ self.old) }
        ensures pruned { OnOk result (contents self.new ≡ pruned F.rule self.old.leaves (contents self.old)) }
        ensures counted { self.new.leaves ≡ self.old.leaves }
        ensures refused { IsOkUnless result Error.OutOfMemory }
        ensures agrees { OnOk result ((h : Hashing D) → (X : List D) → Agrees h F.rule (contents self.old) X → Agrees h F.rule (contents self.new) X) }
    {
        Ok(self.prune_to(self.leaves)?)
    }

    // Drops the nodes before the leaf at `location`, except for the peaks of `location` leaves.
    fn prune_to(&mut self, location: Location<F>) -> Result<(), AllocError>
        requires { location ≤ self.old.leaves }
        ensures unchanged { OnErr result (self.new ≡ self.old) }
        ensures counted { self.new.leaves ≡ self.old.leaves }
        ensures pruned { OnOk result (contents self.new ≡ pruned F.rule location (contents self.old)) }
    {
        if location <= self.boundary {
            return Ok(());
        }
        let pins = self.pins_at(location)?;
        self.held
            .drop_before(F::location_to_position(location), pins);
        self.boundary = location;
        Ok(())
    }

    // Returns the digests that are held of the peaks of `location` leaves, by position.
    fn pins_at(&self, location: Location<F>) -> Result<BTreeMap<Position<F>, D>, AllocError>
        requires { location ≤ F.MAX_LEAVES }
        ensures { let pins = pins_of (contents self.now) (peak_positions F.rule location) in
            IfOk result (λ m. (p : ℕ) → lookup (λ q. p == q) m.entries ≡ lookup (λ q. p == q) pins) }
    {
        let mut pins = BTreeMap::new(self.allocator());
        for position in F::nodes_to_pin(location) {
            if let Some(digest) = self.get_node(position) {
                pins.insert(position, digest)?;
            }
        }
        Ok(pins)
    }
}
