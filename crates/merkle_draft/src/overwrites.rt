//! The old nodes that a batch overwrites.
ghost use Rattle.std.specs.Prelude.{◌≡◌, OnOk, OnErr, ◌==◌};
ghost use Rattle.std.specs.FinMap.{empty, get, insert, len};

use merkle_base::family::Family;
use merkle_base::position::Position;
use merkle_digest::digest::Digest;
use std::alloc::{AllocError, Global};
use std::collections::HashMap;
use std::marker::Model;

/// New digests of old nodes, by position.
#[derive(Debug, Drop)]
pub struct Overwrites<F: Family, D: Digest> {
    /// The new digest for each position that has one.
    pub nodes: HashMap<Position<F>, D>,
}

impl<F: Family, D: Digest> Model for Overwrites<F, D> {
    ghost use Rattle.std.specs.Prelude.{ℕ};
    ghost use Rattle.std.specs.Ordering.{nat_cmp};
    ghost use Rattle.std.specs.Coded.{coded_ℕ};
    ghost use Rattle.std.specs.FinMap.{FinMap, code, from_entries};

    ghost Value = { FinMap nat_cmp D };

    ghost coded = { code coded_ℕ D.code };

    ghost view = { λ o. from_entries o.nodes.entries };
}

impl<F: Family, D: Digest> Overwrites<F, D> {
    /// Creates an empty map.
    pub fn new(alloc: Global) -> Self
        ensures { result ≡ empty }
    {
        Overwrites {
            nodes: HashMap::new(alloc),
        }
    }

    /// Whether no node is overwritten.
    pub fn is_empty(&self) -> bool
        ensures { result ≡ (len self.now == 0) }
    {
        self.nodes.is_empty()
    }

    /// Returns the new digest of the node at `position`, if it has one.
    pub fn get(&self, position: Position<F>) -> Option<D>
        ensures { result ≡ get self.now position }
    {
        // most batches change no old node, and even an empty map hashes the key
        if self.nodes.is_empty() {
            return None;
        }
        self.nodes.get(&position).copied()
    }

    /// Sets the new digest of the node at `position`.
    ///
    /// # Errors
    ///
    /// - `AllocError` if a memory request is refused
    pub fn insert(&mut self, position: Position<F>, digest: D) -> Result<(), AllocError>
        ensures inserted { OnOk result (self.new ≡ insert self.old position digest) }
        ensures unchanged { OnErr result (self.new ≡ self.old) }
    {
        self.nodes.insert(position, digest)?;
        Ok(())
    }
}
