//! Structures created from given components, and the components of a structure.
ghost use Rattle.std.specs.Prelude.{◌≡◌, ◌≢◌, ◌+◌, ◌<◌, ◌≤◌, ◌^◌, ◌-◌, ℕ, Err, length, zip, IfOk, IsOk, IsOkUnless, ◌==◌};
ghost use Rattle.std.specs.Map.{lookup};
ghost use Rattle.merkle_base.specs.Forest.{size};
ghost use Rattle.merkle_base.specs.Places.{IsSize, peak_positions};
ghost use Rattle.merkle_batch_theory.specs.Components.{made_of, RefusesTooLarge, RefusesNoSize, RefusesPins, ForComponents, AgreesAsGiven};
ghost use Rattle.merkle_batch_theory.specs.HeldPeaks.{held_at};
ghost use Rattle.merkle_batch_theory.specs.MemModel.{contents};
ghost use Rattle.std.specs.List.{range_with_len};
ghost use Rattle.merkle_core.specs.ConfigBytes.{config_spelling};
ghost use Rattle.merkle_core.specs.MemBytes.{mem_spelling};

use crate::mem::Mem;
use merkle_base::error::Error;
use merkle_base::family::Family;
use merkle_base::location::Location;
use merkle_base::position::Position;
use merkle_digest::digest::Digest;
use merkle_draft::held_nodes::HeldNodes;
use std::alloc::AllocError;
use std::collections::BTreeMap;

/// The components of a structure.
#[derive(Debug, Drop)]
pub struct Config<F: Family, D: Digest> {
    /// The digests of the nodes from the position of the pruning boundary on.
    pub nodes: Vec<D>,
    /// The location that the structure was pruned to; 0 if it was never pruned.
    pub pruning_boundary: Location<F>,
    /// The digests of the peaks of `pruning_boundary` leaves, in the order of
    /// [`Family::nodes_to_pin`].
    pub pinned_nodes: Vec<D>,
}

impl<F: Family, D: Digest> Mem<F, D> {
    /// Creates the structure with these components.
    ///
    /// # Errors
    ///
    /// Those of [`from_components`](Mem::from_components).
    pub fn init(config: Config<F, D>) -> Result<Self, Error<F>>
        ensures made { IfOk result (λ m. m ≡ made_of F.rule config.pruning_boundary m.leaves config.pinned_nodes.items config.nodes.items) }
        ensures counted { IfOk result (λ m. (m.leaves ≤ F.MAX_LEAVES) × (size F.rule m.leaves ≡ m.size)) }
        ensures overflow { F.MAX_LEAVES < config.pruning_boundary → result ≡ Err (Error.LocationOverflow config.pruning_boundary) }
        ensures too_large { RefusesTooLarge F.rule F.MAX_LEAVES F.MAX_NODES config.pruning_boundary config.nodes.items result }
        ensures no_size { RefusesNoSize F.rule F.MAX_LEAVES F.MAX_NODES config.pruning_boundary config.nodes.items result }
        ensures bad_pins { RefusesPins F.rule F.MAX_LEAVES config.pruning_boundary config.pinned_nodes.items config.nodes.items result }
        ensures allowed { ForComponents F.rule F.MAX_LEAVES config.pruning_boundary config.pinned_nodes.items config.nodes.items
            (IsOkUnless result Error.OutOfMemory) }

        // It agrees with every list whose digests these are.
        ensures agrees { IfOk result (λ m. AgreesAsGiven F.rule config.pruning_boundary config.pinned_nodes.items config.nodes.items (contents m)) }
    {
        let Config {
            nodes,
            pruning_boundary,
            pinned_nodes,
        } = config;
        Self::from_components(nodes, pruning_boundary, pinned_nodes)
    }

    /// Creates the structure that was pruned to `pruning_boundary`, from the digests of the nodes
    /// from the position of the boundary on and those of the peaks of `pruning_boundary` leaves, in
    /// the order of [`Family::nodes_to_pin`].
    ///
    /// The digests are not checked.
    ///
    /// # Errors
    ///
    /// The first that applies:
    /// - `LocationOverflow` of the boundary if it exceeds [`MAX_LEAVES`](Family::MAX_LEAVES)
    /// - `InvalidSize` of `u64::MAX` if the size in nodes exceeds [`MAX_NODES`](Family::MAX_NODES)
    /// - `InvalidSize` of the size in nodes if no leaf count has that many nodes
    /// - `InvalidPinnedNodes` if the number of pinned digests differs from the number of peaks
    /// - `OutOfMemory` if a memory request is refused
    ///
    /// On error the components are lost.
    pub fn from_components(
        nodes: Vec<D>,
        pruning_boundary: Location<F>,
        pinned_nodes: Vec<D>,
    ) -> Result<Self, Error<F>>
        ensures made { IfOk result (λ m. m ≡ made_of F.rule pruning_boundary m.leaves pinned_nodes.items nodes.items) }
        ensures counted { IfOk result (λ m. (m.leaves ≤ F.MAX_LEAVES) × (size F.rule m.leaves ≡ m.size)) }
        ensures overflow { F.MAX_LEAVES < pruning_boundary → result ≡ Err (Error.LocationOverflow pruning_boundary) }
        ensures too_large { RefusesTooLarge F.rule F.MAX_LEAVES F.MAX_NODES pruning_boundary nodes.items result }
        ensures no_size { RefusesNoSize F.rule F.MAX_LEAVES F.MAX_NODES pruning_boundary nodes.items result }
        ensures bad_pins { RefusesPins F.rule F.MAX_LEAVES pruning_boundary pinned_nodes.items nodes.items result }
        ensures allowed { ForComponents F.rule F.MAX_LEAVES pruning_boundary pinned_nodes.items nodes.items (IsOkUnless result Error.OutOfMemory) }

        // It agrees with every list whose digests these are.
        ensures agrees { IfOk result (λ m. AgreesAsGiven F.rule pruning_boundary pinned_nodes.items nodes.items (contents m)) }
    {
        let (start, leaves) = match measure(pruning_boundary, nodes.len()) {
            Ok(extent) => extent,
            Err(error) => return Err(error),
        };
        match pair_pins::<F, D>(pruning_boundary, &pinned_nodes) {
            Ok(pins) => Ok(Mem {
                held: HeldNodes::from_parts(start, pins, nodes),
                boundary: pruning_boundary,
                leaves,
            }),
            Err(error) => Err(error),
        }
    }

    /// Returns a copy of the components: the pruning boundary, the digests of the peaks over the
    /// leaves before it, and those of the nodes from its position on. [`init`](Mem::init) makes the
    /// same structure of them again.
    ///
    /// # Errors
    ///
    /// - `AllocError` if a memory request is refused
    pub fn to_config(&self) -> Result<Config<F, D>, AllocError>
        ensures boundary { IfOk result (λ c. c.pruning_boundary ≡ self.now.boundary) }
        ensures made { IfOk result (λ c. self.now ≡ made_of F.rule c.pruning_boundary self.now.leaves c.pinned_nodes.items c.nodes.items) }
        ensures pinned { IfOk result (λ c. length c.pinned_nodes.items ≡ length (peak_positions F.rule self.now.boundary)) }

        // The bytes of the two are the same.
        ensures spelled { IfOk result (λ c. config_spelling D.bytes c ≡ mem_spelling F.rule D.bytes self.now) }
    {
        Ok(Config {
            nodes: self.nodes()?,
            pruning_boundary: self.boundary,
            pinned_nodes: self.pinned_nodes()?,
        })
    }

    // Returns the digests that are held of the peaks over the leaves before the boundary.
    fn pinned_nodes(&self) -> Result<Vec<D>, AllocError>
        ensures { IfOk result (λ v. v.items ≡ held_at (contents self.now) (peak_positions F.rule self.now.boundary)) }
    {
        let mut digests = Vec::new(self.allocator());
        for position in F::nodes_to_pin(self.boundary) {
            if let Some(digest) = self.get_node(position) {
                digests.push(digest)?;
            }
        }
        Ok(digests)
    }

    // Returns the digests that are held of the nodes from the boundary's position on.
    fn nodes(&self) -> Result<Vec<D>, AllocError>
        ensures { let start = size F.rule self.now.boundary in
            IfOk result (λ v. v.items ≡ held_at (contents self.now) (range_with_len start (self.now.size - start))) }
    {
        let mut digests = Vec::new(self.allocator());
        let start = F::location_to_position(self.boundary);
        let end = self.size();
        for index in start.as_u64()..end.as_u64() {
            if let Some(digest) = self.get_node(Position::new(index)) {
                digests.push(digest)?;
            }
        }
        Ok(digests)
    }
}

// Returns the position of the boundary, and the leaf count of a structure with `count` nodes from
// there on.
fn measure<F: Family>(
    boundary: Location<F>,
    count: usize,
) -> Result<(Position<F>, Location<F>), Error<F>>
    ensures valid { IfOk result (λ m. boundary ≤ F.MAX_LEAVES) }
    ensures start { IfOk result (λ m. m.0 ≡ size F.rule boundary) }
    ensures leaves { IfOk result (λ m. (m.1 ≤ F.MAX_LEAVES) × (size F.rule m.1 ≡ size F.rule boundary + count)) }
    ensures overflow { F.MAX_LEAVES < boundary → result ≡ Err (Error.LocationOverflow boundary) }
    ensures too_large { boundary ≤ F.MAX_LEAVES → F.MAX_NODES < size F.rule boundary + count → result ≡ Err (Error.InvalidSize (2 ^ 64 - 1)) }
    ensures no_size { let end = size F.rule boundary + count in
        boundary ≤ F.MAX_LEAVES → end ≤ F.MAX_NODES → ((n : ℕ) → size F.rule n ≢ end) → result ≡ Err (Error.InvalidSize end) }
    ensures allowed { boundary ≤ F.MAX_LEAVES → IsSize F.rule F.MAX_LEAVES (size F.rule boundary + count) → IsOk result }
{
    if !boundary.is_valid() {
        return Err(Error::LocationOverflow(boundary));
    }
    let start = F::location_to_position(boundary);
    if count as u64 > F::MAX_NODES - start.as_u64() {
        return Err(Error::InvalidSize(u64::MAX));
    }
    let end = start + count as u64;
    match F::position_to_location(end) {
        Some(leaves) => Ok((start, leaves)),
        None => Err(Error::InvalidSize(end.as_u64())),
    }
}

// Returns the digests by the positions of the peaks of `boundary` leaves.
//
// `InvalidPinnedNodes` if there are fewer or more digests than peaks, else `OutOfMemory` if a
// memory request is refused.
fn pair_pins<F: Family, D: Digest>(
    boundary: Location<F>,
    digests: &Vec<D>,
) -> Result<BTreeMap<Position<F>, D>, Error<F>>
    requires { boundary ≤ F.MAX_LEAVES }
    ensures made { let pins = zip (peak_positions F.rule boundary) digests.now.items in
        IfOk result (λ m. (p : ℕ) → lookup (λ q. p == q) m.entries ≡ lookup (λ q. p == q) pins) }
    ensures paired { IfOk result (λ m. length digests.now.items ≡ length (peak_positions F.rule boundary)) }
    ensures wrong { length digests.now.items ≢ length (peak_positions F.rule boundary) → result ≡ Err Error.InvalidPinnedNodes }
    ensures right { length digests.now.items ≡ length (peak_positions F.rule boundary) → IsOkUnless result Error.OutOfMemory }
{
    if digests.len() != F::nodes_to_pin(boundary).count() {
        return Err(Error::InvalidPinnedNodes);
    }
    let mut pins = BTreeMap::new(*digests.allocator());
    for position in F::nodes_to_pin(boundary) {
        let digest = digests[pins.len()];
        pins.insert(position, digest)?;
    }
    Ok(pins)
}
