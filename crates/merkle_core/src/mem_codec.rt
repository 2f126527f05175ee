//! Structures as bytes.
ghost use Rattle.std.specs.Prelude.{◌≡◌, ◌+◌, ◌^◌, ◌<◌, ◌≤◌, ◌++◌, OnOk, OnErr, length, vec_len, vec_capacity};
ghost use Rattle.std.specs.FinMap.{get};
ghost use Rattle.std.specs.List.{flat_map};
ghost use Rattle.std.specs.Option.{SomeIff, option_to_list};
ghost use Rattle.merkle_core.specs.ConfigBytes.{counted_spelling};
ghost use Rattle.merkle_core.specs.MemBytes.{held_pins, held_nodes, mem_spelling, SameComponents};
ghost use Rattle.merkle_core.specs.MemLaws.{mem_spelling_once};

use crate::config_codec::{checked_components_size, components_size};
use crate::mem::Mem;
use merkle_base::error::OutOfMemory;
use merkle_base::family::Family;
use merkle_base::position::Position;
use merkle_codec::codec::{EncodeSize, Write};
use merkle_codec::number::write_number;
use merkle_digest::digest::Digest;

impl<F: Family, D: Digest> Mem<F, D> {
    // Returns the number of the digests that are held of the peaks over the leaves before the boundary.
    fn pin_count(&self) -> usize
        ensures { result ≡ length (held_pins F.rule self.now) }
    {
        F::nodes_to_pin(self.boundary).count()
    }

    // Returns the number of the digests that are held of the nodes from the boundary's position on.
    fn node_count(&self) -> usize
        ensures { result ≡ length (held_nodes F.rule self.now) }
    {
        let start = F::location_to_position(self.boundary);
        (self.size() - start).as_u64() as usize
    }

    // Returns the number of bytes of the encoding, or `None` if it does not fit a `usize`.
    fn checked_encode_size(&self) -> Option<usize>
        ensures { let n = length (mem_spelling F.rule D.bytes self.now) in SomeIff result (n < 2 ^ 64) n }
    {
        checked_components_size::<D>(self.boundary.as_u64(), self.pin_count(), self.node_count())
    }

    // Appends the bytes of the digest at `position`, if it is held.
    //
    // `OutOfMemory` only if `out` has no room for them and a memory request is refused.
    fn write_node(&self, position: Position<F>, out: &mut Vec<u8>) -> Result<(), OutOfMemory>
        ensures ok { let node = option_to_list (get self.now.stored position) in
            OnOk result (out.new.items ≡ out.old.items ++ flat_map D.bytes node) }
        ensures no_room { let node = option_to_list (get self.now.stored position) in
            OnErr result (vec_capacity out.old < vec_len out.old + length (flat_map D.bytes node)) }
        ensures capacity { vec_capacity out.old ≤ vec_capacity out.new }
    {
        if let Some(digest) = self.get_node(position) {
            out.extend_from_slice(digest.as_bytes())?;
        }
        Ok(())
    }

    // Appends the number of the pinned digests, and their bytes.
    //
    // `OutOfMemory` only if `out` has no room for them and a memory request is refused.
    fn write_pins(&self, out: &mut Vec<u8>) -> Result<(), OutOfMemory>
        ensures ok { OnOk result (out.new.items ≡ out.old.items ++ counted_spelling D.bytes (held_pins F.rule self.now)) }
        ensures no_room { let pins = counted_spelling D.bytes (held_pins F.rule self.now) in
            OnErr result (vec_capacity out.old < vec_len out.old + length pins) }
        ensures capacity { vec_capacity out.old ≤ vec_capacity out.new }
    {
        write_number(self.pin_count() as u64, out)?;
        for position in F::nodes_to_pin(self.boundary) {
            self.write_node(position, out)?;
        }
        Ok(())
    }

    // Appends the number of the nodes from the boundary's position on, and the bytes of their digests.
    //
    // `OutOfMemory` only if `out` has no room for them and a memory request is refused.
    fn write_nodes(&self, out: &mut Vec<u8>) -> Result<(), OutOfMemory>
        ensures ok { OnOk result (out.new.items ≡ out.old.items ++ counted_spelling D.bytes (held_nodes F.rule self.now)) }
        ensures no_room { let nodes = counted_spelling D.bytes (held_nodes F.rule self.now) in
            OnErr result (vec_capacity out.old < vec_len out.old + length nodes) }
        ensures capacity { vec_capacity out.old ≤ vec_capacity out.new }
    {
        write_number(self.node_count() as u64, out)?;
        let start = F::location_to_position(self.boundary);
        let end = self.size();
        for index in start.as_u64()..end.as_u64() {
            self.write_node(Position::new(index), out)?;
        }
        Ok(())
    }
}

/// The encoding is that of the configuration that [`to_config`](Mem::to_config) returns.
/// [`Config`](crate::mem::Config) decodes it, and [`init`](Mem::init) makes the structure again.
impl<F: Family, D: Digest> EncodeSize for Mem<F, D> {
    ghost spelling = { mem_spelling F.rule D.bytes };

    ghost same = { SameComponents F.rule };

    fn encode_size(&self) -> usize {
        components_size::<D>(self.boundary.as_u64(), self.pin_count(), self.node_count())
    }

    ghost one_spelling = { λ s t r q e. mem_spelling_once D.bytes D.SIZE (λ x. D.one_length (D.bytes x) (D.bytes_spell x)) D.bytes_decide F.rule s t r q e };
}

impl<F: Family, D: Digest> Write for Mem<F, D> {
    /// Appends the encoding to `out`, without a copy of the nodes. Room for all of it is reserved
    /// first.
    ///
    /// # Errors
    ///
    /// - `OutOfMemory` if `out` has no room for the encoding and gets none, because a memory
    ///   request is refused or the encoding does not fit a `usize`
    ///
    /// The contents of `out` are unchanged on error.
    fn write(&self, out: &mut Vec<u8>) -> Result<(), OutOfMemory> {
        let Some(size) = self.checked_encode_size() else {
            return Err(OutOfMemory);
        };
        out.reserve(size)?;
        write_number(self.boundary.as_u64(), out)?;
        self.write_pins(out)?;
        self.write_nodes(out)?;
        Ok(())
    }
}
