//! Configurations as bytes.
ghost use Rattle.std.specs.Prelude.{◌≡◌, ◌+◌, ◌^◌, ◌<◌, ◌≤◌, ◌++◌, ℕ, List, IfOk, IfErr, OnOk, OnErr, length, vec_len, vec_capacity};
ghost use Rattle.std.specs.Option.{SomeIff};
ghost use Rattle.merkle_codec.specs.NumberLaws.{lawful_locations};
ghost use Rattle.merkle_core.specs.ConfigBytes.{counted_spelling, counted_length, components_length, config_spelling, SameConfig, IsReadableConfig, IsConfigRefusal};
ghost use Rattle.merkle_core.specs.ConfigLaws.{config_spelling_once, IsConfigRefusal_of_spelling, IsConfigRefusal_once};

use crate::components::Config;
use merkle_base::error::{DecodeError, OutOfMemory};
use merkle_base::family::Family;
use merkle_base::location::Location;
use merkle_codec::codec::{EncodeSize, Read, Write};
use merkle_codec::number::{number_size, read_up_to, write_number};
use merkle_codec::proof::{read_counted_digests, write_digests};
use merkle_digest::digest::Digest;
use std::alloc::Global;

/// How many digests a [`Config`] has at most that is decoded.
#[derive(Clone, Copy, Debug)]
pub struct ConfigLimits {
    /// The greatest number of pinned digests. No structure has more than
    /// [`MAX_PINNED_NODES`](merkle_base::family::MAX_PINNED_NODES).
    pub pinned_nodes: usize,
    /// The greatest number of nodes from the pruning boundary on.
    pub nodes: usize,
}

// Returns the number of bytes of `count` counted digests.
fn counted_size<D: Digest>(count: usize) -> usize
    requires { counted_length D.SIZE count < 2 ^ 64 }
    ensures { result ≡ counted_length D.SIZE count }
{
    number_size(count as u64) + count * D::SIZE
}

// Returns the number of bytes of `count` counted digests, or `None` if it does not fit a `usize`.
fn checked_counted_size<D: Digest>(count: usize) -> Option<usize>
    ensures { SomeIff result (counted_length D.SIZE count < 2 ^ 64) (counted_length D.SIZE count) }
{
    let bytes = count.checked_mul(D::SIZE)?;
    bytes.checked_add(number_size(count as u64))
}

// Returns the number of bytes of the components of a structure: of its boundary, of `pins` pinned
// digests and of `nodes` nodes.
pub(crate) fn components_size<D: Digest>(boundary: u64, pins: usize, nodes: usize) -> usize
    requires { components_length D.SIZE boundary pins nodes < 2 ^ 64 }
    ensures { result ≡ components_length D.SIZE boundary pins nodes }
{
    number_size(boundary) + counted_size::<D>(pins) + counted_size::<D>(nodes)
}

// Returns that number, or `None` if it does not fit a `usize`.
pub(crate) fn checked_components_size<D: Digest>(
    boundary: u64,
    pins: usize,
    nodes: usize,
) -> Option<usize>
    ensures { let n = components_length D.SIZE boundary pins nodes in SomeIff result (n < 2 ^ 64) n }
{
    let pins = checked_counted_size::<D>(pins)?;
    let nodes = checked_counted_size::<D>(nodes)?;
    let digests = pins.checked_add(nodes)?;
    digests.checked_add(number_size(boundary))
}

// Returns the number of bytes of a configuration's encoding, or `None` if it does not fit a `usize`.
fn checked_size<F: Family, D: Digest>(config: &Config<F, D>) -> Option<usize>
    ensures { SomeIff result (length (config_spelling D.bytes config.now) < 2 ^ 64) (length (config_spelling D.bytes config.now)) }
{
    checked_components_size::<D>(
        config.pruning_boundary.as_u64(),
        config.pinned_nodes.len(),
        config.nodes.len(),
    )
}

// Appends the number of `digests`, and their bytes.
//
// `OutOfMemory` only if `out` has no room for them and a memory request is refused.
fn write_counted<D: Digest>(digests: &[D], out: &mut Vec<u8>) -> Result<(), OutOfMemory>
    ensures ok { OnOk result (out.new.items ≡ out.old.items ++ counted_spelling D.bytes digests.now) }
    ensures no_room { OnErr result (vec_capacity out.old < vec_len out.old + length (counted_spelling D.bytes digests.now)) }
    ensures capacity { vec_capacity out.old ≤ vec_capacity out.new }
{
    write_number(digests.len() as u64, out)?;
    write_digests(digests, out)
}

// Decodes the configuration of at most `most_pins` pinned digests and at most `most_nodes` nodes
// that `bytes` begin with, and returns it with the bytes after it.
fn read_config<F: Family, D: Digest>(
    alloc: Global,
    bytes: &[u8],
    most_pins: usize,
    most_nodes: usize,
) -> Result<(Config<F, D>, &[u8]), DecodeError>
    ensures within { IfOk result (λ p. IsReadableConfig F.MAX_LEAVES most_pins most_nodes p.0) }
    ensures read { IfOk result (λ p. bytes.now ≡ config_spelling D.bytes p.0 ++ p.1.now) }
    ensures refused { IfErr result (λ e. IsConfigRefusal D.bytes D.SIZE D.Spells F.MAX_LEAVES most_pins most_nodes bytes.now e) }
{
    let (boundary, rest) = read_up_to(bytes, F::MAX_LEAVES, DecodeError::Invalid)?;
    let (pinned_nodes, rest) = match read_counted_digests(alloc, rest, most_pins) {
        Ok(pins) => pins,
        Err(error) => return Err(error),
    };
    match read_counted_digests(alloc, rest, most_nodes) {
        Ok((nodes, rest)) => {
            let config = Config {
                nodes,
                pruning_boundary: Location::new(boundary),
                pinned_nodes,
            };
            Ok((config, rest))
        }
        Err(error) => Err(error),
    }
}

/// The encoding is the pruning boundary, as a number, then the pinned digests, and then the nodes:
/// of both the number of digests, as a number, and the bytes of the digests.
impl<F: Family, D: Digest> EncodeSize for Config<F, D> {
    ghost spelling = { config_spelling D.bytes };

    ghost same = { SameConfig };

    fn encode_size(&self) -> usize {
        components_size::<D>(
            self.pruning_boundary.as_u64(),
            self.pinned_nodes.len(),
            self.nodes.len(),
        )
    }

    ghost one_spelling = { λ c d r s e. config_spelling_once D.bytes D.SIZE (λ x. D.one_length (D.bytes x) (D.bytes_spell x)) D.bytes_decide c d r s e };
}

impl<F: Family, D: Digest> Write for Config<F, D> {
    /// Appends the encoding to `out`. Room for all of it is reserved first.
    ///
    /// # Errors
    ///
    /// - `OutOfMemory` if `out` has no room for the encoding and gets none, because a memory
    ///   request is refused or the encoding does not fit a `usize`
    ///
    /// The contents of `out` are unchanged on error.
    fn write(&self, out: &mut Vec<u8>) -> Result<(), OutOfMemory> {
        let Some(size) = checked_size(self) else {
            return Err(OutOfMemory);
        };
        out.reserve(size)?;
        write_number(self.pruning_boundary.as_u64(), out)?;
        write_counted(&self.pinned_nodes, out)?;
        write_counted(&self.nodes, out)?;
        Ok(())
    }
}

impl<F: Family, D: Digest> Read for Config<F, D> {
    type Cfg = ConfigLimits;

    ghost spelled_by = { config_spelling D.bytes };

    ghost within = { λ limits c. IsReadableConfig F.MAX_LEAVES limits.pinned_nodes limits.nodes c };

    ghost refuses = { λ limits b e. IsConfigRefusal D.bytes D.SIZE D.Spells F.MAX_LEAVES limits.pinned_nodes limits.nodes b e };

    /// Decodes the configuration within `limits` whose encoding `input` begins with, and advances
    /// `input` past it.
    ///
    /// Every configuration that was written is read back if its pruning boundary is at most
    /// [`MAX_LEAVES`](Family::MAX_LEAVES) and it has no more digests than `limits`, unless memory is
    /// refused. That a structure with these components can be created is checked by
    /// [`init`](crate::mem::Mem::init) alone.
    ///
    /// # Errors
    ///
    /// - `EndOfBuffer` or `InvalidVarint` if `input` does not begin with a number, the boundary
    /// - `Invalid` if the boundary exceeds [`MAX_LEAVES`](Family::MAX_LEAVES)
    /// - for the pinned digests, and then for the nodes:
    ///   - `EndOfBuffer` or `InvalidVarint` if no number follows
    ///   - `TooMany` if the number exceeds its limit
    ///   - `EndOfBuffer` if fewer bytes follow than that number of digests has
    ///   - `OutOfMemory` if the memory request for the digests is refused
    ///   - `Invalid` if the bytes of a digest are not those of any
    ///
    /// `input` is unchanged on error.
    fn read(alloc: Global, input: &mut &[u8], limits: &ConfigLimits) -> Result<Self, DecodeError>
        ensures ok { IfOk result (λ c. IsReadableConfig F.MAX_LEAVES limits.now.pinned_nodes limits.now.nodes c
            × (input.old.now ≡ config_spelling D.bytes c ++ input.new.now)) }
        ensures refused { IfErr result (λ e. IsConfigRefusal D.bytes D.SIZE D.Spells F.MAX_LEAVES
            limits.now.pinned_nodes limits.now.nodes input.old.now e) }
        ensures unchanged { OnErr result (input.new.now ≡ input.old.now) }
        ensures written { (c : _) (rest : List ℕ) → IsReadableConfig F.MAX_LEAVES limits.now.pinned_nodes limits.now.nodes c
            → input.old.now ≡ config_spelling D.bytes c ++ rest
            → IfOk result (λ d. SameConfig d c × (input.new.now ≡ rest)) × IfErr result (λ e. e ≡ DecodeError.OutOfMemory) }
    {
        match read_config(alloc, *input, limits.pinned_nodes, limits.nodes) {
            Ok((config, rest)) => {
                *input = rest;
                Ok(config)
            }
            Err(error) => Err(error),
        }
    }

    ghost refused_spells_none = { λ limits b e h memory c rest within k.
        memory (IsConfigRefusal_of_spelling D.bytes D.SIZE (λ x. D.one_length (D.bytes x) (D.bytes_spell x)) D.Spells D.bytes_spell D.bytes_decide
        F.MAX_LEAVES limits.pinned_nodes limits.nodes (lawful_locations F.rule F.MAX_LEAVES F.MAX_NODES F.lawful) b e h c rest within k) };

    ghost one_refusal = { λ limits b e f h k x y.
        IsConfigRefusal_once D.bytes D.SIZE (λ x. D.one_length (D.bytes x) (D.bytes_spell x)) D.Spells D.bytes_spell D.bytes_decide
        F.MAX_LEAVES limits.pinned_nodes limits.nodes b e f h k x y };
}
