//! Messages in four lanes. The number of lanes is chosen here alone: what is called takes any number.

ghost use Rattle.std.specs.Prelude.{◌≡◌, ◌≢◌, ◌≤◌, ◌<◌, ◌*◌, ℕ, length};
ghost use Rattle.sha2.specs.Sha256.{digest_bytes, hash_after, initial_hash_256, sha256};
ghost use Rattle.merkle_lanes.specs.Lanes.{leaf_message, message, node_message, state_lane};

use crate::blocks::{compress_next, digest, initialize};
use crate::leaf::compress_leaves;
use crate::node::compress_nodes;
use std::simd::u32x4;

// The bytes of the hash values, in the order of the lanes.
#[inline(always)]
fn digests(state: &[u32x4; 8]) -> ([u8; 32], [u8; 32], [u8; 32], [u8; 32])
    ensures first { result.0 ≡ digest_bytes (state_lane 0 state.now) 8 }
    ensures second { result.1 ≡ digest_bytes (state_lane 1 state.now) 8 }
    ensures third { result.2 ≡ digest_bytes (state_lane 2 state.now) 8 }
    ensures fourth { result.3 ≡ digest_bytes (state_lane 3 state.now) 8 }
{
    (
        digest(state, 0),
        digest(state, 1),
        digest(state, 2),
        digest(state, 3),
    )
}

// Sets `out` to the bytes of the hash value in lane `j` if the message there has as many blocks as are done.
#[inline(always)]
fn take_digest(out: &mut [u8; 32], state: &[u32x4; 8], j: usize, count: usize, done: usize)
    requires { j < 4 }
    ensures last { count ≡ done → out.new ≡ digest_bytes (state_lane j state.now) 8 }
    ensures other { count ≢ done → out.new ≡ out.old }
{
    if count == done {
        *out = digest(state, j);
    }
}

/// Returns the bytes of the hash values of four messages, each after its own number of blocks, in the
/// order of the messages. The lanes of the shorter ones go on to the end, and are not read again.
///
/// Requires that there are four messages, and that each has at least one block, and `most` blocks of bytes.
pub fn hash_blocks(
    messages: &[&[u8]],
    a: usize,
    b: usize,
    c: usize,
    d: usize,
    most: usize,
) -> ([u8; 32], [u8; 32], [u8; 32], [u8; 32])
    requires number { length messages.now ≡ 4 }
    requires few { most < 64 }
    requires first { (1 ≤ a) × (a ≤ most) }
    requires second { (1 ≤ b) × (b ≤ most) }
    requires third { (1 ≤ c) × (c ≤ most) }
    requires fourth { (1 ≤ d) × (d ≤ most) }
    requires long { (j : ℕ) → j < 4 → 64 * most ≤ length (message messages.now j) }
    ensures first { result.0 ≡ digest_bytes (hash_after initial_hash_256 (message messages.now 0) a) 8 }
    ensures second { result.1 ≡ digest_bytes (hash_after initial_hash_256 (message messages.now 1) b) 8 }
    ensures third { result.2 ≡ digest_bytes (hash_after initial_hash_256 (message messages.now 2) c) 8 }
    ensures fourth { result.3 ≡ digest_bytes (hash_after initial_hash_256 (message messages.now 3) d) 8 }
{
    let mut state = [u32x4::splat(0); 8];
    let mut block = [u32x4::splat(0); 16];
    let (mut first, mut second, mut third, mut fourth) = ([0; 32], [0; 32], [0; 32], [0; 32]);
    initialize(&mut state);
    for i in 0..most {
        compress_next(&mut state, &mut block, messages, i);
        take_digest(&mut first, &state, 0, a, i + 1);
        take_digest(&mut second, &state, 1, b, i + 1);
        take_digest(&mut third, &state, 2, c, i + 1);
        take_digest(&mut fourth, &state, 3, d, i + 1);
    }
    (first, second, third, fourth)
}

/// Returns the SHA-256 digests of four messages, in their order. A message is a position of 8 bytes, and
/// the digests of a left and a right child, of 32 bytes each.
///
/// Requires that there are four of each.
#[inline(never)]
pub fn hash_nodes(
    positions: &[&[u8]],
    lefts: &[&[u8]],
    rights: &[&[u8]],
) -> ([u8; 32], [u8; 32], [u8; 32], [u8; 32])
    requires positions { length positions.now ≡ 4 }
    requires lefts { length lefts.now ≡ 4 }
    requires rights { length rights.now ≡ 4 }
    requires long_positions { (j : ℕ) → j < 4 → length (message positions.now j) ≡ 8 }
    requires long_lefts { (j : ℕ) → j < 4 → length (message lefts.now j) ≡ 32 }
    requires long_rights { (j : ℕ) → j < 4 → length (message rights.now j) ≡ 32 }
    ensures first { result.0 ≡ sha256 (node_message positions.now lefts.now rights.now 0) }
    ensures second { result.1 ≡ sha256 (node_message positions.now lefts.now rights.now 1) }
    ensures third { result.2 ≡ sha256 (node_message positions.now lefts.now rights.now 2) }
    ensures fourth { result.3 ≡ sha256 (node_message positions.now lefts.now rights.now 3) }
{
    let mut state = [u32x4::splat(0); 8];
    let mut block = [u32x4::splat(0); 16];
    compress_nodes(&mut state, &mut block, positions, lefts, rights);
    digests(&state)
}

/// Returns the SHA-256 digests of four messages, in their order. A message is a position of 8 bytes, and
/// an element of 32 bytes.
///
/// Requires that there are four of each.
#[inline(never)]
pub fn hash_leaves(
    positions: &[&[u8]],
    elements: &[&[u8]],
) -> ([u8; 32], [u8; 32], [u8; 32], [u8; 32])
    requires positions { length positions.now ≡ 4 }
    requires elements { length elements.now ≡ 4 }
    requires long_positions { (j : ℕ) → j < 4 → length (message positions.now j) ≡ 8 }
    requires long_elements { (j : ℕ) → j < 4 → length (message elements.now j) ≡ 32 }
    ensures first { result.0 ≡ sha256 (leaf_message positions.now elements.now 0) }
    ensures second { result.1 ≡ sha256 (leaf_message positions.now elements.now 1) }
    ensures third { result.2 ≡ sha256 (leaf_message positions.now elements.now 2) }
    ensures fourth { result.3 ≡ sha256 (leaf_message positions.now elements.now 3) }
{
    let mut state = [u32x4::splat(0); 8];
    let mut block = [u32x4::splat(0); 16];
    compress_leaves(&mut state, &mut block, positions, elements);
    digests(&state)
}
