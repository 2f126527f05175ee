//! SHA-256 of one message, and of four at once, in the lanes of 32-bit vectors.
//!
//! SHA-256 is a chain of sums and bit operations on 32-bit words, each of which needs the one
//! before, so that one message leaves most of a processor idle. In [`hash_four`] each word is a vector of four
//! lanes, lane j has the word of message j, and each operation does the work of four messages. In [`hash`]
//! the lanes have four words of the schedule of one message, which is computed beside its rounds. The
//! steps are those of FIPS 180-4. The digests are those of the library `sha2`, and are proved to be.
//!
//! A message is hashed with its padding, in blocks of 64 bytes: one block if it has at most 55
//! bytes, two if it has at most 119. So a leaf with an element of up to 47 bytes, which is
//! hashed after a position of 8 bytes, takes one block, and a parent node, which is hashed as a position and two
//! digests of 32 bytes, takes two. Four messages are hashed in the lanes, in the time of the longest one, or one after
//! another; [`pays_together`] is the rule, for callers too who arrange messages before they are hashed. Four nodes have a
//! path of their own, and four leaves with elements of 32 bytes have one, since the padding of all four is the same and
//! nothing has to be copied. So have a single node and a single fold. [`hash_three`] fills the lane that is left with the
//! last message. A message of more than 16 blocks is hashed by the library `sha2`.
#![tactic(auto)]

ghost use Rattle.std.specs.Prelude.{◌≡◌, ◌↔◌, ◌+◌, ◌-◌, ◌/◌, ◌%◌, ◌^◌, ◌<◌, ◌≤◌, ◌++◌, List, IfSome, IsTrue, length, min, take};
ghost use Rattle.sha2.specs.Sha256.{sha256};
ghost use Rattle.merkle_lanes.specs.Lanes.{joined_parts};
ghost use Rattle.merkle_lanes.specs.Together.{block_count, AreHashedTogether};

use four::{hash_blocks, hash_leaves, hash_nodes};
use padding::pad;
use sha2::{Digest, Sha256};

mod blocks;
mod compress;
mod four;
mod leaf;
mod node;
mod padding;
mod single;
mod vectors;

/// The greatest number of blocks of a message that is not left to the library `sha2`.
const MOST_BLOCKS: usize = 16;

// The number of blocks of a message of `length` bytes with its padding. The length saturates.
#[inline]
fn padded_block_count(length: usize) -> usize
    ensures { result ≡ min (length + 8) (2 ^ 64 - 1) / 64 + 1 }
{
    length.saturating_add(8) / 64 + 1
}

/// Returns the number of blocks of 64 bytes of a message of `length` bytes with its padding, or 17 if it has more than 16:
/// then it is hashed by itself, whatever the others are.
///
/// A message of at most 55 bytes has one block, one of 56 to 119 bytes has two, one of 952 to 1,015 bytes has 16.
#[inline]
pub fn block_count(length: usize) -> usize
    ensures { result ≡ block_count length }
{
    padded_block_count(length).min(MOST_BLOCKS + 1)
}

/// Returns whether [`hash_four`] hashes four messages with these numbers of blocks together: if none has more than 16, and
/// all together have at least twice as many as the longest.
///
/// A block of four lanes takes about as long as two blocks one after the other. So four messages are hashed one by one, for
/// example, if three have one block and the last has four.
#[inline]
pub fn pays_together(a: usize, b: usize, c: usize, d: usize) -> bool
    ensures { IsTrue result ↔ AreHashedTogether a b c d }
{
    let most = a.max(b).max(c).max(d);
    most <= MOST_BLOCKS && a + b + c + d >= 2 * most
}

/// Returns the SHA-256 digests of four messages, in their order. A message is the concatenation of
/// its parts.
///
/// They are hashed together, in the time of the longest one, if that [pays](pays_together) for the numbers of their blocks;
/// else one after another.
///
/// # Examples
///
/// ```
/// let position = [0, 0, 0, 0, 0, 0, 0, 2];
/// let (left, right) = ([1; 32], [2; 32]);
/// let node: &[&[u8]] = &[&position, &left, &right];
/// let (first, second, _, _) = hash_four(node, &[b"abc"], &[], &[b"a", b"bc"]);
/// ```
#[inline(always)]
pub fn hash_four(
    a: &[&[u8]],
    b: &[&[u8]],
    c: &[&[u8]],
    d: &[&[u8]],
) -> ([u8; 32], [u8; 32], [u8; 32], [u8; 32])
    ensures first { result.0 ≡ sha256 (joined_parts a.now) }
    ensures second { result.1 ≡ sha256 (joined_parts b.now) }
    ensures third { result.2 ≡ sha256 (joined_parts c.now) }
    ensures fourth { result.3 ≡ sha256 (joined_parts d.now) }
{
    if let (Some(a), Some(b), Some(c), Some(d)) = (node_of(a), node_of(b), node_of(c), node_of(d)) {
        return hash_nodes(
            &[a.0, b.0, c.0, d.0],
            &[a.1, b.1, c.1, d.1],
            &[a.2, b.2, c.2, d.2],
        );
    }
    if let (Some(a), Some(b), Some(c), Some(d)) = (leaf_of(a), leaf_of(b), leaf_of(c), leaf_of(d)) {
        return hash_leaves(&[a.0, b.0, c.0, d.0], &[a.1, b.1, c.1, d.1]);
    }
    hash_padded(a, b, c, d)
}

/// Returns the SHA-256 digests of two messages, in their order. A message is the concatenation of its parts.
///
/// They are hashed one after the other, which takes less time than two of four lanes.
#[inline(always)]
pub fn hash_two(a: &[&[u8]], b: &[&[u8]]) -> ([u8; 32], [u8; 32])
    ensures first { result.0 ≡ sha256 (joined_parts a.now) }
    ensures second { result.1 ≡ sha256 (joined_parts b.now) }
{
    (hash(a), hash(b))
}

/// Returns the SHA-256 digests of three messages, in their order. A message is the concatenation of its parts.
///
/// Nodes are hashed together, the third in two lanes; other messages are hashed one after another.
#[inline(always)]
pub fn hash_three(a: &[&[u8]], b: &[&[u8]], c: &[&[u8]]) -> ([u8; 32], [u8; 32], [u8; 32])
    ensures first { result.0 ≡ sha256 (joined_parts a.now) }
    ensures second { result.1 ≡ sha256 (joined_parts b.now) }
    ensures third { result.2 ≡ sha256 (joined_parts c.now) }
{
    if let (Some(a), Some(b), Some(c)) = (node_of(a), node_of(b), node_of(c)) {
        let (first, second, third, _) = hash_nodes(
            &[a.0, b.0, c.0, c.0],
            &[a.1, b.1, c.1, c.1],
            &[a.2, b.2, c.2, c.2],
        );
        return (first, second, third);
    }
    (hash(a), hash(b), hash(c))
}

// The four digests, together if each padded message has at most N bytes. It is not inlined, so that its callers, which
// hash nodes and leaves too, don't have its room on the stack.
#[inline(never)]
fn hash_within<const N: usize>(
    a: &[&[u8]],
    b: &[&[u8]],
    c: &[&[u8]],
    d: &[&[u8]],
) -> Option<([u8; 32], [u8; 32], [u8; 32], [u8; 32])>
    requires room { (9 ≤ N) × (N < 4096) }
    requires whole { N % 64 ≡ 0 }
    ensures first { IfSome result (λ all. all.0 ≡ sha256 (joined_parts a.now)) }
    ensures second { IfSome result (λ all. all.1 ≡ sha256 (joined_parts b.now)) }
    ensures third { IfSome result (λ all. all.2 ≡ sha256 (joined_parts c.now)) }
    ensures fourth { IfSome result (λ all. all.3 ≡ sha256 (joined_parts d.now)) }
{
    let (mut first, mut second, mut third, mut fourth) = ([0; N], [0; N], [0; N], [0; N]);
    let k = pad(a, &mut first)?;
    let l = pad(b, &mut second)?;
    let m = pad(c, &mut third)?;
    let n = pad(d, &mut fourth)?;
    let most = k.max(l).max(m).max(n);
    Some(hash_blocks(&[&first, &second, &third, &fourth], k, l, m, n, most))
}

// The number of blocks of a message with its padding. The length saturates.
fn count_blocks(parts: &[&[u8]]) -> usize
    ensures { result ≡ min (length (joined_parts parts.now) + 8) (2 ^ 64 - 1) / 64 + 1 }
{
    let mut length: usize = 0;
    for part in parts {
        length = length.saturating_add(part.len());
    }
    padded_block_count(length)
}

// The four digests, together if `most`, the greatest number of their blocks, is at most 16. Clearing less room takes less
// time.
#[inline]
fn hash_together(
    a: &[&[u8]],
    b: &[&[u8]],
    c: &[&[u8]],
    d: &[&[u8]],
    most: usize,
) -> Option<([u8; 32], [u8; 32], [u8; 32], [u8; 32])>
    ensures first { IfSome result (λ all. all.0 ≡ sha256 (joined_parts a.now)) }
    ensures second { IfSome result (λ all. all.1 ≡ sha256 (joined_parts b.now)) }
    ensures third { IfSome result (λ all. all.2 ≡ sha256 (joined_parts c.now)) }
    ensures fourth { IfSome result (λ all. all.3 ≡ sha256 (joined_parts d.now)) }
{
    match most {
        0..=2 => hash_within::<128>(a, b, c, d),
        3..=4 => hash_within::<256>(a, b, c, d),
        5..=8 => hash_within::<512>(a, b, c, d),
        _ => hash_within::<1024>(a, b, c, d),
    }
}

// The four digests, together if that pays.
fn hash_padded(
    a: &[&[u8]],
    b: &[&[u8]],
    c: &[&[u8]],
    d: &[&[u8]],
) -> ([u8; 32], [u8; 32], [u8; 32], [u8; 32])
    ensures first { result.0 ≡ sha256 (joined_parts a.now) }
    ensures second { result.1 ≡ sha256 (joined_parts b.now) }
    ensures third { result.2 ≡ sha256 (joined_parts c.now) }
    ensures fourth { result.3 ≡ sha256 (joined_parts d.now) }
{
    let (k, l, m, n) = (
        count_blocks(a),
        count_blocks(b),
        count_blocks(c),
        count_blocks(d),
    );
    if pays_together(k, l, m, n) {
        let most = k.max(l).max(m).max(n);
        if let Some(all) = hash_together(a, b, c, d, most) {
            return all;
        }
    }
    (hash(a), hash(b), hash(c), hash(d))
}

// The parts of a message that is a position of 8 bytes and two digests of 32 bytes.
#[inline(always)]
fn node_of<'a>(parts: &'a [&'a [u8]]) -> Option<(&'a [u8], &'a [u8], &'a [u8])>
    ensures position { IfSome result (λ m. length m.0.now ≡ 8) }
    ensures left { IfSome result (λ m. length m.1.now ≡ 32) }
    ensures right { IfSome result (λ m. length m.2.now ≡ 32) }
    ensures joined { IfSome result (λ m. m.0.now ++ (m.1.now ++ m.2.now) ≡ joined_parts parts.now) }
{
    if let [position, left, right] = parts {
        if position.len() == 8 && left.len() == 32 && right.len() == 32 {
            return Some((position, left, right));
        }
    }
    None
}

// The parts of a message that is a position of 8 bytes and an element of 32 bytes.
#[inline(always)]
fn leaf_of<'a>(parts: &'a [&'a [u8]]) -> Option<(&'a [u8], &'a [u8])>
    ensures position { IfSome result (λ m. length m.0.now ≡ 8) }
    ensures element { IfSome result (λ m. length m.1.now ≡ 32) }
    ensures joined { IfSome result (λ m. m.0.now ++ m.1.now ≡ joined_parts parts.now) }
{
    if let [position, element] = parts {
        if position.len() == 8 && element.len() == 32 {
            return Some((position, element));
        }
    }
    None
}

// The parts of a message that is two halves of 32 bytes.
#[inline(always)]
fn halves_of<'a>(parts: &'a [&'a [u8]]) -> Option<(&'a [u8], &'a [u8])>
    ensures first { IfSome result (λ m. length m.0.now ≡ 32) }
    ensures second { IfSome result (λ m. length m.1.now ≡ 32) }
    ensures joined { IfSome result (λ m. m.0.now ++ m.1.now ≡ joined_parts parts.now) }
{
    if let [first, second] = parts {
        if first.len() == 32 && second.len() == 32 {
            return Some((first, second));
        }
    }
    None
}

// The digest, if the padded message has at most N bytes.
#[inline(always)]
fn hash_one_within<const N: usize>(parts: &[&[u8]]) -> Option<[u8; 32]>
    requires room { (9 ≤ N) × (N < 4096) }
    requires whole { N % 64 ≡ 0 }
    ensures { IfSome result (λ digest. digest ≡ sha256 (joined_parts parts.now)) }
{
    let mut bytes = [0; N];
    let count = pad(parts, &mut bytes)?;
    Some(single::hash_blocks(&bytes, count))
}

/// Returns the SHA-256 digest of a message, which is the concatenation of its parts.
#[inline(never)]
pub fn hash(parts: &[&[u8]]) -> [u8; 32]
    ensures { result ≡ sha256 (joined_parts parts.now) }
{
    if let Some((first, second)) = halves_of(parts) {
        return single::hash_halves(first, second);
    }
    if let Some((position, left, right)) = node_of(parts) {
        return single::hash_node(position, left, right);
    }
    // Clearing less room takes less time.
    let digest = match count_blocks(parts) {
        0..=2 => hash_one_within::<128>(parts),
        3..=4 => hash_one_within::<256>(parts),
        5..=8 => hash_one_within::<512>(parts),
        9..=MOST_BLOCKS => hash_one_within::<1024>(parts),
        _ => None,
    };
    if let Some(digest) = digest {
        return digest;
    }
    hash_long(parts)
}

// The digest of a message of any length.
#[inline(never)]
fn hash_long(parts: &[&[u8]]) -> [u8; 32]
    ensures { result ≡ sha256 (joined_parts parts.now) }
{
    let mut hasher = Sha256::new();
    for part in parts {
        hasher.update(*part);
    }
    hasher.finalize()
}
