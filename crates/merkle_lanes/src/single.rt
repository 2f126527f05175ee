//! SHA-256 of one message.
//!
//! Each round needs the one before, but the words of the message schedule need only the words before them. Four words are
//! computed at a time, in the lanes of vectors, and the constants of the rounds are added to them there. The rounds that
//! use up eight words stand beside the computing of eight later ones, so that a processor works on both at once. This is the
//! method of Guilford, Yap and Gopal, "Fast SHA-256 Implementations on Intel Architecture Processors", 2012.
//!
//! A message of 64 bytes, as two digests are, has a second block that is padding alone. Its schedule is the same for all
//! such messages, and so are its sums with the constants.

ghost use Rattle.std.specs.Prelude.{◌≡◌, ℕ, ◌+◌, ◌*◌, ◌<◌, ◌≤◌, ◌++◌, List, slice_index, length, take, drop};
ghost use Rattle.sha2.specs.Sha256.{
  add32,
  compress,
  digest_bytes,
  hash_after,
  initial_hash_256,
  padded_message,
  padding,
  round,
  round_constants,
  rounds,
  schedule,
  sha256,
  word_at,
};
ghost use Rattle.merkle_lanes.specs.Lanes.{IsSum, StandAt, state_lane};

use crate::blocks::{digest, initialize, load};
use crate::compress::{K, add_words};
use crate::vectors::{add, round_of_sum, small_sigma0, small_sigma1, splat};
use std::simd::{u32x1, u32x4};

// The sums of the constants of the rounds and the schedule of the padding of 64 bytes.
const PADDING_SUMS: [u32; 64] = [
    0xc28a2f98, 0x71374491, 0xb5c0fbcf, 0xe9b5dba5, 0x3956c25b, 0x59f111f1, 0x923f82a4, 0xab1c5ed5,
    0xd807aa98, 0x12835b01, 0x243185be, 0x550c7dc3, 0x72be5d74, 0x80deb1fe, 0x9bdc06a7, 0xc19bf374,
    0x649b69c1, 0xf0fe4786, 0x0fe1edc6, 0x240cf254, 0x4fe9346f, 0x6cc984be, 0x61b9411e, 0x16f988fa,
    0xf2c65152, 0xa88e5a6d, 0xb019fc65, 0xb9d99ec7, 0x9a1231c3, 0xe70eeaa0, 0xfdb1232b, 0xc7353eb0,
    0x3069bad5, 0xcb976d5f, 0x5a0f118f, 0xdc1eeefd, 0x0a35b689, 0xde0b7a04, 0x58f4ca9d, 0xe15d5b16,
    0x007f3e86, 0x37088980, 0xa507ea32, 0x6fab9537, 0x17406110, 0x0d8cd6f1, 0xcdaa3b6d, 0xc0bbbe37,
    0x83613bda, 0xdb48a363, 0x0b02e931, 0x6fd15ca7, 0x521afaca, 0x31338431, 0x6ed41a95, 0x6d437890,
    0xc39c91f2, 0x9eccabbd, 0xb5c9a0e6, 0x532fb63c, 0xd2c741c6, 0x07237ea3, 0xa4954b68, 0x4c191d76,
];

// The words of the second to the fourth lane, and then the first word of `next`.
#[inline(always)]
fn from_second(words: u32x4, next: u32x4) -> u32x4
    ensures first { slice_index result 0 ≡ slice_index words 1 }
    ensures second { slice_index result 1 ≡ slice_index words 2 }
    ensures third { slice_index result 2 ≡ slice_index words 3 }
    ensures fourth { slice_index result 3 ≡ slice_index next 0 }
{
    words.shuffle(next, [1, 2, 3, 4])
}

// The last two words, in the first two lanes.
#[inline(always)]
fn last_two(words: u32x4) -> u32x4
    ensures first { slice_index result 0 ≡ slice_index words 2 }
    ensures second { slice_index result 1 ≡ slice_index words 3 }
{
    words.swizzle([2, 3, 2, 3])
}

// The first two words, in the last two lanes.
#[inline(always)]
fn first_two(words: u32x4) -> u32x4
    ensures third { slice_index result 2 ≡ slice_index words 0 }
    ensures fourth { slice_index result 3 ≡ slice_index words 1 }
{
    words.swizzle([0, 1, 0, 1])
}

// The first two words of one, and the last two of the other.
#[inline(always)]
fn halves(words: u32x4, others: u32x4) -> u32x4
    ensures first { slice_index result 0 ≡ slice_index words 0 }
    ensures second { slice_index result 1 ≡ slice_index words 1 }
    ensures third { slice_index result 2 ≡ slice_index others 2 }
    ensures fourth { slice_index result 3 ≡ slice_index others 3 }
{
    words.shuffle(others, [0, 1, 6, 7])
}

// The four words of the schedule after sixteen in a row. The last two of them need the first two.
#[inline(always)]
fn next_four(a: u32x4, b: u32x4, c: u32x4, d: u32x4) -> u32x4
    ensures { (block : List ℕ) (n : ℕ) → n + 20 ≤ 64 → StandAt a (schedule block 48) n → StandAt b (schedule block 48) (n + 4)
        → StandAt c (schedule block 48) (n + 8) → StandAt d (schedule block 48) (n + 12) → StandAt result (schedule block 48) (n + 16) }
{
    let early = add(add(a, small_sigma0(from_second(a, b))), from_second(c, d));
    let first = add(early, small_sigma1(last_two(d)));
    let second = add(early, small_sigma1(first_two(first)));
    halves(first, second)
}

// The four words of the bytes from byte `start` on.
#[inline(always)]
fn load_four(bytes: &[u8], start: usize) -> u32x4
    requires { start + 16 ≤ length bytes.now }
    ensures { (j : ℕ) → j < 4 → slice_index result j ≡ word_at bytes.now (start + 4 * j) }
{
    u32x4::from_array([
        load(bytes, start),
        load(bytes, start + 4),
        load(bytes, start + 8),
        load(bytes, start + 12),
    ])
}

// The four words `words`, each with the constant of its round added, which are the rounds from `t` on.
#[inline(always)]
fn with_constants(words: u32x4, t: usize) -> u32x4
    requires { t + 4 ≤ 64 }
    ensures { (j : ℕ) → j < 4 → slice_index result j ≡ add32 (slice_index round_constants (t + j)) (slice_index words j) }
{
    add(u32x4::from_slice(&K[t..t + 4]), words)
}

// Four rounds in a row.
#[inline(always)]
fn four_rounds(v: &mut [u32x1; 8], first: u32, second: u32, third: u32, fourth: u32)
    ensures { (ws h : List ℕ) (t : ℕ) → IsSum first ws t → IsSum second ws (t + 1) → IsSum third ws (t + 2) → IsSum fourth ws (t + 3)
        → state_lane 0 v.old ≡ rounds h ws t → state_lane 0 v.new ≡ rounds h ws (t + 4) }
{
    round_of_sum(v, splat(first));
    round_of_sum(v, splat(second));
    round_of_sum(v, splat(third));
    round_of_sum(v, splat(fourth));
}

// The four rounds from `t` on, whose words of the schedule are `words`.
#[inline(always)]
fn four_rounds_of(v: &mut [u32x1; 8], words: u32x4, t: usize)
    requires { t + 4 ≤ 64 }
    ensures { (ws h : List ℕ) → StandAt words ws t
        → state_lane 0 v.old ≡ rounds h ws t → state_lane 0 v.new ≡ rounds h ws (t + 4) }
{
    let [first, second, third, fourth] = with_constants(words, t).to_array();
    four_rounds(v, first, second, third, fourth);
}

// Compresses the block whose words are given, in their order, into the hash value.
#[inline(always)]
fn compress_words(state: &mut [u32x1; 8], first: u32x4, second: u32x4, third: u32x4, fourth: u32x4)
    ensures { (block : List ℕ) → ((j : ℕ) → j < 4 → slice_index first j ≡ word_at block (4 * j))
        → ((j : ℕ) → j < 4 → slice_index second j ≡ word_at block (4 * (4 + j)))
        → ((j : ℕ) → j < 4 → slice_index third j ≡ word_at block (4 * (8 + j)))
        → ((j : ℕ) → j < 4 → slice_index fourth j ≡ word_at block (4 * (12 + j)))
        → state_lane 0 state.new ≡ compress (state_lane 0 state.old) block }
{
    let mut v = *state;
    let (mut a, mut b, mut c, mut d) = (first, second, third, fourth);
    // After eight rounds each working variable is in its own place again.
    for turn in 0..6 {
        let e = next_four(a, b, c, d);
        four_rounds_of(&mut v, a, 8 * turn);
        let f = next_four(b, c, d, e);
        four_rounds_of(&mut v, b, 8 * turn + 4);
        a = c;
        b = d;
        c = e;
        d = f;
    }
    four_rounds_of(&mut v, a, 48);
    four_rounds_of(&mut v, b, 52);
    four_rounds_of(&mut v, c, 56);
    four_rounds_of(&mut v, d, 60);
    add_words(state, &v);
}

/// Returns the bytes of the hash value after the first `count` blocks.
///
/// Requires that there are as many.
#[inline(never)]
pub fn hash_blocks(bytes: &[u8], count: usize) -> [u8; 32]
    requires few { count ≤ 64 }
    requires long { 64 * count ≤ length bytes.now }
    ensures { result ≡ digest_bytes (hash_after initial_hash_256 bytes.now count) 8 }
{
    let mut state = [u32x1::splat(0); 8];
    initialize(&mut state);
    for i in 0..count {
        let start = 64 * i;
        compress_words(
            &mut state,
            load_four(bytes, start),
            load_four(bytes, start + 16),
            load_four(bytes, start + 32),
            load_four(bytes, start + 48),
        );
    }
    digest(&state, 0)
}

// The four rounds from `t` on over the padding of 64 bytes.
#[inline(always)]
fn four_padding_rounds(v: &mut [u32x1; 8], t: usize)
    requires { t + 4 ≤ 64 }
    ensures { (h : List ℕ) → state_lane 0 v.old ≡ rounds h (schedule (padding 64) 48) t
        → state_lane 0 v.new ≡ rounds h (schedule (padding 64) 48) (t + 4) }
{
    let (first, second) = (PADDING_SUMS[t], PADDING_SUMS[t + 1]);
    four_rounds(v, first, second, PADDING_SUMS[t + 2], PADDING_SUMS[t + 3]);
}

// Compresses the padding of 64 bytes into the hash value.
#[inline(always)]
fn compress_padding(state: &mut [u32x1; 8])
    ensures { state_lane 0 state.new ≡ compress (state_lane 0 state.old) (padding 64) }
{
    let mut v = *state;
    for turn in 0..8 {
        four_padding_rounds(&mut v, 8 * turn);
        four_padding_rounds(&mut v, 8 * turn + 4);
    }
    add_words(state, &v);
}

/// Returns the digest of a message of 64 bytes, from its two halves.
///
/// Requires that each has 32 bytes.
#[inline(never)]
pub fn hash_halves(first: &[u8], second: &[u8]) -> [u8; 32]
    requires first { length first.now ≡ 32 }
    requires second { length second.now ≡ 32 }
    ensures { result ≡ sha256 (first.now ++ second.now) }
{
    let mut state = [u32x1::splat(0); 8];
    initialize(&mut state);
    compress_words(
        &mut state,
        load_four(first, 0),
        load_four(first, 16),
        load_four(second, 0),
        load_four(second, 16),
    );
    compress_padding(&mut state);
    digest(&state, 0)
}

// Compresses the second block of a message of 72 bytes into the hash value: its last eight bytes, which end the digest
// `right`, and the padding of FIPS 180-4, section 5.1.1, which is a bit 1, zeros, and the length, 576 bits.
#[inline(always)]
fn compress_last_block(state: &mut [u32x1; 8], right: &[u8])
    requires { length right.now ≡ 32 }
    ensures { (m : List ℕ) → length m ≡ 72 → word_at m 64 ≡ word_at right.now 24 → word_at m 68 ≡ word_at right.now 28
        → state_lane 0 state.new ≡ compress (state_lane 0 state.old) (take 64 (drop 64 (padded_message m))) }
{
    compress_words(
        state,
        u32x4::from_array([load(right, 24), load(right, 28), 0x8000_0000, 0]),
        splat(0),
        splat(0),
        u32x4::from_array([0, 0, 0, 576]),
    );
}

/// Returns the digest of a message of 72 bytes, as that of a parent node is: a position, and the digests of two children.
///
/// Requires that the position has 8 bytes, and each digest 32.
#[inline(never)]
pub fn hash_node(position: &[u8], left: &[u8], right: &[u8]) -> [u8; 32]
    requires position { length position.now ≡ 8 }
    requires left { length left.now ≡ 32 }
    requires right { length right.now ≡ 32 }
    ensures { result ≡ sha256 (position.now ++ (left.now ++ right.now)) }
{
    let mut state = [u32x1::splat(0); 8];
    initialize(&mut state);
    compress_words(
        &mut state,
        u32x4::from_array([
            load(position, 0),
            load(position, 4),
            load(left, 0),
            load(left, 4),
        ]),
        load_four(left, 8),
        u32x4::from_array([
            load(left, 24),
            load(left, 28),
            load(right, 0),
            load(right, 4),
        ]),
        load_four(right, 8),
    );
    compress_last_block(&mut state, right);
    digest(&state, 0)
}
