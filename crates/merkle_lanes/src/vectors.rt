//! The functions of FIPS 180-4, section 4.1.2, and a round made of them, on N words at once, in the lanes of a vector.
//!
//! Each clause says that lane j of the result is what the function gives for the words in lane j of
//! the arguments.

ghost use Rattle.std.specs.Prelude.{◌≡◌, ℕ, ◌+◌, ◌*◌, ◌/◌, ◌%◌, ◌^◌, ◌<◌, ◌≤◌, slice_index, slice_set, bit_and, bit_xor};
ghost use Rattle.std.specs.Int.{w32, rotate_right};
ghost use Rattle.sha2.specs.Sha256.{add32, ch, maj, big_sigma0, big_sigma1, small_sigma0, small_sigma1, round, window_word};
ghost use Rattle.merkle_lanes.specs.Lanes.{lane, state_lane};

use std::simd::Simd;

#[inline(always)]
pub fn splat<const N: usize>(x: u32) -> Simd<u32, N>
    ensures { (j : ℕ) → j < N → slice_index result j ≡ x }
{
    Simd::splat(x)
}

#[inline(always)]
pub fn add<const N: usize>(a: Simd<u32, N>, b: Simd<u32, N>) -> Simd<u32, N>
    ensures { (j : ℕ) → j < N → slice_index result j ≡ add32 (slice_index a.entry j) (slice_index b.entry j) }
{
    a + b
}

#[inline(always)]
fn xor<const N: usize>(a: Simd<u32, N>, b: Simd<u32, N>) -> Simd<u32, N>
    ensures { (j : ℕ) → j < N → slice_index result j ≡ bit_xor (slice_index a.entry j) (slice_index b.entry j) }
{
    a ^ b
}

#[inline(always)]
fn and<const N: usize>(a: Simd<u32, N>, b: Simd<u32, N>) -> Simd<u32, N>
    ensures { (j : ℕ) → j < N → slice_index result j ≡ bit_and (slice_index a.entry j) (slice_index b.entry j) }
{
    a & b
}

// Shifts each word to the right by `count` bits, SHR of the standard.
#[inline(always)]
fn shifted<const N: usize>(x: Simd<u32, N>, count: u32) -> Simd<u32, N>
    requires { count < 32 }
    ensures { (j : ℕ) → j < N → slice_index result j ≡ slice_index x.entry j / 2 ^ count }
{
    x >> Simd::splat(count)
}

// Rotates each word to the right by `count` bits, ROTR of the standard.
#[inline(always)]
fn rotated<const N: usize>(x: Simd<u32, N>, count: u32) -> Simd<u32, N>
    requires { (0 < count) × (count < 32) }
    ensures { (j : ℕ) → j < N → slice_index result j ≡ rotate_right w32 (slice_index x.entry j) count }
{
    (x >> Simd::splat(count)) | (x << Simd::splat(32 - count))
}

// Where a bit of `x` is 1, the bit of `y`, else that of `z`. The standard's form has one operation
// more.
#[inline(always)]
fn ch<const N: usize>(x: Simd<u32, N>, y: Simd<u32, N>, z: Simd<u32, N>) -> Simd<u32, N>
    ensures { (j : ℕ) → j < N
        → slice_index result j ≡ ch (slice_index x.entry j) (slice_index y.entry j) (slice_index z.entry j) }
{
    xor(z, and(x, xor(y, z)))
}

// Each bit is the one that most of the three words have.
#[inline(always)]
fn maj<const N: usize>(x: Simd<u32, N>, y: Simd<u32, N>, z: Simd<u32, N>) -> Simd<u32, N>
    ensures { (j : ℕ) → j < N
        → slice_index result j ≡ maj (slice_index x.entry j) (slice_index y.entry j) (slice_index z.entry j) }
{
    xor(y, and(xor(x, y), xor(y, z)))
}

// The standard rotates x by 2, 13 and 22 bits. Rotating inside one another needs fewer copies of x,
// which take time where an instruction overwrites its operand.
#[inline(always)]
fn big_sigma0<const N: usize>(x: Simd<u32, N>) -> Simd<u32, N>
    ensures { (j : ℕ) → j < N → slice_index result j ≡ big_sigma0 (slice_index x.entry j) }
{
    rotated(xor(x, rotated(xor(x, rotated(x, 9)), 11)), 2)
}

#[inline(always)]
fn big_sigma1<const N: usize>(x: Simd<u32, N>) -> Simd<u32, N>
    ensures { (j : ℕ) → j < N → slice_index result j ≡ big_sigma1 (slice_index x.entry j) }
{
    rotated(xor(x, rotated(xor(x, rotated(x, 14)), 5)), 6)
}

#[inline(always)]
pub fn small_sigma0<const N: usize>(x: Simd<u32, N>) -> Simd<u32, N>
    ensures { (j : ℕ) → j < N → slice_index result j ≡ small_sigma0 (slice_index x.entry j) }
{
    xor(rotated(xor(x, rotated(x, 11)), 7), shifted(x, 3))
}

#[inline(always)]
pub fn small_sigma1<const N: usize>(x: Simd<u32, N>) -> Simd<u32, N>
    ensures { (j : ℕ) → j < N → slice_index result j ≡ small_sigma1 (slice_index x.entry j) }
{
    xor(rotated(xor(x, rotated(x, 2)), 17), shifted(x, 10))
}

// The next word of the message schedule. `w` is a ring of the last 16 words: the next one goes to
// `place`, where the one 16 before it stands.
#[inline(always)]
pub fn next_word<const N: usize>(w: &mut [Simd<u32, N>; 16], place: usize) -> Simd<u32, N>
    requires { place < 16 }
    ensures value { (j : ℕ) → j < N → slice_index result j ≡ window_word (lane j w.old) place }
    ensures window { (j : ℕ) → j < N → lane j w.new ≡ slice_set (lane j w.old) place (slice_index result j) }
{
    let far = add(small_sigma1(w[(place + 14) % 16]), w[(place + 9) % 16]);
    let word = add(add(far, small_sigma0(w[(place + 1) % 16])), w[place]);
    w[place] = word;
    word
}

// One round over the working variables `v`, with the sum of the round's constant and its word of the schedule.
#[inline(always)]
pub fn round_of_sum<const N: usize>(v: &mut [Simd<u32, N>; 8], sum: Simd<u32, N>)
    ensures { (j : ℕ) → j < N → (k w : ℕ) → slice_index sum.entry j ≡ add32 k w
        → state_lane j v.new ≡ round (state_lane j v.old) k w }
{
    let (a, b, c, d) = (v[0], v[1], v[2], v[3]);
    let (e, f, g, h) = (v[4], v[5], v[6], v[7]);
    // The standard adds from left to right. What `e` decides, which is known last, is added last here.
    let temp1 = add(add(add(h, sum), big_sigma1(e)), ch(e, f, g));
    let temp2 = add(big_sigma0(a), maj(a, b, c));
    v[0] = add(temp1, temp2);
    v[1] = a;
    v[2] = b;
    v[3] = c;
    v[4] = add(d, temp1);
    v[5] = e;
    v[6] = f;
    v[7] = g;
}

// One round over the working variables `v`, with the round's constant and its word of the schedule.
#[inline(always)]
pub fn round<const N: usize>(v: &mut [Simd<u32, N>; 8], k: u32, word: Simd<u32, N>)
    ensures { (j : ℕ) → j < N → state_lane j v.new ≡ round (state_lane j v.old) k (slice_index word.entry j) }
{
    round_of_sum(v, add(splat(k), word));
}
