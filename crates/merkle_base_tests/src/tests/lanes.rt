use merkle_lanes::{hash, hash_four, hash_three, hash_two};
use sha2::{Digest, Sha256};
use std::process::Abort;

/// Asserts that these are the digests with these hexadecimal digits.
fn assert_digests(
    rt: &(impl Abort + AllocGlobal),
    digests: ([u8; 32], [u8; 32], [u8; 32], [u8; 32]),
    wanted: [&str; 4],
) {
    let (a, b, c, d) = digests;
    let digests = [a, b, c, d];
    for (digest, digits) in digests.iter().zip(wanted.iter()) {
        let shown = hex::encode(rt.alloc(), digest).ok().expect(rt, "memory");
        assert_eq!(rt; shown.as_str(), *digits);
    }
}

// Digests by OpenSSL.
#[test]
fn known_nodes(rt: HostRuntime) {
    let mut counted = [0u8; 72];
    for i in 0..72 {
        counted[i] = i as u8;
    }
    let text = b"123456789012345678901234567890123456789012345678901234567890123456789012";
    let digests = hash_four(&[&[0; 72]], &[&[255; 72]], &[&counted], &[text]);
    let wanted = [
        "834a709ba2534ebe3ee1397fd4f7bd288b2acc1d20a08d6c862dcd99b6f04400",
        "51cfa32fece0135f38198da2529e7c6a0c1f53747984d55705077b7f6920cc76",
        "107de2bc788e11029f7851f8e1b0b5afb4e34379c709fc840689ebd3d1f51b5b",
        "780114a775589bb3f90bfd61e92155b37933cf1b4679250f732cf91c9a17ff11",
    ];
    assert_digests(&rt, digests, wanted);
}

// The empty message, the messages of FIPS 180-4 with one block and with two, and one of 72 bytes,
// by OpenSSL, in hexadecimal digits.
const EMPTY: &str = "e3b0c44298fc1c149afbf4c8996fb92427ae41e4649b934ca495991b7852b855";

const ABC: &str = "ba7816bf8f01cfea414140de5dae2223b00361a396177a9cb410ff61f20015ad";

const TWO_BLOCKS: &str = "248d6a61d20638b8e5c026930c3e6039a33ce45964ff2167f6ecedd419db06c1";

const ZEROS: &str = "834a709ba2534ebe3ee1397fd4f7bd288b2acc1d20a08d6c862dcd99b6f04400";

// Two messages of one block and two of two, each in each place.
#[test]
fn standard_messages(rt: HostRuntime) {
    let none: &[&[u8]] = &[];
    let abc: &[&[u8]] = &[b"a", b"", b"bc"];
    let two: &[&[u8]] = &[b"abcdbcdecdefdefgefghfghighijhijkijkljklmklmnlmnomnopnopq"];
    let zeros: &[&[u8]] = &[&[0; 70], &[0; 2]];
    assert_digests(
        &rt,
        hash_four(none, abc, two, zeros),
        [EMPTY, ABC, TWO_BLOCKS, ZEROS],
    );
    assert_digests(
        &rt,
        hash_four(abc, two, zeros, none),
        [ABC, TWO_BLOCKS, ZEROS, EMPTY],
    );
    assert_digests(
        &rt,
        hash_four(two, zeros, none, abc),
        [TWO_BLOCKS, ZEROS, EMPTY, ABC],
    );
    assert_digests(
        &rt,
        hash_four(zeros, none, abc, two),
        [ZEROS, EMPTY, ABC, TWO_BLOCKS],
    );
}

// Two and three messages that are no nodes.
#[test]
fn two_and_three_standard_messages(rt: HostRuntime) {
    let abc: &[&[u8]] = &[b"a", b"", b"bc"];
    let zeros: &[&[u8]] = &[&[0; 8], &[0; 33], &[0; 31]];
    let (first, second) = hash_two(abc, zeros);
    let digests = (first, second, second, first);
    assert_digests(&rt, digests, [ABC, ZEROS, ZEROS, ABC]);
    let (first, second, third) = hash_three(zeros, &[], abc);
    let digests = (first, second, third, first);
    assert_digests(&rt, digests, [ZEROS, EMPTY, ABC, ZEROS]);
}

// Four messages with equal numbers of blocks, which are hashed together: four of one block, and four of two.
#[test]
fn standard_messages_together(rt: HostRuntime) {
    let none: &[&[u8]] = &[&[]];
    let nothing: &[&[u8]] = &[];
    let abc: &[&[u8]] = &[b"abc"];
    let letters: &[&[u8]] = &[b"a", b"b", b"c"];
    assert_digests(
        &rt,
        hash_four(none, abc, letters, nothing),
        [EMPTY, ABC, ABC, EMPTY],
    );
    assert_digests(
        &rt,
        hash_four(abc, none, nothing, letters),
        [ABC, EMPTY, EMPTY, ABC],
    );
    let two: &[&[u8]] = &[
        b"abcdbcdecdefdefgefghfghighij",
        b"hijkijkljklmklmnlmnomnopnopq",
    ];
    let whole: &[&[u8]] = &[b"abcdbcdecdefdefgefghfghighijhijkijkljklmklmnlmnomnopnopq"];
    let zeros: &[&[u8]] = &[&[0; 72]];
    let halves: &[&[u8]] = &[&[0; 36], &[0; 36]];
    assert_digests(
        &rt,
        hash_four(two, zeros, halves, whole),
        [TWO_BLOCKS, ZEROS, ZEROS, TWO_BLOCKS],
    );
    assert_digests(
        &rt,
        hash_four(zeros, two, whole, halves),
        [ZEROS, TWO_BLOCKS, TWO_BLOCKS, ZEROS],
    );
}

/// Fills the bytes by a linear congruential generator.
fn fill(seed: &mut u64, bytes: &mut [u8]) {
    for byte in bytes {
        *seed = seed
            .wrapping_mul(6_364_136_223_846_793_005)
            .wrapping_add(1_442_695_040_888_963_407);
        *byte = (*seed >> 56) as u8;
    }
}

/// Asserts that four messages, each given in other parts, have the digests that `sha2` gives them.
fn assert_as_sha2(rt: &impl Abort, a: &[u8], b: &[u8], c: &[u8], d: &[u8]) {
    let wanted = (
        Sha256::digest(a),
        Sha256::digest(b),
        Sha256::digest(c),
        Sha256::digest(d),
    );
    let (b_first, b_last) = b.split_at(b.len() / 2);
    let (d_first, d_last) = d.split_at(d.len() / 3);
    let digests = hash_four(
        &[a],
        &[b_first, b_last],
        &[&[], c, &[]],
        &[d_first, &[], d_last],
    );
    assert!(rt; digests == wanted);
    assert!(rt; hash(&[a]) == wanted.0);
    assert!(rt; hash(&[d_first, &[], d_last]) == wanted.3);
}

#[test]
fn nodes_as_sha2(rt: HostRuntime) {
    let mut seed = 1;
    let mut nodes = [[0u8; 72]; 4];
    for _ in 0..1000 {
        for node in &mut nodes {
            fill(&mut seed, node);
        }
        assert_as_sha2(&rt, &nodes[0], &nodes[1], &nodes[2], &nodes[3]);
    }
}

/// A node in the parts in which the hasher gives them: a position, and the digests of two children.
fn parts(node: &[u8; 72]) -> [&[u8]; 3] {
    [&node[..8], &node[8..40], &node[40..]]
}

#[test]
fn nodes_in_parts_as_sha2(rt: HostRuntime) {
    let mut seed = 3;
    let mut nodes = [[0u8; 72]; 4];
    for _ in 0..100 {
        for node in &mut nodes {
            fill(&mut seed, node);
        }
        let [a, b, c, d] = &nodes;
        let wanted = (
            Sha256::digest(a),
            Sha256::digest(b),
            Sha256::digest(c),
            Sha256::digest(d),
        );
        let (a, b, c, d) = (parts(a), parts(b), parts(c), parts(d));
        assert!(rt; hash_four(&a, &b, &c, &d) == wanted);
        assert!(rt; hash_two(&a, &b) == (wanted.0, wanted.1));
        assert!(rt; hash_three(&a, &b, &c) == (wanted.0, wanted.1, wanted.2));
    }
}

// Single nodes in parts, and two digests that are folded, with one byte less and more in the second.
#[test]
fn nodes_and_folds_as_sha2(rt: HostRuntime) {
    let mut seed = 6;
    let mut node = [0u8; 73];
    for _ in 0..1000 {
        fill(&mut seed, &mut node);
        for end in 71..74 {
            assert!(rt;
                hash(&[&node[..8], &node[8..40], &node[40..end]]) == Sha256::digest(&node[..end])
            );
        }
        for end in 63..66 {
            assert!(rt; hash(&[&node[..32], &node[32..end]]) == Sha256::digest(&node[..end]));
        }
    }
}

/// A leaf in the parts in which the hasher gives them: a position, and an element.
fn leaf_parts(leaf: &[u8]) -> [&[u8]; 2] {
    let (position, element) = leaf.split_at(leaf.len().min(8));
    [position, element]
}

// Leaves in parts: all with 32 bytes, and the last with one less and one more.
#[test]
fn leaves_in_parts_as_sha2(rt: HostRuntime) {
    let mut seed = 4;
    let mut leaves = [[0u8; 40]; 3];
    let mut last = [0u8; 41];
    for _ in 0..100 {
        for leaf in &mut leaves {
            fill(&mut seed, leaf);
        }
        fill(&mut seed, &mut last);
        let [a, b, c] = &leaves;
        for end in 39..42 {
            let d = &last[..end];
            let digests = hash_four(
                &leaf_parts(a),
                &leaf_parts(b),
                &leaf_parts(c),
                &leaf_parts(d),
            );
            let wanted = (
                Sha256::digest(a),
                Sha256::digest(b),
                Sha256::digest(c),
                Sha256::digest(d),
            );
            assert!(rt; digests == wanted);
        }
    }
}

/// The first bytes of a message.
fn first<'a>(rt: &impl Abort, message: &'a [u8], length: usize) -> &'a [u8] {
    message.get(..length).expect(rt, "bytes of each length")
}

/// Asserts that the first bytes of four messages, as many as these lengths say, have the digests that `sha2` gives them.
fn assert_lengths_as_sha2(rt: &impl Abort, messages: [&[u8]; 4], lengths: [usize; 4]) {
    let [a, b, c, d] = messages;
    assert_as_sha2(
        rt,
        first(rt, a, lengths[0]),
        first(rt, b, lengths[1]),
        first(rt, c, lengths[2]),
        first(rt, d, lengths[3]),
    );
}

// Each length up to past the two blocks: alike, one more from lane to lane, and far apart.
#[test]
fn lengths_as_sha2(rt: HostRuntime) {
    let mut seed = 2;
    let mut messages = [[0u8; 134]; 4];
    for message in &mut messages {
        fill(&mut seed, message);
    }
    let [a, b, c, d] = &messages;
    for n in 0..131 {
        assert_lengths_as_sha2(&rt, [a, b, c, d], [n, n, n, n]);
        assert_lengths_as_sha2(&rt, [a, b, c, d], [n, n + 1, n + 2, n + 3]);
        assert_lengths_as_sha2(&rt, [a, b, c, d], [130 - n, n, n / 2, 0]);
    }
}

// Each length up to past the 16 blocks, beside others: one more, far apart, and one block.
#[test]
fn long_lengths_as_sha2(rt: HostRuntime) {
    let mut seed = 5;
    let mut messages = [[0u8; 1030]; 4];
    for message in &mut messages {
        fill(&mut seed, message);
    }
    let [a, b, c, d] = &messages;
    for n in 0..1029 {
        assert_lengths_as_sha2(&rt, [a, b, c, d], [n, n + 1, n, n / 2]);
        assert_lengths_as_sha2(&rt, [a, b, c, d], [n / 6, 1028 - n, n / 3, n]);
    }
}
