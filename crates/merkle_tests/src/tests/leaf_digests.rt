//! Checks by the digests of leaves in place of elements.
//!
//! The list is of the elements 01, 02 and 04 in a Mountain Range.

use super::audits::{SHA256, proof, sha256};
use super::digest;
use merkle_core::digest::{Sha256Plain, Xor8};
use merkle_core::family::Bagging;
use merkle_core::hasher::Standard;
use merkle_core::mmr::Location;

#[test]
fn by_sha256(rt: HostRuntime) {
    let hasher = Standard::<Sha256Plain>::new(Bagging::ForwardFold);
    let [one, two, over, three, root] = SHA256;
    let (one, two, over) = (sha256(&rt, one), sha256(&rt, two), sha256(&rt, over));
    let (three, root) = (sha256(&rt, three), sha256(&rt, root));
    let (first, last) = (Location::new(0), Location::new(2));

    let leaf = proof(&rt, &[three, two]);
    let said = leaf.verify_leaf_digest_inclusion(&hasher, &one, first, &root);
    assert!(rt; matches!(&said, Ok(true)));
    let said = leaf.verify_leaf_digest_inclusion(&hasher, &two, first, &root);
    assert!(rt; matches!(&said, Ok(false)));

    let oldest = proof(&rt, &[three]);
    let said = oldest.verify_leaf_digests_inclusion(&hasher, &[one, two], first, &root);
    assert!(rt; matches!(&said, Ok(true)));
    let said = oldest.verify_leaf_digests_inclusion(&hasher, &[two, one], first, &root);
    assert!(rt; matches!(&said, Ok(false)));

    let ends = proof(&rt, &[two, over, three]);
    let said = ends.verify_multi_leaf_digests_inclusion(
        &hasher,
        &[(one, first), (three, last)],
        &root,
    );
    assert!(rt; matches!(&said, Ok(true)));
    let said = ends.verify_multi_leaf_digests_inclusion(
        &hasher,
        &[(two, first), (three, last)],
        &root,
    );
    assert!(rt; matches!(&said, Ok(false)));

    let newest = proof(&rt, &[over]);
    let said = newest.verify_leaf_digests_and_pinned_nodes(&hasher, &[three], last, &[over], &root);
    assert!(rt; matches!(&said, Ok(true)));
    let said = newest.verify_leaf_digests_and_pinned_nodes(&hasher, &[two], last, &[over], &root);
    assert!(rt; matches!(&said, Ok(false)));
}

// The digests of the leaves are 01, 03 and 07, the node over the first two has 00, and the root is 04.
#[test]
fn by_xor8(rt: HostRuntime) {
    let hasher = Standard::<Xor8>::new(Bagging::ForwardFold);
    let (one, two, three) = (digest(&rt, 1), digest(&rt, 3), digest(&rt, 7));
    let (over, root) = (digest(&rt, 0), digest(&rt, 4));
    let (first, last) = (Location::new(0), Location::new(2));

    let leaf = proof(&rt, &[three, two]);
    let said = leaf.verify_leaf_digest_inclusion(&hasher, &one, first, &root);
    assert!(rt; matches!(&said, Ok(true)));
    let said = leaf.verify_leaf_digest_inclusion(&hasher, &two, first, &root);
    assert!(rt; matches!(&said, Ok(false)));

    let oldest = proof(&rt, &[three]);
    let said = oldest.verify_leaf_digests_inclusion(&hasher, &[one, two], first, &root);
    assert!(rt; matches!(&said, Ok(true)));
    let said = oldest.verify_leaf_digests_inclusion(&hasher, &[one, three], first, &root);
    assert!(rt; matches!(&said, Ok(false)));

    let ends = proof(&rt, &[two, over, three]);
    let said = ends.verify_multi_leaf_digests_inclusion(
        &hasher,
        &[(one, first), (three, last)],
        &root,
    );
    assert!(rt; matches!(&said, Ok(true)));
    let said = ends.verify_multi_leaf_digests_inclusion(
        &hasher,
        &[(two, first), (three, last)],
        &root,
    );
    assert!(rt; matches!(&said, Ok(false)));

    let newest = proof(&rt, &[over]);
    let said = newest.verify_leaf_digests_and_pinned_nodes(&hasher, &[three], last, &[over], &root);
    assert!(rt; matches!(&said, Ok(true)));
    let said = newest.verify_leaf_digests_and_pinned_nodes(&hasher, &[two], last, &[over], &root);
    assert!(rt; matches!(&said, Ok(false)));
}
