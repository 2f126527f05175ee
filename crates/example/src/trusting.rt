//! A client that trusts a root alone, and follows the log.

use crate::client::Client;
use crate::telling::{say, say_both};
use crate::{LATER, Log, LogError};
use merkle_core::granted;
use merkle_core::hasher::Hasher;
use merkle_core::mmr::{Family, Location};

/// A client that trusts the root of the log as it is.
pub(crate) fn client_of<H: Hasher<Family> + Drop>(
    log: &Log<H>,
    root: H::Digest,
) -> Client<Family, H::Digest> {
    Client {
        leaves: log.tree.leaves(),
        inactive_peaks: 0,
        root,
    }
}

/// The client accepts an entry at its place, and no other one there.
pub(crate) fn show_acceptance<H: Hasher<Family> + Drop>(
    rt: &impl Print,
    log: &Log<H>,
    client: &Client<Family, H::Digest>,
) -> Result<(), LogError> {
    let location = Location::new(1);
    let proof = granted!(log.tree.proof(&log.hasher, location, 0));
    let is_bob = client.accept(&log.hasher, &proof, b"bob", location)?;
    let is_ann = client.accept(&log.hasher, &proof, b"ann", location)?;
    say_both(
        rt,
        "the client accepts bob as entry 1",
        is_bob,
        "ann",
        is_ann,
    )
}

/// The client moves on to a newer root if it is shown the entries that follow, and the peaks over those before.
pub(crate) fn show_following<H: Hasher<Family> + Drop>(
    rt: &impl Print,
    log: &Log<H>,
    client: &mut Client<Family, H::Digest>,
    root: &H::Digest,
) -> Result<(), LogError> {
    let (start, trusted) = (client.leaves, client.root);
    let proof = granted!(
        log.tree
            .range_proof(&log.hasher, start..log.tree.leaves(), 0)
    );
    let pins = log.pins(start)?;
    let others: [&[u8]; 3] = [b"fay", b"ann", b"hal"];
    let by_others = client.follow(&log.hasher, &proof, &others, &pins, root)?;
    let by_no_pins = client.follow(&log.hasher, &proof, &LATER, &[], root)?;
    say_both(
        rt,
        "it follows other entries",
        by_others,
        "without pins",
        by_no_pins,
    )?;
    let has_stayed = client.leaves == start && client.root == trusted;
    say(rt, "it stays at 5 entries and the old root", has_stayed)?;
    let by_all = client.follow(&log.hasher, &proof, &LATER, &pins, root)?;
    let has_moved = client.leaves == log.tree.leaves() && client.root == *root;
    say_both(
        rt,
        "it follows the log",
        by_all,
        "to 8 entries and the new root",
        has_moved,
    )
}
