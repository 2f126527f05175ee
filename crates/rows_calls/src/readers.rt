//! Calls of proofs over what holds nodes.
ghost use Rattle.std.specs.Prelude.{◌≡◌, slice_get};

use crate::refusal::refused;
use crate::values::{digests, locations, range};
use crate::writing::write_granted_proof;
use merkle_core::digest::Digest;
use merkle_core::family::Family;
use merkle_core::hasher::Hasher;
use merkle_core::location::Location;
use merkle_core::position::Position;
use merkle_core::read::Readable;
use merkle_core::verification::{
    historical_range_proof, historical_root, multi_proof, range_proof,
};
use rows_text::answer::Answer;
use rows_text::refusal::Refusal;
use rows_text::words::Words;

/// A list of digests, each the node at its index, that claims any node count.
#[derive(Drop)]
struct NodeList<F: Family, D: Digest> {
    size: Position<F>,
    nodes: Vec<D>,
}

impl<F: Family, D: Digest> Readable for NodeList<F, D> {
    ghost use Rattle.std.specs.Prelude.{slice_get};

    type Family = F;

    type Digest = D;

    ghost size = { λ list. list.size };

    ghost node = { λ list p. slice_get list.nodes.items p };

    fn size(&self) -> Position<F> {
        self.size
    }

    fn get_node(&self, position: Position<F>) -> Option<D>
        ensures { result ≡ slice_get self.now.nodes.items position }
    {
        self.nodes.get(position.as_u64() as usize).copied()
    }
}

// The reader of the node count and the nodes that two words name.
fn node_list<F: Family, D: Digest>(words: &mut Words) -> NodeList<F, D> {
    NodeList {
        size: Position::new(words.number()),
        nodes: digests(words),
    }
}

/// The root of the first leaves over what holds nodes.
pub fn root_over<R: Readable, H: Hasher<R::Family, Digest = R::Digest>>(
    hasher: &H,
    reader: &R,
    words: &mut Words,
    answer: &mut Answer,
) -> Result<(), Refusal> {
    let leaves = Location::new(words.number());
    let inactive = words.count();
    words.end()?;
    match historical_root(hasher, reader, leaves, inactive) {
        Ok(root) => {
            answer.bytes(root.as_bytes());
            Ok(())
        }
        Err(error) => Err(refused(&error)),
    }
}

/// The proof of a range over what holds nodes.
pub fn range_over<R: Readable, H: Hasher<R::Family, Digest = R::Digest>>(
    hasher: &H,
    reader: &R,
    words: &mut Words,
    answer: &mut Answer,
) -> Result<(), Refusal> {
    let range = range(words);
    let inactive = words.count();
    words.end()?;
    let proof = range_proof(words.alloc(), hasher, reader, range, inactive);
    write_granted_proof(answer, proof)
}

/// The proof of a range of the first leaves over what holds nodes.
pub fn history_over<R: Readable, H: Hasher<R::Family, Digest = R::Digest>>(
    hasher: &H,
    reader: &R,
    words: &mut Words,
    answer: &mut Answer,
) -> Result<(), Refusal> {
    let leaves = Location::new(words.number());
    let range = range(words);
    let inactive = words.count();
    words.end()?;
    let proof = historical_range_proof(words.alloc(), hasher, reader, leaves, range, inactive);
    write_granted_proof(answer, proof)
}

/// The proof of leaves anywhere over what holds nodes.
pub fn multi_over<R: Readable>(
    reader: &R,
    words: &mut Words,
    answer: &mut Answer,
) -> Result<(), Refusal> {
    let inactive = words.count();
    let list = locations(words);
    words.end()?;
    write_granted_proof(answer, multi_proof(words.alloc(), reader, inactive, &list))
}

/// The proof of a range over a list of nodes.
pub fn slice_range<F: Family, H: Hasher<F>>(
    hasher: &H,
    words: &mut Words,
    answer: &mut Answer,
) -> Result<(), Refusal> {
    let reader: NodeList<F, H::Digest> = node_list(words);
    range_over(hasher, &reader, words, answer)
}

/// The proof of a range of the first leaves over a list of nodes.
pub fn slice_history<F: Family, H: Hasher<F>>(
    hasher: &H,
    words: &mut Words,
    answer: &mut Answer,
) -> Result<(), Refusal> {
    let reader: NodeList<F, H::Digest> = node_list(words);
    history_over(hasher, &reader, words, answer)
}

/// The proof of leaves anywhere over a list of nodes.
pub fn slice_multi<F: Family, D: Digest>(
    words: &mut Words,
    answer: &mut Answer,
) -> Result<(), Refusal> {
    let reader: NodeList<F, D> = node_list(words);
    multi_over(&reader, words, answer)
}
