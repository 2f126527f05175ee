//! The hashers that are measured.

use merkle_core::digest::PlainHasher;
use merkle_core::family::Bagging;
use merkle_core::hasher::Standard;

/// A hasher at each bagging.
#[derive(Drop)]
pub struct Hashers<H> {
    pub forward: H,
    pub backward: H,
}

impl<H: PlainHasher> Hashers<Standard<H>> {
    /// The standard hashers over a hash.
    pub fn standard() -> Self {
        Hashers {
            forward: Standard::new(Bagging::ForwardFold),
            backward: Standard::new(Bagging::BackwardFold),
        }
    }
}
