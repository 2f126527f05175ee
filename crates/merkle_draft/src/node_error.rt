//! Why a node of a batch was not computed.
ghost use Rattle.std.specs.Prelude.{◌≡◌};

use merkle_base::error::Error;
use merkle_base::position::Position;
use std::alloc::{AllocError, AllocFailed};

/// Why a node of a batch was not computed.
#[derive(Debug, Drop)]
pub enum NodeError<F> {
    /// The node at the position is needed, and neither the kept records nor the base hold it.
    Missing(Position<F>),
    /// A memory request was refused.
    OutOfMemory,
}

impl<F> From<AllocError> for NodeError<F> {
    ghost use Rattle.std.specs.Prelude.{◌≡◌};
    ghost use Rattle.merkle_draft.specs.declared.node_error.NodeError.TheVariants.{OutOfMemory};

    ghost from_gives = { λ _ e. e ≡ OutOfMemory };

    fn from(_error: AllocError) -> Self {
        NodeError::OutOfMemory
    }
}

impl<F, T: Drop> From<AllocFailed<T>> for NodeError<F> {
    ghost use Rattle.std.specs.Prelude.{◌≡◌};
    ghost use Rattle.merkle_draft.specs.declared.node_error.NodeError.TheVariants.{OutOfMemory};

    ghost from_gives = { λ _ e. e ≡ OutOfMemory };

    fn from(_error: AllocFailed<T>) -> Self {
        NodeError::OutOfMemory
    }
}

impl<F> From<NodeError<F>> for Error<F> {
    ghost use Rattle.std.specs.Prelude.{◌≡◌};
    ghost use Rattle.merkle_draft.specs.NodeErrors.{node_error};

    ghost from_gives = { λ gap e. e ≡ node_error gap };

    fn from(gap: NodeError<F>) -> Self {
        match gap {
            NodeError::Missing(position) => Error::MissingNode(position),
            NodeError::OutOfMemory => Error::OutOfMemory,
        }
    }
}
