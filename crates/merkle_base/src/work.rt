//! How much work a call did.
ghost use Rattle.std.specs.Prelude.{◌≡◌};
ghost use Rattle.merkle_base.specs.Work.{WorkCounts};

use std::marker::Model;

/// How much work was done by the calls that count it.
///
/// Each such call sets its own number and leaves the other. An error changes neither.
#[derive(Clone, Copy, Debug, Default, PartialEq, Eq)]
pub struct Work {
    node_digests: u64,
    probes: u64,
}

impl Model for Work {
    ghost Value = { WorkCounts };

    ghost view = { λ w. record { node_digests = w.node_digests; probes = w.probes } };

    ghost inverse = { λ w. record { node_digests = w.node_digests; probes = w.probes } };
}

impl Work {
    /// No work.
    pub fn new() -> Self
        ensures { result ≡ record { node_digests = 0; probes = 0 } }
    {
        Work {
            node_digests: 0,
            probes: 0,
        }
    }

    /// The number of digests of merged nodes that were computed. `merkleize_counted` of a batch and
    /// `first_damaged_counted` of a structure set it.
    pub fn node_digests(&self) -> u64
        ensures { result ≡ self.now.node_digests }
    {
        self.node_digests
    }

    /// The number of comparisons that the last counted look-up of a position made with the position of a leaf count.
    pub fn probes(&self) -> u64
        ensures { result ≡ self.now.probes }
    {
        self.probes
    }

    /// Sets the number of digests.
    pub fn set_node_digests(&mut self, node_digests: u64)
        ensures { self.new ≡ record { node_digests = node_digests; probes = self.old.probes } }
    {
        self.node_digests = node_digests;
    }

    /// Sets the number of comparisons.
    pub fn set_probes(&mut self, probes: u64)
        ensures { self.new ≡ record { node_digests = self.old.node_digests; probes = probes } }
    {
        self.probes = probes;
    }
}
