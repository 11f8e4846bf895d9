//! The calls of a check.
ghost use Rattle.std.specs.Prelude.{◌≡◌};
ghost use Rattle.checking.specs.Calls.{opening, present, fork, standing};
ghost use Rattle.checking.specs.States.{network_of, state_of, Does};

use crate::calls::Standing;
use crate::checks::Check;
use crate::faults::CheckFault;
use crate::progress::Progress;
use decisions::layers::DecisionLayer;
use replay::pricing::price;
use replay::vans::Priced;
use routing::networks::Network;

impl<N: Network> Check<N> {
    /// A check with no decision, no plan, unfinished.
    pub fn new(network: N) -> Check<N>
        ensures network { network_of result ≡ network }
        ensures state { state_of result ≡ opening }
    {
        Check {
            layer: DecisionLayer::new(network),
            progress: Progress::NoPlan,
        }
    }

    /// Prices a listing on the network below the decisions and holds its cost, if no plan at most that dear is held.
    pub fn present(&mut self, listing: &[u8]) -> Result<Priced, CheckFault>
        ensures { Does self.old (present (N.Network.meaning (network_of self.old)) (state_of self.old) listing.now) self.new result }
    {
        let priced = price(&self.layer.below, listing)?;
        if self.progress.held().is_some_and(|held| held <= priced.cost) {
            return Err(CheckFault::NotCheaper { cost: priced.cost });
        }
        self.progress.hold(priced.cost);
        Ok(priced)
    }

    /// Branches on an arc: the record has the letter A and its two places.
    pub fn fork(&mut self, bytes: &[u8]) -> Result<(), CheckFault>
        ensures { Does self.old (fork (N.Network.meaning (network_of self.old)) (state_of self.old) bytes.now) self.new result }
    {
        let [b'A', i, j] = *bytes else {
            return Err(CheckFault::NotFork);
        };
        if self.progress.is_finished() {
            return Err(CheckFault::Finished);
        }
        let customers = self.layer.below.customers();
        if i > customers || j > customers || i == j {
            return Err(CheckFault::NoSuchArc);
        }
        self.layer.fork(i, j)?;
        Ok(())
    }

    /// How far the tree has come.
    pub fn ask(&self) -> Standing
        ensures { result ≡ standing (state_of self.now) }
    {
        match self.progress {
            Progress::Finished { cost } => Standing::Proved { cost },
            _ => Standing::Open {
                decisions: self.layer.decisions.len(),
            },
        }
    }

    /// Takes the check apart: the network, and how far the tree has come.
    pub fn end(self) -> (N, Standing)
        ensures network { result.0 ≡ network_of self }
        ensures answer { result.1 ≡ standing (state_of self) }
    {
        let standing = self.ask();
        let Check { layer, progress: _ } = self;
        (layer.into_below(), standing)
    }
}
