//! Closing a branch with a leaf.
ghost use Rattle.checking.specs.Calls.{close};
ghost use Rattle.checking.specs.States.{network_of, state_of, Does};

use crate::checks::Check;
use crate::faults::CheckFault;
use crate::progress::Progress;
use leaf::check::check_leaf;
use measures::measure::Measure;
use routing::networks::Network;

impl<N: Network> Check<N> {
    /// Closes the present branch with a leaf that holds there for the cost held, and goes on to the next branch.
    pub fn close<M: Measure>(&mut self, measure: &M, bytes: &[u8]) -> Result<(), CheckFault>
        ensures { Does self.old (close (M.Measure.meaning measure.now) (N.Network.meaning (network_of self.old)) (state_of self.old) bytes.now) self.new result }
    {
        let cost = match self.progress {
            Progress::NoPlan => return Err(CheckFault::NoPlan),
            Progress::Holding { cost } => cost,
            Progress::Finished { .. } => return Err(CheckFault::Finished),
        };
        check_leaf(&self.layer, measure, bytes, cost)?;
        if !self.layer.back_up() {
            self.progress = Progress::Finished { cost };
        }
        Ok(())
    }
}
