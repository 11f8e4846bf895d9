//! Any call of a check, as a log has it.
ghost use Rattle.std.specs.Prelude.{◌≡◌};
ghost use Rattle.checking.specs.Calls.{attempt};
ghost use Rattle.checking.specs.Logs.{request};
ghost use Rattle.checking.specs.States.{network_of, state_of, Does};

use crate::calls::{Answer, Call, Grant};
use crate::checks::Check;
use measures::measure::Measure;
use routing::networks::Network;

impl<N: Network> Check<N> {
    /// Any call, with its answer: calls are what a log holds, so they are values and no closures.
    pub fn take<M: Measure>(&mut self, measure: &M, call: Call<'_>) -> Answer
        ensures { Does self.old (attempt (M.Measure.meaning measure.now) (N.Network.meaning (network_of self.old)) (state_of self.old) (request call.entry)) self.new result }
    {
        match call {
            Call::Present(listing) => self.present(listing).map(Grant::Presented),
            Call::Fork(bytes) => self.fork(bytes).map(|()| Grant::Forked),
            Call::Close(bytes) => self.close(measure, bytes).map(|()| Grant::Closed),
            Call::Ask => Ok(Grant::Stands(self.ask())),
        }
    }
}
