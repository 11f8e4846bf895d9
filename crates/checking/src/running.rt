//! A log: a check made over a network, fed with calls, each answered.
ghost use Rattle.checking.specs.Logs.{Logged};

use crate::calls::{Answer, Call};
use crate::checks::Check;
use measures::measure::Measure;
use routing::networks::Network;

/// Makes a check over a network, feeds it the calls in turn, and gives back the network, with the answers in the front of
/// the list that is lent. Where that list is shorter than the calls, which is the one reason to fail, nothing is done.
pub fn run_log<N: Network, M: Measure>(
    network: N,
    measure: &M,
    calls: &[Call<'_>],
    answers: &mut [Answer],
) -> Result<N, N>
    ensures { Logged (M.Measure.meaning measure.now) (N.Network.meaning network) network calls.now answers.old answers.new result }
{
    if answers.len() < calls.len() {
        return Err(network);
    }
    let mut check = Check::new(network);
    // By index, since no proof knows what is written through a zip of `iter_mut`.
    for (k, call) in calls.iter().enumerate() {
        answers[k] = check.take(measure, *call);
    }
    let (network, _) = check.end();
    Ok(network)
}
