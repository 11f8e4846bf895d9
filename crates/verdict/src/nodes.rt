//! The records of a tree, taken by a check.
ghost use Rattle.std.specs.Prelude.{◌≡◌, ◌+◌, ◌<◌, ◌≤◌};
ghost use Rattle.trees.specs.Tree.{record_answer};
ghost use Rattle.checking.specs.Calls.{attempt};
ghost use Rattle.checking.specs.Logs.{request};
ghost use Rattle.checking.specs.States.{network_of, state_of};
ghost use Rattle.verdict.specs.Nodes.{record_request, node_taken, walk, Taken, Goes};

use crate::faults::{JudgeFault, NodeFault};
use checking::calls::Call;
use checking::checks::Check;
use measures::measure::Measure;
use routing::networks::Network;
use trees::faults::TreeFault;
use trees::records::{Record, record_at};

// A record as a call: a leaf by its letter, any other as a fork.
fn record_call(bytes: &[u8]) -> Call<'_>
    ensures { request result ≡ record_request bytes.now }
{
    match bytes {
        [b'L', ..] => Call::Close(bytes),
        _ => Call::Fork(bytes),
    }
}

// A record as a call, its fault with the node and the offset.
fn take_record<N: Network, M: Measure>(
    check: &mut Check<N>,
    measure: &M,
    node: usize,
    found: Record<'_>,
) -> Result<(), NodeFault>
    ensures network { network_of check.new ≡ network_of check.old }
    ensures state { Taken node found.entry.offset (state_of check.new) result (attempt (M.Measure.meaning measure.now) (N.Network.meaning (network_of check.old)) (state_of check.old) (record_request found.entry.bytes.now)) }
{
    let offset = found.offset;
    check
        .take(measure, record_call(found.bytes))
        .map_err(|fault| NodeFault {
            node,
            offset,
            fault,
        })?;
    Ok(())
}

// The record of a node, found by its pair.
fn take_node<N: Network, M: Measure>(
    check: &mut Check<N>,
    measure: &M,
    node: u16,
    tree: &[u8],
) -> Result<(), JudgeFault>
    ensures { Goes check.old check.new result (node_taken (M.Measure.meaning measure.now) (N.Network.meaning (network_of check.old)) (state_of check.old) node (record_answer tree.now node)) }
{
    let node = node as usize;
    let Some(found) = record_at(tree, node) else {
        return Err(JudgeFault::TreeRefused(TreeFault::Pair { at: 8 + 8 * node }));
    };
    Ok(take_record(check, measure, node, found)?)
}

// So many records; the first that is denied ends it.
pub(crate) fn take_nodes<N: Network, M: Measure>(
    check: &mut Check<N>,
    measure: &M,
    tree: &[u8],
    count: u16,
) -> Result<(), JudgeFault>
    ensures { Goes check.old check.new result (walk (M.Measure.meaning measure.now) (N.Network.meaning (network_of check.old)) tree.now (state_of check.old) 0 count) }
{
    for node in 0..count {
        take_node(check, measure, node, tree)?;
    }
    Ok(())
}
