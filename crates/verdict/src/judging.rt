//! The verdict on three files, and its line.
ghost use Rattle.std.specs.Prelude.{◌≡◌, ℕ, List, Ok};
ghost use Rattle.checking.specs.States.{network_of, state_of};
ghost use Rattle.files.specs.Reading.{Granted};
ghost use Rattle.verdict.specs.Judging.{walk_by, judged, FilesJudged, LineFor};
ghost use Rattle.checking.specs.Promise.{Cheapest};
ghost use Rattle.checking.specs.declared.calls.Standing.TheVariants.{Proved};
ghost use Rattle.verdict.specs.Lines.{verdict_line};
ghost use Rattle.verdict.specs.Nodes.{Goes};

use crate::faults::JudgeFault;
use crate::nodes::take_nodes;
use checking::calls::Standing;
use checking::checks::Check;
use files::held::Texts;
use files::judging::counted_bytes;
use files::lines::Line;
use measures::load::Load;
use measures::pair::Pair;
use measures::time::Time;
use routing::denials::Denial;
use routing::networks::Network;
use trees::head::{TreeHead, read_tree};
use trees::kind::Kind;

// The records, by the measure that the head names: each has a state of its own type, so no `dyn` serves.
fn take_tree<N: Network>(
    check: &mut Check<N>,
    head: TreeHead,
    tree: &[u8],
) -> Result<(), JudgeFault>
    ensures { Goes check.old check.new result (walk_by head.kind (N.Network.meaning (network_of check.old)) tree.now (state_of check.old) head.count) }
{
    match head.kind {
        Kind::Time => take_nodes(check, &Time, tree, head.count),
        Kind::Load => take_nodes(check, &Load, tree, head.count),
        Kind::TimeLoad => take_nodes(
            check,
            &Pair {
                first: Time,
                second: Load,
            },
            tree,
            head.count,
        ),
    }
}

// The verdict on a listing and a tree over any network. Where it is proved at a cost, some plan of the network costs
// exactly that, and none costs less.
pub(crate) fn judge_tree<N: Network + Drop>(
    network: N,
    listing: &[u8],
    tree: &[u8],
) -> Result<Standing, JudgeFault>
    ensures value { result ≡ judged (N.Network.meaning network) listing.now tree.now }
    ensures optimal { (c : ℕ) → result ≡ Ok (Proved c) → Cheapest (N.Network.meaning network) c }
{
    let customers = network.customers();
    let mut check = Check::new(network);
    check.present(listing)?;
    let head = read_tree(tree, customers)?;
    take_tree(&mut check, head, tree)?;
    Ok(check.ask())
}

// The verdict on a plan of its case, whatever the texts were.
fn judge_read(texts: &Texts, tree: &[u8]) -> Result<Standing, JudgeFault>
    ensures { (case plan : List ℕ) → Granted case plan texts.now → FilesJudged case plan tree.now result }
{
    judge_tree(texts.network(), texts.listing(), tree)
}

/// The verdict on a case, a plan and a tree.
pub fn judge_files(case: &[u8], plan: &[u8], tree: &[u8]) -> Result<Standing, JudgeFault>
    ensures { FilesJudged case.now plan.now tree.now result }
{
    let mut texts = Texts::blank();
    texts.fill(case, plan)?;
    judge_read(&texts, tree)
}

/// The line of a verdict.
pub fn line_for(verdict: Result<Standing, JudgeFault>) -> Line
    ensures { result ≡ verdict_line verdict }
{
    match verdict {
        Ok(Standing::Proved { cost }) => Line::Optimal { cost },
        Ok(Standing::Open { decisions }) => Line::Open { decisions },
        Err(fault) => Line::fault(fault.part(), fault.node(), Denial::from(fault)),
    }
}

/// The line to print for three files as they are found.
pub fn judge(case: &[u8], plan: &[u8], tree: &[u8]) -> Line
    ensures { LineFor case.now plan.now tree.now result }
{
    line_for(judge_files(
        counted_bytes(case),
        counted_bytes(plan),
        counted_bytes(tree),
    ))
}
