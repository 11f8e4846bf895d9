//! The head of a tree file, read with its directory.
ghost use Rattle.std.specs.Prelude.{◌≡◌};
ghost use Rattle.trees.specs.Tree.{head_answer, tree_answer};
ghost use Rattle.trees.specs.Files.{ReadsTree};

use crate::faults::TreeFault;
pub use crate::kind::Kind;
use crate::numbers::short_at;
use crate::pairs::judge_pairs;

#[derive(Clone, Copy, Debug, PartialEq, Eq)]
pub struct TreeHead {
    pub kind: Kind,
    pub count: u16,
}

// The mark, the kind, the number of customers and the count of records.
fn read_head(bytes: &[u8], customers: u8) -> Result<TreeHead, TreeFault>
    ensures { result ≡ head_answer bytes.now customers }
{
    if bytes.len() < 8 || !bytes.starts_with(b"VRPC") {
        return Err(TreeFault::Mark);
    }
    let Ok(kind) = Kind::try_from(bytes[4]) else {
        return Err(TreeFault::Head { at: 4 });
    };
    if bytes[5] != customers {
        return Err(TreeFault::Head { at: 5 });
    }
    let count = short_at(bytes, 6);
    if count == 0 || count > 2_000 {
        return Err(TreeFault::Head { at: 6 });
    }
    Ok(TreeHead { kind, count })
}

// The head, then the directory pair by pair.
fn judge_tree(bytes: &[u8], customers: u8) -> Result<TreeHead, TreeFault>
    ensures { result ≡ tree_answer bytes.now customers }
{
    let head = read_head(bytes, customers)?;
    judge_pairs(bytes, head.count)?;
    Ok(head)
}

/// Grants a file whose directory is that of records which fill it, and answers its head.
pub fn read_tree(bytes: &[u8], customers: u8) -> Result<TreeHead, TreeFault>
    ensures value { result ≡ tree_answer bytes.now customers }
    ensures files { ReadsTree bytes.now customers result }
{
    judge_tree(bytes, customers)
}
