//! Which file a fault is found in, with the fault carried whole.
ghost use Rattle.std.specs.Prelude.{◌≡◌};
ghost use Rattle.verdict.specs.declared.faults.JudgeFault.TheVariants.{Refused, NotPresented, TreeRefused, AtNode};
ghost use Rattle.verdict.specs.Faults.{node_denial, judge_denial, judge_part, judge_node};

use checking::faults::CheckFault;
use files::faults::{Part, RefusedText};
use routing::denials::Denial;
use trees::faults::TreeFault;

/// A record's fault: which record it is, where it begins in the file, and what was denied.
#[derive(Clone, Copy, Debug, PartialEq, Eq)]
pub struct NodeFault {
    pub node: usize,
    pub offset: usize,
    pub fault: CheckFault,
}

#[derive(Clone, Copy, Debug, PartialEq, Eq)]
pub enum JudgeFault {
    // The case text or the plan text is refused.
    Refused(RefusedText),
    // The plan is not granted.
    NotPresented(CheckFault),
    // The tree file's head or directory is refused.
    TreeRefused(TreeFault),
    // A record of the tree is denied.
    AtNode(NodeFault),
}

// By hand, since a clause has to name the fault, and a derived `From` says nothing of it.
impl From<RefusedText> for JudgeFault {
    ghost from_gives = { λ f r. r ≡ Refused f };

    fn from(fault: RefusedText) -> JudgeFault {
        JudgeFault::Refused(fault)
    }
}

impl From<CheckFault> for JudgeFault {
    ghost from_gives = { λ f r. r ≡ NotPresented f };

    fn from(fault: CheckFault) -> JudgeFault {
        JudgeFault::NotPresented(fault)
    }
}

impl From<TreeFault> for JudgeFault {
    ghost from_gives = { λ f r. r ≡ TreeRefused f };

    fn from(fault: TreeFault) -> JudgeFault {
        JudgeFault::TreeRefused(fault)
    }
}

impl From<NodeFault> for JudgeFault {
    ghost from_gives = { λ f r. r ≡ AtNode f };

    fn from(fault: NodeFault) -> JudgeFault {
        JudgeFault::AtNode(fault)
    }
}

// A record's offset is added to its place.
impl From<NodeFault> for Denial {
    ghost from_gives = { λ f r. r ≡ node_denial f };

    fn from(at: NodeFault) -> Denial {
        let denial = Denial::from(at.fault);
        Denial {
            place: at.offset.saturating_add(denial.place),
            ..denial
        }
    }
}

// The number, arc and place that are handed back.
impl From<JudgeFault> for Denial {
    ghost from_gives = { λ f r. r ≡ judge_denial f };

    fn from(fault: JudgeFault) -> Denial {
        match fault {
            JudgeFault::Refused(fault) => Denial::from(fault),
            JudgeFault::NotPresented(fault) => Denial::from(fault),
            JudgeFault::TreeRefused(fault) => Denial::from(fault),
            JudgeFault::AtNode(fault) => Denial::from(fault),
        }
    }
}

impl JudgeFault {
    pub fn part(&self) -> Part
        ensures { result ≡ judge_part self.now }
    {
        match self {
            JudgeFault::Refused(fault) => fault.part(),
            JudgeFault::NotPresented(_) => Part::Plan,
            JudgeFault::TreeRefused(_) => Part::Tree,
            JudgeFault::AtNode(_) => Part::Tree,
        }
    }

    /// The number of the record; 0 outside the records, as it is printed.
    pub fn node(&self) -> usize
        ensures { result ≡ judge_node self.now }
    {
        match self {
            JudgeFault::AtNode(at) => at.node,
            _ => 0,
        }
    }
}
