//! The line that is printed.
ghost use Rattle.std.specs.Prelude.{◌≡◌, Some};
ghost use Rattle.files.specs.Line.{part_bytes, line_bytes, fault_line, line_of};

use crate::faults::{FileFault, Part};
use replay::vans::Priced;
use routing::denials::Denial;
use std::fmt;

impl fmt::Display for Part {
    ghost output = { λ p. Some (part_bytes p) };

    fn fmt<W: fmt::Write>(&self, f: &mut fmt::Formatter<W>) -> fmt::Result {
        match self {
            Part::Case => write!(f, "case"),
            Part::Plan => write!(f, "plan"),
            Part::Tree => write!(f, "tree"),
        }
    }
}

#[derive(Clone, Copy, Debug, PartialEq, Eq)]
pub enum Line {
    // The plan is one of the case.
    Priced(Priced),
    // No plan is cheaper.
    Optimal {
        cost: u32,
    },
    // The tree is not finished.
    Open {
        decisions: usize,
    },
    Fault {
        part: Part,
        node: usize,
        denial: Denial,
    },
}

impl fmt::Display for Line {
    ghost output = { λ l. Some (line_bytes l) };

    fn fmt<W: fmt::Write>(&self, f: &mut fmt::Formatter<W>) -> fmt::Result {
        match *self {
            Line::Priced(Priced { cost, routes }) => write!(f, "priced {cost} routes {routes}"),
            Line::Optimal { cost } => write!(f, "optimal {cost}"),
            Line::Open { decisions } => write!(f, "open {decisions}"),
            Line::Fault { part, node, denial } => {
                let Denial {
                    number,
                    from,
                    to,
                    place,
                } = denial;
                write!(
                    f,
                    "fault {number} {part} node {node} arc {from} {to} place {place}"
                )
            }
        }
    }
}

impl Line {
    /// The line of a denial, by the file and the node that it is found in.
    pub fn fault(part: Part, node: usize, denial: Denial) -> Line
        ensures { result ≡ fault_line part node denial }
    {
        Self::Fault { part, node, denial }
    }
}

/// The line of an answer; outside the tree's records the node is 0. It is a function and no `From`, which no crate above
/// could write for its own answers.
pub fn line_for(answer: Result<Priced, FileFault>) -> Line
    ensures { result ≡ line_of answer }
{
    match answer {
        Ok(priced) => Line::Priced(priced),
        Err(fault) => Line::fault(fault.part(), 0, Denial::from(fault)),
    }
}
