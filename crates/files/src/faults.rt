//! Which file a fault is found in, with the fault carried whole.
ghost use Rattle.std.specs.Prelude.{◌≡◌};
ghost use Rattle.files.specs.declared.faults.FileFault.TheVariants.{Refused, Listing};
ghost use Rattle.files.specs.Faults.{refused_denial, refused_part, file_denial, file_part};

use replay::faults::ListingFault;
use routing::denials::Denial;
use texts::faults::TextFault;

#[derive(Clone, Copy, Debug, PartialEq, Eq)]
pub enum Part {
    Case,
    Plan,
    Tree,
}

/// A text that is refused.
#[derive(Clone, Copy, Debug, PartialEq, Eq)]
pub enum RefusedText {
    Case(TextFault),
    Plan(TextFault),
}

#[derive(Clone, Copy, Debug, PartialEq, Eq)]
pub enum FileFault {
    // The case text or the plan text is refused.
    Refused(RefusedText),
    // The plan's listing is denied.
    Listing(ListingFault),
}

// By hand, since a clause has to name the fault, and a derived `From` says nothing of it.
impl From<RefusedText> for FileFault {
    ghost from_gives = { λ f r. r ≡ Refused f };

    fn from(fault: RefusedText) -> FileFault {
        FileFault::Refused(fault)
    }
}

impl From<ListingFault> for FileFault {
    ghost from_gives = { λ f r. r ≡ Listing f };

    fn from(fault: ListingFault) -> FileFault {
        FileFault::Listing(fault)
    }
}

impl From<RefusedText> for Denial {
    ghost from_gives = { λ f r. r ≡ refused_denial f };

    fn from(fault: RefusedText) -> Denial {
        match fault {
            RefusedText::Case(fault) => Denial::from(fault),
            RefusedText::Plan(fault) => Denial::from(fault),
        }
    }
}

// The number, arc and place that are handed back.
impl From<FileFault> for Denial {
    ghost from_gives = { λ f r. r ≡ file_denial f };

    fn from(fault: FileFault) -> Denial {
        match fault {
            FileFault::Refused(fault) => Denial::from(fault),
            FileFault::Listing(fault) => Denial::from(fault),
        }
    }
}

impl RefusedText {
    pub fn part(&self) -> Part
        ensures { result ≡ refused_part self.now }
    {
        match self {
            RefusedText::Case(_) => Part::Case,
            RefusedText::Plan(_) => Part::Plan,
        }
    }
}

impl FileFault {
    pub fn part(&self) -> Part
        ensures { result ≡ file_part self.now }
    {
        match self {
            FileFault::Refused(fault) => fault.part(),
            FileFault::Listing(_) => Part::Plan,
        }
    }
}
