//! Why a text is refused, and where.
ghost use Rattle.std.specs.Prelude.{◌≡◌};
ghost use Rattle.texts.specs.Faults.{fault_number, fault_place, text_denial};

use routing::denials::Denial;

#[derive(Clone, Copy, Debug, PartialEq, Eq)]
pub enum TextFault {
    // A word of another form than the one due.
    Form(usize),
    // A word or a line too many or too few.
    Count(usize),
    // A number out of its range.
    Range(usize),
    // A lent table too short for what was read.
    ShortTable,
}

impl TextFault {
    pub fn number(&self) -> u8
        ensures { result ≡ fault_number self.now }
    {
        match self {
            TextFault::Form(_) => 1,
            TextFault::Count(_) => 2,
            TextFault::Range(_) => 3,
            TextFault::ShortTable => 4,
        }
    }

    /// The offset in the text, or 0 where the fault is not the text's.
    pub fn place(&self) -> usize
        ensures { result ≡ fault_place self.now }
    {
        match self {
            TextFault::Form(at) | TextFault::Count(at) | TextFault::Range(at) => *at,
            TextFault::ShortTable => 0,
        }
    }
}

impl From<TextFault> for Denial {
    ghost from_gives = { λ f r. r ≡ text_denial f };

    fn from(fault: TextFault) -> Denial {
        Denial::at(fault.number(), fault.place())
    }
}
