//! A branching decision: an arc is forbidden, or forced.
ghost use Rattle.std.specs.Prelude.{◌≡◌};
ghost use Rattle.decisions.specs.Decisions.{removes, second, turned, forbid};

#[derive(Clone, Copy, Debug, PartialEq, Eq, Default)]
pub enum Side {
    // The arc is forbidden.
    #[default]
    First,
    // The arc is forced.
    Second,
}

/// The default is there for the library's vector, which fills its room with it.
#[derive(Clone, Copy, Debug, PartialEq, Eq, Default)]
pub struct Decision {
    pub from: u8,
    pub to: u8,
    pub side: Side,
}

impl Decision {
    /// The first side of the fork on an arc.
    pub fn forbid(from: u8, to: u8) -> Decision
        ensures { result ≡ forbid from to }
    {
        Decision {
            from,
            to,
            side: Side::First,
        }
    }

    pub fn is_second(&self) -> bool
        ensures { result ≡ second self.now }
    {
        self.side == Side::Second
    }

    /// Goes over to the second side.
    pub fn turn(&mut self)
        ensures { self.new ≡ turned self.old }
    {
        self.side = Side::Second;
    }

    /// Whether the arc from i to j is gone under the decision.
    pub fn removes(&self, i: u8, j: u8) -> bool
        ensures { result ≡ removes self.now i j }
    {
        let leaves = i == self.from;
        let enters = j == self.to;
        // Most arcs share no end with a decision, whichever its side.
        if !leaves && !enters {
            return false;
        }
        match self.side {
            Side::First => leaves && enters,
            Side::Second => (leaves && i != 0 && !enters) || (enters && j != 0 && !leaves),
        }
    }
}
