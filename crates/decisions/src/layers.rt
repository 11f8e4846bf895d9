//! The network that is left of another under a branch's decisions.
ghost use Rattle.std.specs.Prelude.{◌≡◌, ◌<◌, ◌↔◌, [], ◌∷◌, ◌++◌, length, nat_lt, IsOk, OnOk, OnErr};
ghost use Rattle.decisions.specs.Decisions.{forbid, under};
ghost use Rattle.decisions.specs.Branches.{kept, trimmed, backed_up};
ghost use Rattle.decisions.specs.Forks.{StaysOpen, GoesOn};
ghost use Rattle.decisions.specs.Lawful.{decided_limits};
ghost use Rattle.decisions.specs.Layers.{left_of};
ghost use Rattle.decisions.specs.Parts.{Part, PlansBelow};

use crate::decision::Decision;
use crate::decisions::Decisions;
use crate::full::Full;
use routing::cells::{Fleet, Place, Road};
use routing::networks::Network;

#[derive(Drop)]
pub struct DecisionLayer<N> {
    pub below: N,
    pub decisions: Decisions,
}

impl<N: Network> Network for DecisionLayer<N> {
    ghost meaning = { λ x. left_of N.Network.meaning x };

    ghost limits = { λ x. decided_limits (N.Network.meaning x.below) (kept x.decisions) (N.Network.limits x.below) };

    fn customers(&self) -> u8 {
        self.below.customers()
    }

    fn place(&self, i: u8) -> Option<Place> {
        self.below.place(i)
    }

    fn capacity(&self) -> u32 {
        self.below.capacity()
    }

    fn fleet(&self) -> Fleet {
        self.below.fleet()
    }

    fn arc(&self, i: u8, j: u8) -> Option<Road> {
        if self.decisions.removes(i, j) {
            return None;
        }
        self.below.arc(i, j)
    }
}

impl<N: Network> DecisionLayer<N> {
    /// The whole network, with nothing decided.
    pub fn new(below: N) -> DecisionLayer<N>
        ensures below { result.below ≡ below }
        ensures list { kept result.decisions ≡ [] }
    {
        DecisionLayer {
            below,
            decisions: Decisions::new(),
        }
    }

    pub fn into_below(self) -> N
        ensures { result ≡ self.below }
    {
        let DecisionLayer {
            below,
            decisions: _,
        } = self;
        below
    }

    /// The network below: each plan of the layer is a plan of it, at the same cost.
    pub fn below(&self) -> &N
        ensures value { result.now ≡ self.now.below }
        ensures part { Part (left_of N.Network.meaning self.now) (N.Network.meaning result.now) }
        ensures plans { PlansBelow (left_of N.Network.meaning self.now) (N.Network.meaning result.now) }
    {
        &self.below
    }

    /// Decides on an arc, which is forbidden at first, if there is room. No open plan is lost.
    pub fn fork(&mut self, from: u8, to: u8) -> Result<(), Full>
        ensures room { IsOk result ↔ (length (kept self.old.decisions) < 64) }
        ensures list { OnOk result (kept self.new.decisions ≡ kept self.old.decisions ++ (forbid from to ∷ [])) }
        ensures network { OnOk result (left_of N.Network.meaning self.new ≡ under (forbid from to) (left_of N.Network.meaning self.old)) }
        ensures full { OnErr result (self.new ≡ self.old) }
        ensures stays { self.new.below ≡ self.old.below }
        ensures plans { StaysOpen (N.Network.meaning self.old.below) (kept self.old.decisions) (kept self.new.decisions) }
    {
        self.decisions.push(Decision::forbid(from, to))
    }

    /// Goes on to the next branch, where what was ahead is open, or answers false where nothing was: that is no refusal, and
    /// there is no value to hand back.
    pub fn back_up(&mut self) -> bool
        ensures answer { result ≡ nat_lt 0 (length (trimmed (kept self.old.decisions))) }
        ensures list { kept self.new.decisions ≡ backed_up (kept self.old.decisions) }
        ensures stays { self.new.below ≡ self.old.below }
        ensures plans { GoesOn (N.Network.meaning self.old.below) (kept self.old.decisions) result (kept self.new.decisions) }
    {
        self.decisions.back_up()
    }
}
