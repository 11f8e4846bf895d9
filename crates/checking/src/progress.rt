//! The plan of a check, and how far the tree has come with it.
ghost use Rattle.std.specs.Prelude.{◌≡◌};
ghost use Rattle.checking.specs.Progress.{held_in, finished_in, held_at};

#[derive(Clone, Copy)]
pub(crate) enum Progress {
    // No plan is held.
    NoPlan,
    // A plan of this cost is held, and the tree is not finished.
    Holding { cost: u32 },
    // A plan of this cost is held, and the tree is finished.
    Finished { cost: u32 },
}

impl Progress {
    // The cost of the plan held, if any.
    pub(crate) fn held(&self) -> Option<u32>
        ensures { result ≡ held_in self.now }
    {
        match *self {
            Progress::NoPlan => None,
            Progress::Holding { cost } | Progress::Finished { cost } => Some(cost),
        }
    }

    pub(crate) fn is_finished(&self) -> bool
        ensures { result ≡ finished_in self.now }
    {
        matches!(self, Progress::Finished { .. })
    }

    // The same with a plan of this cost held.
    pub(crate) fn hold(&mut self, cost: u32)
        ensures { self.new ≡ held_at cost self.old }
    {
        *self = match *self {
            Progress::NoPlan | Progress::Holding { .. } => Progress::Holding { cost },
            Progress::Finished { .. } => Progress::Finished { cost },
        };
    }
}
