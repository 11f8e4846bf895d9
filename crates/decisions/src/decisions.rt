//! The decisions that a branch keeps, from the first to the last: each change as one of their list.
ghost use Rattle.std.specs.Prelude.{◌≡◌, ◌+◌, ◌-◌, ◌<◌, ◌≤◌, ◌↔◌, [], ◌∷◌, ◌++◌, length, take, ◌==◌, nat_lt, slice_set, IsOk, OnOk, OnErr};

use crate::decision::Decision;
use crate::full::Full;

/// An array with a count beside it, since the library's vector of fixed room cannot be copied.
#[derive(Clone, Copy)]
pub struct Decisions {
    entries: [Decision; 64],
    len: usize,
    ghost long: { length entries ≡ 64 },
    ghost few: { len ≤ 64 },
}

impl Decisions {
    ghost use Rattle.decisions.specs.Decisions.{removed};
    ghost use Rattle.decisions.specs.Branches.{kept, turned_last, ends_second, trimmed, backed_up};

    pub fn new() -> Decisions
        ensures { kept result ≡ [] }
    {
        Decisions {
            entries: [Decision::forbid(0, 0); 64],
            len: 0,
        }
    }

    pub fn as_slice(&self) -> &[Decision]
        ensures list { result.now ≡ kept self.now }
        ensures few { length result.now ≤ 64 }
    {
        &self.entries[..self.len]
    }

    pub fn len(&self) -> usize
        ensures value { result ≡ length (kept self.now) }
        ensures few { result ≤ 64 }
    {
        self.as_slice().len()
    }

    pub fn is_full(&self) -> bool
        ensures { result ≡ (length (kept self.now) == 64) }
    {
        self.len == 64
    }

    /// Adds a decision at the end, if there is room.
    pub fn push(&mut self, decision: Decision) -> Result<(), Full>
        ensures room { IsOk result ↔ (length (kept self.old) < 64) }
        ensures ok { OnOk result (kept self.new ≡ kept self.old ++ (decision ∷ [])) }
        ensures full { OnErr result (self.new ≡ self.old) }
    {
        if self.is_full() {
            return Err(Full);
        }
        self.put(decision);
        Ok(())
    }

    // Writes a decision after the last.
    fn put(&mut self, decision: Decision)
        requires { self.old.len < 64 }
        ensures entries { self.new.entries ≡ slice_set self.old.entries self.old.len decision }
        ensures len { self.new.len ≡ self.old.len + 1 }
    {
        self.entries[self.len] = decision;
        self.len += 1;
    }

    // The last decision, if there is one, goes over to its second side.
    pub(crate) fn turn_last(&mut self)
        ensures { kept self.new ≡ turned_last (kept self.old) }
    {
        if self.len > 0 {
            self.entries[self.len - 1].turn();
        }
    }

    // Whether there is a last decision, and on its second side.
    fn ends_second(&self) -> bool
        ensures { result ≡ ends_second (kept self.now) }
    {
        self.as_slice().last().is_some_and(|last| last.is_second())
    }

    // Drops the last decision, if there is one.
    fn pop(&mut self)
        ensures { kept self.new ≡ take (length (kept self.old) - 1) (kept self.old) }
    {
        self.len = self.len.saturating_sub(1);
    }

    // Drops decisions from the end while they are on their second side.
    fn drop_second(&mut self)
        ensures { kept self.new ≡ trimmed (kept self.old) }
    {
        while self.ends_second() {
            self.pop();
        }
    }

    // Goes on to the next branch: the last decision on its first side is turned, and those after it
    // are dropped. False where none is on its first side, and then none is left.
    pub(crate) fn back_up(&mut self) -> bool
        ensures answer { result ≡ nat_lt 0 (length (trimmed (kept self.old))) }
        ensures list { kept self.new ≡ backed_up (kept self.old) }
    {
        self.drop_second();
        self.turn_last();
        self.len > 0
    }

    // Whether some decision removes the arc from i to j.
    pub(crate) fn removes(&self, i: u8, j: u8) -> bool
        ensures { result ≡ removed (kept self.now) i j }
    {
        self.as_slice()
            .iter()
            .any(|decision| decision.removes(i, j))
    }
}
