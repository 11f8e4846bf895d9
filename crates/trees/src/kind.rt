//! What a tree's corners measure, as a file's byte says it.
ghost use Rattle.trees.specs.Kinds.{KindRead};

#[derive(Clone, Copy, Debug, PartialEq, Eq)]
pub enum Kind {
    Time,
    Load,
    TimeLoad,
}

/// A byte that says no kind.
#[derive(Clone, Copy, Debug, PartialEq, Eq)]
pub struct UnknownKind;

impl TryFrom<u8> for Kind {
    type Error = UnknownKind;

    ghost try_from_gives = { KindRead };

    fn try_from(byte: u8) -> Result<Kind, UnknownKind> {
        match byte {
            1 => Ok(Kind::Time),
            2 => Ok(Kind::Load),
            3 => Ok(Kind::TimeLoad),
            _ => Err(UnknownKind),
        }
    }
}
