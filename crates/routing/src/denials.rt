//! What a denial hands back.
ghost use Rattle.std.specs.Prelude.{◌≡◌};

#[derive(Clone, Copy, Debug, PartialEq, Eq)]
pub struct Denial {
    // Which rule was broken: a number, since it is printed and other programs read it.
    pub number: u8,
    // The arc that broke it, 0 0 where none is named, as it is printed.
    pub from: u8,
    pub to: u8,
    // Where: an offset, an index or a count, as the number says.
    pub place: usize,
}

impl Denial {
    /// A denial that names no arc.
    pub fn at(number: u8, place: usize) -> Denial
        ensures { (result.number ≡ number) × (result.from ≡ 0) × (result.to ≡ 0) × (result.place ≡ place) }
    {
        Denial::on_arc(number, 0, 0, place)
    }

    pub fn on_arc(number: u8, from: u8, to: u8, place: usize) -> Denial
        ensures { (result.number ≡ number) × (result.from ≡ from) × (result.to ≡ to) × (result.place ≡ place) }
    {
        Denial {
            number,
            from,
            to,
            place,
        }
    }
}
