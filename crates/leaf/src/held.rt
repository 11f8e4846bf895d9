//! A leaf as it was read.
ghost use Rattle.std.specs.Prelude.{◌≤◌, unsigned_abs};
ghost use Rattle.std.specs.List.{All};

use crate::potentials::Potential;

#[derive(Clone, Copy)]
pub struct Held<'a> {
    pub bytes: &'a [u8],
    pub scale: u16,
    // The van price.
    pub price: i64,
    // A dual for each customer.
    pub duals: &'a [i64],
    // In the record's order, each with the offset of its corner, which is read again where it is compared:
    // a local array of a measure's own state cannot be lent as a slice, since the trait does not bound the state's size.
    pub entries: &'a [Potential<usize>],
    ghost scale_small: { scale ≤ 1000 },
    ghost price_small: { unsigned_abs price ≤ 1000000000000000 },
    ghost duals_small: { All (λ p. unsigned_abs p ≤ 1000000000000) duals.now },
    ghost values_small: { All (λ e. unsigned_abs e.value ≤ 1000000000000000) entries.now },
}
