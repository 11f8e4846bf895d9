//! The interface of a network: each question answers what the network means, and none changes it.
ghost use Rattle.std.specs.Prelude.{◌≡◌};
ghost use Rattle.routing.specs.Network.{Meaning, Limits};

use crate::cells::{Fleet, Place, Road};

pub trait Network {
    ghost meaning: { Self → Meaning };

    ghost limits: { (x : Self) → Limits (meaning x) };

    // How many customers there are.
    fn customers(&self) -> u8
        ensures { result ≡ (meaning self.now).customers };

    // The record of place i; the depot is place 0.
    fn place(&self, i: u8) -> Option<Place>
        ensures { result ≡ (meaning self.now).place i };

    // What a van carries.
    fn capacity(&self) -> u32
        ensures { result ≡ (meaning self.now).capacity };

    fn fleet(&self) -> Fleet
        ensures { result ≡ (meaning self.now).fleet };

    // The arc from i to j.
    fn arc(&self, i: u8, j: u8) -> Option<Road>
        ensures { result ≡ (meaning self.now).arc i j };
}
