//! The drives from a place, each with its road and the move that a measure sees.
ghost use Rattle.std.specs.Prelude.{◌≡◌, ◌+◌, ◌≤◌, length, take};
ghost use Rattle.leaf.specs.Answer.{drive, drives};

use measures::moves::Move;
use routing::cells::Road;
use routing::networks::Network;

// The places of a network: the depot and at most 60 customers.
pub(crate) const PLACES: usize = 61;

#[derive(Clone, Copy)]
pub struct Drive {
    pub road: Road,
    pub by: Move,
}

// The drive along an arc, where there is one.
fn drive_to<N: Network>(network: &N, from: u8, to: u8) -> Option<Drive>
    ensures { result ≡ drive (N.Network.meaning network.now) from to }
{
    let road = network.arc(from, to)?;
    let left = network.place(from)?;
    let reached = network.place(to)?;
    Some(Drive {
        road,
        by: Move {
            to,
            opening: reached.opening,
            closing: reached.closing,
            load: reached.load,
            service: if from == 0 { 0 } else { left.service },
            travel: road.travel,
            capacity: network.capacity(),
        },
    })
}

// Fills a row with the drives from a place to every place, home first.
fn fill_drives<N: Network>(network: &N, from: u8, row: &mut [Option<Drive>])
    requires { length row.old ≡ (N.Network.meaning network.now).customers + 1 }
    ensures { row.new ≡ drives (N.Network.meaning network.now) from }
{
    for (to, drive) in row.iter_mut().enumerate() {
        *drive = drive_to(network, from, to as u8);
    }
}

// The same at the head of a row with room for every place.
fn fill_row<N: Network>(network: &N, from: u8, row: &mut [Option<Drive>; PLACES])
    ensures { take ((N.Network.meaning network.now).customers + 1) row.new ≡ drives (N.Network.meaning network.now) from }
{
    fill_drives(network, from, &mut row[..network.customers() as usize + 1]);
}

/// The drives from one place to every place.
#[derive(Drop)]
pub struct Drives<'n, N: Network> {
    pub network: &'n N,
    pub from: u8,
    // Home first; what stands past the last customer is blank.
    pub row: [Option<Drive>; PLACES],
    ghost all: { take ((N.Network.meaning network.now).customers + 1) row ≡ drives (N.Network.meaning network.now) from },
}

impl<'n, N: Network> Drives<'n, N> {
    // The drives from a place.
    pub(crate) fn leaving(network: &'n N, from: u8) -> Drives<'n, N>
        ensures there { result.from ≡ from }
        ensures same { result.network.now ≡ network.now }
    {
        let mut row = [None; PLACES];
        fill_row(network, from, &mut row);
        Drives { network, from, row }
    }

    // Turns to another place, whose drives are asked for only where the place changes.
    pub(crate) fn turn_to(&mut self, place: u8)
        ensures there { self.new.from ≡ place }
        ensures same { self.new.network.now ≡ self.old.network.now }
    {
        if place != self.from {
            fill_row(self.network, place, &mut self.row);
            self.from = place;
        }
    }

    // The drive to a place, where there is one.
    pub(crate) fn to(&self, place: u8) -> Option<Drive>
        requires { place ≤ (N.Network.meaning self.now.network.now).customers }
        ensures { result ≡ drive (N.Network.meaning self.now.network.now) self.now.from place }
    {
        self.row[place as usize]
    }
}
