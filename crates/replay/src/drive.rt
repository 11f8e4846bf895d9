//! Driving a listing's routes, arc by arc, as early as the windows allow.
ghost use Rattle.std.specs.Prelude.{◌≡◌, ◌+◌, ◌*◌, ◌≤◌, length, IfOk};
ghost use Rattle.replay.specs.Drive.{ready_van, timed, stepped, drive_answer};

use crate::faults::ListingFault;
use crate::vans::{Priced, Van};
use routing::cells::{Place, Road};
use routing::networks::Network;

// A van's limits stand in two contracts: its cost grows with the arcs driven, and its time is bound only where it is not late.
impl Van {
    // A van at the depot, ready from its opening on.
    fn at_depot(depot: Place, cost: u32, routes: usize) -> Van
        ensures { result ≡ ready_van depot cost routes }
    {
        Van {
            at: 0,
            ready: depot.opening,
            load: 0,
            cost,
            routes,
        }
    }

    // The van after an arc that is there, or why it cannot be driven.
    fn arrive(
        self,
        index: usize,
        to: u8,
        road: Road,
        place: Place,
        capacity: u32,
    ) -> Result<Van, ListingFault>
        requires { (self.ready ≤ 120000) × ((self.load ≤ 10000) × ((self.cost ≤ 120000000) × ((self.routes ≤ 120) × (capacity ≤ 10000)))) }
        ensures value { result ≡ timed capacity self index to road place }
        ensures bounds { IfOk result (λ v. (v.ready ≤ 120000) × (v.load ≤ 10000) × (v.cost ≤ self.cost + 1000000) × (v.routes ≤ self.routes + 1)) }
    {
        let from = self.at;
        let start = (self.ready + road.travel).max(place.opening);
        if start > place.closing {
            return Err(ListingFault::TooLate { from, to, index });
        }
        let load = self.load + place.load;
        if load > capacity {
            return Err(ListingFault::TooHeavy { from, to, index });
        }
        let cost = self.cost + road.cost;
        if to == 0 {
            return Ok(Van::at_depot(place, cost, self.routes + 1));
        }
        Ok(Van {
            at: to,
            ready: start + place.service,
            load,
            cost,
            routes: self.routes,
        })
    }

    // The van after the arc to its next stop, or why it cannot be driven.
    fn step<N: Network>(self, network: &N, index: usize, to: u8) -> Result<Van, ListingFault>
        requires { (self.ready ≤ 120000) × ((self.load ≤ 10000) × ((self.cost ≤ 120000000) × (self.routes ≤ 120))) }
        ensures value { result ≡ stepped (N.Network.meaning network.now) self index to }
        ensures bounds { IfOk result (λ v. (v.ready ≤ 120000) × (v.load ≤ 10000) × (v.cost ≤ self.cost + 1000000) × (v.routes ≤ self.routes + 1)) }
    {
        let from = self.at;
        let (Some(road), Some(place)) = (network.arc(from, to), network.place(to)) else {
            return Err(ListingFault::NoArc { from, to, index });
        };
        self.arrive(index, to, road, place, network.capacity())
    }
}

// What the listing's routes cost and how many they are, or the first arc that cannot be driven.
pub(crate) fn drive<N: Network>(network: &N, listing: &[u8]) -> Result<Priced, ListingFault>
    requires { length listing.now ≤ 120 }
    ensures { result ≡ drive_answer (N.Network.meaning network.now) listing.now }
{
    let depot = network.place(0).unwrap();
    let mut van = Van::at_depot(depot, 0, 0);
    for (index, to) in listing.iter().enumerate() {
        van = van.step(network, index, *to)?;
    }
    Ok(Priced {
        cost: van.cost,
        routes: van.routes,
    })
}
