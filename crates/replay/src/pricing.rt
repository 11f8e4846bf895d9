//! The price of a listing on any network.
ghost use Rattle.std.specs.Prelude.{◌≡◌};
ghost use Rattle.replay.specs.Answer.{price_answer, fleet_answer};
ghost use Rattle.replay.specs.Prices.{Prices};

use crate::drive::drive;
use crate::faults::ListingFault;
use crate::form::well_formed;
use crate::once::each_once;
use crate::vans::Priced;
use routing::cells::Fleet;
use routing::networks::Network;

// Denies a number of routes outside the fleet.
fn within_fleet(fleet: Fleet, priced: Priced) -> Result<Priced, ListingFault>
    ensures { result ≡ fleet_answer fleet priced }
{
    let routes = priced.routes;
    if routes < fleet.least as usize || routes > fleet.most as usize {
        return Err(ListingFault::FleetSize { routes });
    }
    Ok(priced)
}

/// The cost of a listing's routes and their number, or the first fault.
pub fn price<N: Network>(network: &N, listing: &[u8]) -> Result<Priced, ListingFault>
    ensures value { result ≡ price_answer (N.Network.meaning network.now) listing.now }
    ensures plans { Prices (N.Network.meaning network.now) listing.now result }
{
    let customers = network.customers();
    well_formed(customers, listing)?;
    each_once(customers, listing)?;
    let priced = drive(network, listing)?;
    within_fleet(network.fleet(), priced)
}
