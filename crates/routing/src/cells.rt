//! What a case is made of: each value of these types is within its limits.
ghost use Rattle.std.specs.Prelude.{◌≡◌, ◌≤◌, MatchOption};

/// A place's load, its time window and its service; minutes for times.
#[derive(Clone, Copy)]
pub struct Place {
    pub load: u32,
    pub opening: u32,
    pub closing: u32,
    pub service: u32,
    ghost loads: { load ≤ 10000 },
    ghost opens: { opening ≤ closing },
    ghost closes: { closing ≤ 60000 },
    ghost serves: { service ≤ 60000 },
}

/// An arc's cost and travel.
#[derive(Clone, Copy, Debug, PartialEq, Eq)]
pub struct Road {
    pub cost: u32,
    pub travel: u32,
    ghost cheap: { cost ≤ 1000000 },
    ghost short: { travel ≤ 60000 },
}

/// The least and the most number of vans.
#[derive(Clone, Copy, Debug, PartialEq, Eq)]
pub struct Fleet {
    pub least: u8,
    pub most: u8,
    ghost least_few: { least ≤ 60 },
    ghost most_few: { most ≤ 60 },
}

/// How many customers there are, what a van carries, and the fleet.
#[derive(Clone, Copy)]
pub struct Head {
    pub customers: u8,
    pub capacity: u32,
    pub fleet: Fleet,
    ghost some: { 1 ≤ customers },
    ghost few: { customers ≤ 60 },
    ghost carries: { capacity ≤ 10000 },
}

impl Place {
    /// A place to fill a table with.
    pub const BLANK: Place = Place {
        load: 0,
        opening: 0,
        closing: 0,
        service: 0,
    };

    pub fn new(load: u32, opening: u32, closing: u32, service: u32) -> Option<Place>
        ensures { MatchOption result ((load ≤ 10000) × (opening ≤ closing) × (closing ≤ 60000) × (service ≤ 60000) → ⊥) (λ p. (p.load ≡ load) × (p.opening ≡ opening) × (p.closing ≡ closing) × (p.service ≡ service)) }
    {
        if load <= 10_000 && opening <= closing && closing <= 60_000 && service <= 60_000 {
            Some(Place {
                load,
                opening,
                closing,
                service,
            })
        } else {
            None
        }
    }
}

impl Road {
    pub fn new(cost: u32, travel: u32) -> Option<Road>
        ensures { MatchOption result ((cost ≤ 1000000) × (travel ≤ 60000) → ⊥) (λ a. (a.cost ≡ cost) × (a.travel ≡ travel)) }
    {
        if cost <= 1_000_000 && travel <= 60_000 {
            Some(Road { cost, travel })
        } else {
            None
        }
    }
}

impl Head {
    pub fn new(customers: u8, capacity: u32, least: u8, most: u8) -> Option<Head>
        ensures { MatchOption result ((1 ≤ customers) × (customers ≤ 60) × (capacity ≤ 10000) × (least ≤ 60) × (most ≤ 60) → ⊥) (λ h. (h.customers ≡ customers) × (h.capacity ≡ capacity) × (h.fleet.least ≡ least) × (h.fleet.most ≡ most)) }
    {
        if (1..=60).contains(&customers) && capacity <= 10_000 && least <= 60 && most <= 60 {
            Some(Head {
                customers,
                capacity,
                fleet: Fleet { least, most },
            })
        } else {
            None
        }
    }
}
