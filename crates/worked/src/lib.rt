//! The worked examples of the documentation, as one statement about the rules.
#![tactic(auto)]

ghost use Rattle.std.specs.Prelude.{◌≡◌, Ok};
ghost use Rattle.replay.specs.Answer.{price_answer};
ghost use Rattle.worked.specs.TwoStops.{two_stops, one_route, at_cost, Worked};

fn one_route_cost() -> u32
    ensures { result ≡ 12 }
{
    12
}

/// What the one-route plan of the two-stop case costs; its other plans and its leaf come out as the documentation says.
pub fn two_stop_cost() -> u32
    ensures value { price_answer two_stops one_route ≡ Ok (at_cost result 1) }
    ensures examples { Worked }
{
    one_route_cost()
}
