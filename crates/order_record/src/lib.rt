// The order record of document 02's CR 14: whether it is fit, and a place that is served.
#![tactic(auto)]

ghost use Rattle.std.specs.Prelude.{◌≡◌, ◌≤◌, ◌<◌, length, drop};
ghost use Rattle.rules.specs.Grid.{is_in};
ghost use Rattle.office.specs.Order.{unfit_order, others, served_last};
ghost use Rattle.office.specs.Structs.{places_of, packed};

use office::Order;

// The places that stand in the order record.
pub fn listed(o: &Order) -> &[u8]
    requires { o.now.len ≤ 16 }
    ensures { result.now ≡ places_of o.now }
{
    &o.places[..o.len]
}

// Whether the place stands in the order record from k on.
pub fn stands_from(o: Order, k: usize, place: usize) -> bool
    requires { (k ≤ o.len) × (o.len ≤ 16) }
    ensures { result ≡ is_in (drop k (places_of o)) place }
{
    listed(&o)[k..]
        .iter()
        .any(|&other| place == usize::from(other))
}

// Number 7 of the order record of so many grids: too long, or a place past the last grid, or one that stands again further on.
pub fn unfit(o: Order, count: usize) -> bool
    requires { count ≤ 16 }
    ensures { result ≡ unfit_order count (places_of o) }
{
    if count < o.len {
        return true;
    }
    let all = listed(&o);
    for (k, place) in all.iter().enumerate() {
        if count <= usize::from(*place) || all[k + 1..].contains(place) {
            return true;
        }
    }
    false
}

// The order record after the place was served: without it, and then it.
pub fn served_last(o: Order, place: u8) -> Order
    requires { (o.len ≤ 16) × (length (others place (places_of o)) < 16) }
    ensures { result ≡ packed (served_last place (places_of o)) }
{
    let mut after = [0u8; 16];
    let mut len = 0;
    for &other in listed(&o) {
        if other != place {
            after[len] = other;
            len += 1;
        }
    }
    after[len] = place;
    Order {
        len: len + 1,
        places: after,
    }
}
