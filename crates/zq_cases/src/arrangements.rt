//! All arrangements of numbers, one after another.
ghost use Rattle.std.specs.Prelude.{◌+◌, ◌<◌, length, IfSome};

// The last place, from this one on, of a number that is below the next.
fn last_rise(order: &[usize], from: usize) -> Option<usize>
    ensures { IfSome result (λ at. at + 1 < length order.now) }
{
    let mut behind = order.len();
    'places: while behind >= 2 && behind - 2 >= from {
        if order[behind - 2] < order[behind - 1] {
            return Some(behind - 2);
        }
        behind -= 1;
    }
    None
}

// The last place behind this one of a number above its own, or the place itself.
fn last_above(order: &[usize], at: usize) -> usize
    requires { at < length order.now }
    ensures { result < length order.now }
{
    let mut behind = order.len();
    'places: while behind > at + 1 {
        if order[at] < order[behind - 1] {
            return behind - 1;
        }
        behind -= 1;
    }
    at
}

/// Puts the numbers from a place on into their next arrangement, as lists are ordered. Answers whether
/// there is one.
pub(crate) fn next_arrangement(order: &mut [usize], from: usize) -> bool {
    match last_rise(order, from) {
        Some(at) => {
            let other = last_above(order, at);
            order.swap(at, other);
            order[at + 1..].reverse();
            return true;
        }
        None => return false,
    }
}
