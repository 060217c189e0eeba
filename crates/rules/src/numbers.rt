// Tests on the pivots and child numbers of a node.
ghost use Rattle.std.specs.Prelude.{◌≡◌};
ghost use Rattle.rules.specs.Keys.{rising, numbers_below};

use messages::span::Span;

// Whether keys rise strictly, inside the span.
pub fn are_rising(keys: &[u32], span: Span) -> bool
    ensures { result ≡ rising span.low span.high keys.now }
{
    let mut next = u64::from(span.low);
    for k in keys {
        let key = u64::from(*k);
        if !(next..span.high).contains(&key) {
            return false;
        }
        next = key + 1;
    }
    true
}

// Whether each of the children's block numbers is at least 1 and below the next free number.
pub fn are_taken(numbers: &[u32], next_free: u32) -> bool
    ensures { result ≡ numbers_below next_free numbers.now }
{
    numbers.iter().all(|number| (1..next_free).contains(number))
}
