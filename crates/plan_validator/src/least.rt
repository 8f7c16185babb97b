//! The least place with an unmet duty, of places met in any order.

ghost use Rattle.std.specs.Prelude.{◌≡◌, None};
ghost use Rattle.plan_validator.specs.Firsts.{noted, comes_before};

/// The least place that was noted with an unmet duty. A place is a pair of numbers; the first counts more.
#[derive(Clone, Copy, Debug, Drop)]
pub struct Least {
    pub place: Option<(usize, usize)>,
}

fn comes_before(one: (usize, usize), other: (usize, usize)) -> bool
    ensures { result ≡ comes_before one other }
{
    one.0 < other.0 || (one.0 == other.0 && one.1 < other.1)
}

impl Least {
    /// Nothing is noted so far.
    pub fn new() -> Least
        ensures { result.place ≡ None }
    {
        Least { place: None }
    }

    /// Notes whether a duty at a place is met.
    pub fn note(&mut self, place: (usize, usize), met: bool)
        ensures { self.new.place ≡ noted self.old.place (place, met) }
    {
        if met {
            return;
        }
        self.place = match self.place {
            None => Some(place),
            Some(least) => Some(if comes_before(place, least) {
                place
            } else {
                least
            }),
        };
    }
}
