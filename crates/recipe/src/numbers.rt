// What a sorting recipe holds.
ghost use Rattle.std.specs.Prelude.{◌≡◌};
ghost use Rattle.recipe.specs.Limits.{count_in_range};

use crate::draft::Sorting;

// The greatest number of limits; there is one channel more.
pub const MOST_LIMITS: usize = 6;

// The limits between the channels, held in place: the first `count` are used, P1 first, and the rest are 0.
// No `Vec`, since there is no heap, and no `ArrayVec` of the kit: that is not `Copy`, and recipes are copied. Plain, so
// that it can be written down; what a recipe asks of its limits is a fact of the recipe's type. It has no model: with
// one, a caller who passes a recipe by value could not use it again.
#[derive(Clone, Copy)]
pub struct Limits {
    pub places: [u32; MOST_LIMITS],
    pub count: usize,
}

impl Limits {
    ghost use Rattle.std.specs.Prelude.{◌≡◌, ◌≤◌, length, IfSome};
    ghost use Rattle.std.specs.Option.{option_map};
    ghost use Rattle.recipe.specs.Limits.{most_limits, limits_checked};
    ghost use Rattle.recipe.specs.Sorts.{HeldInPlace, limits_in_use};

    // These limits, or none where there are not from one to six.
    pub fn new(limits: &[u32]) -> Option<Limits>
        ensures value { option_map limits_in_use result ≡ limits_checked limits.now }
        ensures held { IfSome result (HeldInPlace limits.now) }
    {
        if !count_in_range(limits) {
            return None;
        }
        let mut places = [0; MOST_LIMITS];
        places[..limits.len()].copy_from_slice(limits);
        Some(Limits {
            places,
            count: limits.len(),
        })
    }

    // The limits, P1 first.
    pub fn as_slice(&self) -> &[u32]
        ensures value { result.now ≡ limits_in_use self.now }
        ensures few { length result.now ≤ most_limits }
    {
        &self.places[..self.count.min(MOST_LIMITS)]
    }
}

fn count_in_range(limits: &[u32]) -> bool
    ensures { result ≡ count_in_range limits.now }
{
    (1..=MOST_LIMITS).contains(&limits.len())
}

// A recipe holds its limits in place.
pub type SortNumbers = Sorting<Limits>;
