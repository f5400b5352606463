// The tests that make a draft a recipe.
ghost use Rattle.std.specs.Prelude.{◌≡◌, IfSome};
ghost use Rattle.std.specs.Option.{option_map};
ghost use Rattle.recipe.specs.Ranges.{every_up_to};
ghost use Rattle.recipe.specs.Fills.{material_in_range, fill_times_in_range, fill_in_range, material_keeps, fill_keeps};
ghost use Rattle.recipe.specs.Sorts.{HeldInPlace, draft_values, numbers_in_range, numbers_values, rising, sort_keeps};

use crate::draft::{FillDraft, Material, SortDraft};
use crate::numbers::{Limits, SortNumbers};
use weight::range::MOST;

// The longest time, in ticks.
const LONGEST: u32 = 65_535;

// In hundredths of a percent.
const MOST_CORRECTION: u32 = 200;

const MOST_LOOPS: u32 = 65_535;

// By a cast: a constant's value may hold no call.
const MOST_WEIGHT: u32 = MOST as u32;

// Whether no number is above the greatest.
fn every_up_to(numbers: &[u32], greatest: u32) -> bool
    ensures { result ≡ every_up_to greatest numbers.now }
{
    numbers.iter().all(|n| *n <= greatest)
}

fn fill_times_in_range(times: &[u32; 8]) -> bool
    ensures { result ≡ fill_times_in_range times.now }
{
    1 <= times[0] && every_up_to(times, LONGEST)
}

// Whether each limit lies above the one before, the first above `below`, and the last is a weight.
// A loop, since a fold that stops early would carry the last limit likewise, and only hide the return. `is_sorted_by`
// wants `below` chained in front and the last limit tested after it, and the check finds no proof of that.
#[tactic(auto, using(crate::proofs::Rising::rising_step, crate::proofs::Rising::rising_end))]
fn is_rising(below: u32, limits: &[u32]) -> bool
    ensures { result ≡ rising below limits.now }
{
    let mut last = below;
    for p in limits {
        if *p <= last {
            return false;
        }
        last = *p;
    }
    last <= MOST_WEIGHT
}

impl Material {
    fn is_in_range(&self, least: u32) -> bool
        ensures { result ≡ material_in_range least self.now }
    {
        (least..=MOST_WEIGHT).contains(&self.target)
            && self.coarse_preact <= MOST_WEIGHT
            && self.fine_preact <= MOST_WEIGHT
            && self.tolerance <= MOST_WEIGHT
    }

    fn is_consistent(&self) -> bool
        ensures { result ≡ material_keeps self.now }
    {
        self.fine_preact <= self.coarse_preact
            && self.coarse_preact <= self.target
            && self.tolerance <= self.target
    }
}

impl FillDraft {
    // Whether each number is in its range.
    pub(crate) fn is_in_range(&self) -> bool
        ensures { result ≡ fill_in_range self.now }
    {
        self.first.is_in_range(1)
            && self.second.is_in_range(0)
            && (1..=MOST_WEIGHT).contains(&self.zone)
            && fill_times_in_range(&self.times)
            && self.loops <= MOST_LOOPS
    }

    // Whether the numbers fit each other.
    pub(crate) fn is_consistent(&self) -> bool
        ensures { result ≡ fill_keeps self.now }
    {
        self.first.is_consistent() && self.second.is_consistent()
    }
}

impl SortDraft<'_> {
    // The draft's numbers, or none where one is out of its range. `is_consistent` judges the zone and the limits.
    pub(crate) fn numbers_in_range(self) -> Option<SortNumbers>
        ensures value { option_map numbers_values result ≡ numbers_in_range (draft_values self.entry) }
        ensures held { IfSome result (λ n. HeldInPlace self.entry.limits.now n.limits) }
    {
        // The limits last, since they are copied.
        let in_range = self.correction <= MOST_CORRECTION && every_up_to(&self.times, LONGEST);
        if !in_range {
            return None;
        }
        Some(SortNumbers {
            zone: self.zone,
            limits: Limits::new(self.limits)?,
            correction: self.correction,
            times: self.times,
        })
    }
}

impl SortNumbers {
    // Whether the zone and the limits make one rising chain.
    pub(crate) fn is_consistent(&self) -> bool
        ensures { result ≡ sort_keeps (numbers_values self.now) }
    {
        1 <= self.zone && is_rising(self.zone, self.limits.as_slice())
    }
}
