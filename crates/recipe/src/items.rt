// Items on the belt: the channel of one among the limits, and its weight by its readings.
ghost use Rattle.std.specs.Prelude.{◌≡◌, Some, ◌+◌, ◌*◌, ◌≤◌, true, length, is_some, IfSome, pos, ◌*ℤ◌, int_lt};
ghost use Rattle.std.specs.NonZero.{non_zero_u32_get};
ghost use Rattle.recipe.specs.Items.{reached, channel_of, ChannelInRange, item_weight, parts, can_sum};
ghost use Rattle.recipe.specs.Sorts.{limits_in_use, most_correction};

use crate::numbers::Limits;
use std::num::NonZeroU32;
use weight::range::MOST;
use weight::rounding::rounded;

// The greatest number of readings of one item.
const MOST_READINGS: u32 = 65_535;

// A correction is in parts of this.
const PARTS: u32 = 10_000;

pub(crate) fn is_above(x: i32, zone: u32) -> bool
    ensures { result ≡ int_lt (pos zone) x }
{
    i64::from(zone) < i64::from(x)
}

fn is_below(x: i32, limit: u32) -> bool
    ensures { result ≡ int_lt x (pos limit) }
{
    i64::from(x) < i64::from(limit)
}

// How many limits X reaches, up to the first that lies above it.
fn reached(limits: &[u32], x: i32) -> usize
    ensures value { result ≡ reached limits.now x }
    ensures few { result ≤ length limits.now }
{
    limits.iter().take_while(|p| !is_below(x, **p)).count()
}

impl Limits {
    // The channel of X among the limits.
    #[tactic(auto, using(crate::proofs::Channels::channel_past))]
    pub(crate) fn channel_of(&self, x: i32) -> u8
        ensures value { result ≡ channel_of (limits_in_use self.now) x }
        ensures range { ChannelInRange (Some result) }
    {
        reached(self.as_slice(), x) as u8 + 1
    }
}

// The readings of an item: their sum, and how many there are. Whoever makes such a pair owes the proof that an item can
// have them.
#[derive(Clone, Copy)]
pub(crate) struct Readings {
    sum: i64,
    number: u32,
    ghost possible: { can_sum sum number ≡ true },
}

impl Readings {
    // So many readings with that sum, or none where no item has such readings.
    pub(crate) fn new(sum: i64, number: u32) -> Option<Readings>
        ensures possible { is_some result ≡ can_sum sum number }
        ensures same { IfSome result (λ r. (r.sum ≡ sum) × (r.number ≡ number)) }
    {
        let most_sum = u64::from(MOST.unsigned_abs()) * u64::from(number);
        // Not `.then(..)`, whose closure would owe the invariant without the test.
        if (1..=MOST_READINGS).contains(&number) && sum.unsigned_abs() <= most_sum {
            Some(Readings { sum, number })
        } else {
            None
        }
    }

    // The weight of the item: the mean with the correction, rounded once.
    #[tactic(auto, using(crate::proofs::Readings::weight_small))]
    pub(crate) fn mean(self, correction: u32) -> i32
        requires { correction ≤ most_correction }
        ensures { result ≡ item_weight self.sum self.number correction }
    {
        rounded(self.corrected_sum(correction), self.divisor()) as i32
    }

    // The sum in parts, with its correction.
    #[tactic(auto, using(crate::proofs::Readings::corrected_small))]
    fn corrected_sum(self, correction: u32) -> i64
        requires { correction ≤ most_correction }
        ensures { result ≡ self.sum *ℤ pos (parts + correction) }
    {
        self.sum * i64::from(PARTS + correction)
    }

    fn divisor(self) -> NonZeroU32
        ensures { non_zero_u32_get result ≡ parts * self.number }
    {
        NonZeroU32::new(PARTS * self.number).unwrap()
    }
}
