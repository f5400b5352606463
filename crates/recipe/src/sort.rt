// Sorting recipes, and what they say of items.
ghost use Rattle.std.specs.Prelude.{◌≡◌, true, ◌≤◌, length};
ghost use Rattle.recipe.specs.Limits.{most_limits};
ghost use Rattle.recipe.specs.Sorts.{sort_times, sort_in_range, sort_keeps, numbers_values};

use crate::draft::SortDraft;
use crate::items::{Readings, is_above};
use crate::numbers::SortNumbers;
use weight::fault::Fault;
use weight::range::MOST;

// Numbers that are in range and fit each other. Whoever makes one, or alters one, owes the proof of that.
#[derive(Clone, Copy)]
pub struct SortRecipe {
    pub numbers: SortNumbers,
    ghost few: { numbers.limits.count ≤ most_limits },
    ghost timed: { length numbers.times ≡ sort_times },
    ghost ranged: { sort_in_range (numbers_values numbers) ≡ true },
    ghost kept: { sort_keeps (numbers_values numbers) ≡ true },
}

impl SortRecipe {
    ghost use Rattle.recipe.specs.Limits.{most_limits};
    ghost use Rattle.recipe.specs.Items.{item_counts, channel_answer, item_weight_answer, FoundChannel, ChannelInRange};
    ghost use Rattle.recipe.specs.Made.{SortMade, sort_values};

    // A recipe of these numbers, or the first refusal.
    pub fn new(draft: SortDraft<'_>) -> Result<SortRecipe, Fault>
        ensures { SortMade draft.entry result }
    {
        let numbers = draft.numbers_in_range().ok_or(Fault::OutOfRange)?;
        if !numbers.is_consistent() {
            return Err(Fault::Inconsistent);
        }
        Ok(SortRecipe { numbers })
    }

    // The limits between the channels, P1 first.
    pub fn limits(&self) -> &[u32]
        ensures value { result.now ≡ (sort_values self.now).limits }
        ensures few { length result.now ≤ most_limits }
    {
        self.numbers.limits.as_slice()
    }

    // Whether an item of this weight counts.
    pub fn counts(&self, x: i32) -> bool
        ensures { result ≡ item_counts (sort_values self.now).zone x }
    {
        is_above(x, self.numbers.zone) && x <= MOST
    }

    // The channel of an item of this weight, or none where it does not count. A channel stays a number: it is one more
    // than the limits that the weight reaches, and the row of the totals that the item is recorded in.
    #[tactic(auto, using(crate::proofs::Channels::found_channel))]
    pub fn channel(&self, x: i32) -> Option<u8>
        ensures value { result ≡ channel_answer (sort_values self.now) x }
        ensures found { FoundChannel (sort_values self.now) x result }
        ensures range { ChannelInRange result }
    {
        self.counts(x).then(|| self.numbers.limits.channel_of(x))
    }

    // The weight of an item by the sum and the number of its readings, or none where no item has such readings.
    pub fn item_weight(&self, sum: i64, number: u32) -> Option<i32>
        ensures { result ≡ item_weight_answer (sort_values self.now).correction sum number }
    {
        Readings::new(sum, number).map(|r| r.mean(self.numbers.correction))
    }
}
