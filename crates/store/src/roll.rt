// A roll: it keeps 64 weights itself.
ghost use Rattle.std.specs.Prelude.{◌≡◌, ◌<◌};
ghost use Rattle.store.specs.declared.roll.TheConstants.{PLACES};
ghost use Rattle.store.specs.Places.{goes_at};

use crate::kind::Store;
use crate::mark::Mark;
use crate::record::{Record, Weight};
use crate::slots::{self, Records};

const PLACES: usize = 64;

#[derive(Drop)]
pub struct Roll {
    slots: [Weight; PLACES],
    mark: Mark,
    ghost within: { goes_at mark < PLACES },
}

impl Roll {
    ghost use Rattle.store.specs.Kept.{HasPlaces, none_of};
    ghost use Rattle.store.specs.Kinds.{records_of, roll_holds, roll_places, roll_records};

    // An empty roll.
    pub fn new() -> Roll
        ensures empty { roll_holds result ≡ none_of roll_places }
        ensures places { HasPlaces (roll_holds result) }
    {
        Roll {
            slots: [Weight(0); PLACES],
            mark: Mark::NONE,
        }
    }

    fn records(&self) -> Records<'_, Weight>
        ensures { records_of result ≡ roll_records self.now }
    {
        Records {
            slots: &self.slots,
            mark: self.mark,
        }
    }
}

// The ring's calls again, each one line. One type over lent and own slots would be longer: a trait of slots, and an
// implementation of it for each, in place of these four lines.
impl Store for Roll {
    ghost use Rattle.std.proofs.Common.{lit≤};
    ghost use Rattle.store.specs.Kinds.{roll_holds};

    ghost holds = { roll_holds };

    ghost has_places = { λ r. lit≤ tt };

    fn add(&mut self, weight: i32, tick: u32) {
        self.mark = slots::put(&mut self.slots, self.mark, Weight::of(weight, tick));
    }

    fn clear(&mut self) {
        self.mark = Mark::NONE;
    }

    fn len(&self) -> usize {
        self.records().len()
    }

    fn get(&self, i: usize) -> Option<i32> {
        self.records().weight(i)
    }
}
