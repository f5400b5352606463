// A ring over memory that the caller lends, for every kind of record.
ghost use Rattle.std.specs.Prelude.{◌≡◌, ◌<◌, length};
ghost use Rattle.store.specs.Places.{goes_at, written};

use crate::kind::Store;
use crate::mark::Mark;
use crate::record::Record;
use crate::slots::{self, Records};
use weight::fault::Fault;

#[derive(Drop)]
pub struct Ring<'a, T> {
    slots: &'a mut [T],
    mark: Mark,
    // The next record goes to one of the slots, so there is at least one.
    ghost within: { goes_at mark < length slots.now },
}

impl<'a, T: Record> Ring<'a, T> {
    ghost use Rattle.std.specs.List.{slice_get};
    ghost use Rattle.store.specs.Kinds.{RingMade, records_of, ring_records};

    // An empty ring over the slots, with as many places; refused where there is none. Nothing is written yet.
    pub fn new(slots: &'a mut [T]) -> Result<Ring<'a, T>, Fault>
        ensures { RingMade T.Record.weighs slots.old result }
    {
        if slots.is_empty() {
            return Err(Fault::NoPlaces);
        }
        Ok(Ring {
            slots,
            mark: Mark::NONE,
        })
    }

    // The whole record at a position, the oldest at 0, or none.
    pub fn at(&self, i: usize) -> Option<T>
        ensures { result ≡ slice_get (ring_records self.now) i }
    {
        self.records().get(i)
    }

    fn records(&self) -> Records<'_, T>
        ensures { records_of result ≡ ring_records self.now }
    {
        Records {
            slots: &*self.slots,
            mark: self.mark,
        }
    }
}

impl<'a, T: Record> Store for Ring<'a, T> {
    ghost use Prim.Native.Nat.{zero-le};
    ghost use Rattle.std.proofs.Common.{lt_of_le_of_lt};
    ghost use Rattle.std.specs.Prelude.{◌≡◌, length};
    ghost use Rattle.store.specs.Kept.{after_add, added, after_clear};
    ghost use Rattle.store.specs.Kinds.{ring_holds, ring_memory, ring_records};

    ghost holds = { λ r. ring_holds T.Record.weighs r };

    ghost has_places = { λ r. lt_of_le_of_lt zero-le r.within };

    fn add(&mut self, weight: i32, tick: u32)
        ensures after { ring_holds T.Record.weighs self.new ≡ after_add (ring_holds T.Record.weighs self.old) weight tick }
        ensures records { ring_records self.new ≡ added (length (ring_memory self.old)) (ring_records self.old) (T.Record.made weight tick) }
        ensures memory { ring_memory self.new ≡ written (ring_memory self.old) self.old.mark (T.Record.made weight tick) }
    {
        self.mark = slots::put(self.slots, self.mark, T::of(weight, tick));
    }

    fn clear(&mut self)
        ensures after { ring_holds T.Record.weighs self.new ≡ after_clear (ring_holds T.Record.weighs self.old) }
        ensures memory { ring_memory self.new ≡ ring_memory self.old }
    {
        self.mark = Mark::NONE;
    }

    fn len(&self) -> usize {
        self.records().len()
    }

    fn get(&self, i: usize) -> Option<i32> {
        self.records().weight(i)
    }
}
