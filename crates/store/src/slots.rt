// A ring's records over some slots: proved once, for every kind of record.
ghost use Rattle.std.specs.Prelude.{◌≡◌, ◌<◌, map, length, IfSome, SomeIff};
ghost use Rattle.std.specs.List.{slice_get};
ghost use Rattle.store.specs.Kept.{added};
ghost use Rattle.store.specs.Places.{goes_at, oldest_first, written, count_of, lies_at};

use crate::mark::Mark;
use crate::record::Record;

// Puts a record into its slot, and gives the mark after it.
pub(crate) fn put<T: Record>(slots: &mut [T], mark: Mark, newest: T) -> Mark
    requires { goes_at mark < length slots.old }
    ensures records { oldest_first slots.new result ≡ added (length slots.old) (oldest_first slots.old mark) newest }
    ensures weights { map T.Record.weighs (oldest_first slots.new result) ≡ added (length slots.old) (map T.Record.weighs (oldest_first slots.old mark)) (T.Record.weighs newest) }
    ensures memory { slots.new ≡ written slots.old mark newest }
    ensures within { goes_at result < length slots.new }
{
    write(slots, mark, newest);
    mark.after(slots.len())
}

// Writes a record into its slot, and no other. Apart, since the proof of the function above has a file.
fn write<T: Record>(slots: &mut [T], mark: Mark, newest: T)
    requires { goes_at mark < length slots.old }
    ensures { slots.new ≡ written slots.old mark newest }
{
    slots[mark.goes_at()] = newest;
}

// The records that lie in some slots.
#[derive(Drop)]
pub(crate) struct Records<'a, T> {
    pub(crate) slots: &'a [T],
    pub(crate) mark: Mark,
    ghost within: { goes_at mark < length slots.now },
}

impl<'a, T: Record> Records<'a, T> {
    ghost use Rattle.store.specs.Kinds.{records_of};

    // How many there are.
    pub(crate) fn len(&self) -> usize
        ensures value { result ≡ length (map T.Record.weighs (records_of self.now)) }
        ensures count { result ≡ count_of (length self.now.slots.now) self.now.mark }
    {
        match self.mark {
            Mark::Filling { next } => next,
            Mark::Full { .. } => self.slots.len(),
        }
    }

    // The slot of the record at a position, the oldest at 0, or none.
    fn lies_at(&self, i: usize) -> Option<usize>
        ensures value { let places = length self.now.slots.now in SomeIff result (i < count_of places self.now.mark) (lies_at places self.now.mark i) }
        ensures within { IfSome result (λ at. at < length self.now.slots.now) }
    {
        let places = self.slots.len();
        match self.mark {
            Mark::Filling { next } if i < next => Some(i),
            Mark::Full { next } if i < places - next => Some(next + i),
            Mark::Full { next } if i < places => Some(i - (places - next)),
            _ => None,
        }
    }

    // The record at a position, the oldest at 0.
    pub(crate) fn get(&self, i: usize) -> Option<T>
        ensures { result ≡ slice_get (records_of self.now) i }
    {
        let at = self.lies_at(i)?;
        Some(self.slots[at])
    }

    // The weight at a position, the oldest at 0.
    pub(crate) fn weight(&self, i: usize) -> Option<i32>
        ensures { result ≡ slice_get (map T.Record.weighs (records_of self.now)) i }
    {
        self.get(i).map(|record| record.weight())
    }
}
