// What every store does. A line records on any store that meets this.
ghost use Rattle.std.specs.Prelude.{◌≡◌, length};
ghost use Rattle.std.specs.List.{slice_get};
ghost use Rattle.store.specs.Kept.{HasPlaces, Kept, after_add, after_clear, weights_of};

use crate::weights::Weights;

pub trait Store {
    ghost use Rattle.store.specs.Kinds.{weights_left};

    // the weights that are kept, and the number of places
    ghost holds: { Self → Kept };

    // Puts a weight last, and drops the oldest beyond the places. A kind may keep the tick number with it.
    fn add(&mut self, weight: i32, tick: u32)
        ensures after { holds self.new ≡ after_add (holds self.old) weight tick };

    // Leaves no weight.
    fn clear(&mut self)
        ensures after { holds self.new ≡ after_clear (holds self.old) };

    // How many weights are kept.
    fn len(&self) -> usize
        ensures value { result ≡ length (weights_of (holds self.now)) };

    // The weight at a position, the oldest at 0, or none.
    fn get(&self, i: usize) -> Option<i32>
        ensures value { result ≡ slice_get (weights_of (holds self.now)) i };

    // The weights, oldest first.
    final fn weights(&self) -> Weights<'_, Self>
        ensures { weights_left holds result ≡ weights_of (holds self.now) }
    {
        Weights {
            store: self,
            next: 0,
        }
    }

    // There is at least one place.
    ghost has_places: { (s : Self) → HasPlaces (holds s) };
}
