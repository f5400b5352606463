// The weights of any store, one after another.
ghost use Rattle.std.specs.Iterator.{YieldsFirst, item_count};
ghost use Rattle.store.specs.Kinds.{weights_left};

use crate::kind::Store;

// What `Store::weights` gives: the weights from a position on, oldest first.
#[derive(Drop)]
pub struct Weights<'a, S: Store> {
    pub(crate) store: &'a S,
    pub(crate) next: usize,
}

impl<'a, S: Store> Iterator for Weights<'a, S> {
    type Item = i32;

    ghost next_gives = { YieldsFirst (weights_left S.holds) };

    ghost remaining = { item_count (weights_left S.holds) };

    #[tactic(auto, using(crate::proofs::Stepping::stepped))]
    fn next(&mut self) -> Option<i32> {
        // Asked of `len` first, which bounds the position: so the next one cannot overflow.
        let i = self.next;
        if i >= self.store.len() {
            return None;
        }
        self.next = i + 1;
        self.store.get(i)
    }
}
