// Where the records of a ring lie in its slots.
ghost use Rattle.std.specs.Prelude.{◌≡◌, ◌<◌};
ghost use Rattle.store.specs.Places.{goes_at, mark_after};

// How far a ring has filled its slots, and which slot the next record goes to.
#[derive(Clone, Copy)]
pub(crate) enum Mark {
    // The slots before that one hold records, and no other.
    Filling { next: usize },
    // Every slot holds a record, and that one holds the oldest.
    Full { next: usize },
}

impl Mark {
    // Nothing is kept.
    pub(crate) const NONE: Mark = Mark::Filling { next: 0 };

    // The slot that the next record goes to.
    pub(crate) fn goes_at(self) -> usize
        ensures { result ≡ goes_at self }
    {
        match self {
            Mark::Filling { next } | Mark::Full { next } => next,
        }
    }

    // The mark once a record has gone to its slot: after the last slot comes the first again.
    pub(crate) fn after(self, places: usize) -> Mark
        requires { goes_at self < places }
        ensures after { result ≡ mark_after places self }
        ensures within { goes_at result < places }
    {
        match self {
            Mark::Filling { next } if next + 1 < places => Mark::Filling { next: next + 1 },
            Mark::Full { next } if next + 1 < places => Mark::Full { next: next + 1 },
            _ => Mark::Full { next: 0 },
        }
    }
}
