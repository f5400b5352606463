// What a store may keep of a weight.
ghost use Rattle.std.specs.Prelude.{◌≡◌, ℕ, ℤ, refl};
ghost use Rattle.store.specs.Records.{weight_alone, weight_of, stamped, stamped_weight};

pub trait Record: Copy {
    // the record of a weight that was taken at a tick
    ghost made: { ℤ → ℕ → Self };

    // the weight of a record
    ghost weighs: { Self → ℤ };

    fn of(weight: i32, tick: u32) -> Self
        ensures { result ≡ made weight tick };

    fn weight(&self) -> i32
        ensures { result ≡ weighs self.now };

    // A record gives its weight back.
    ghost faithful: { (w : ℤ) (t : ℕ) → weighs (made w t) ≡ w };
}

// A weight alone.
#[derive(Clone, Copy, PartialEq, Eq, Debug)]
pub struct Weight(pub i32);

impl Record for Weight {
    ghost made = { weight_alone };

    ghost weighs = { weight_of };

    ghost faithful = { λ w t. refl };

    fn of(weight: i32, tick: u32) -> Weight {
        Weight(weight)
    }

    fn weight(&self) -> i32 {
        self.0
    }
}

// A weight with the number of the tick at which it was recorded.
#[derive(Clone, Copy, PartialEq, Eq, Debug)]
pub struct Stamped {
    pub weight: i32,
    pub tick: u32,
}

impl Record for Stamped {
    ghost made = { stamped };

    ghost weighs = { stamped_weight };

    ghost faithful = { λ w t. refl };

    fn of(weight: i32, tick: u32) -> Stamped {
        Stamped { weight, tick }
    }

    fn weight(&self) -> i32 {
        self.weight
    }
}
