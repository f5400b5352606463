// The transmitter head: it sends weights, and marks itself whether they are steady.
ghost use Rattle.std.specs.Prelude.{◌≡◌};
ghost use Rattle.weight.specs.Range.{InRange};
ghost use Rattle.scale.specs.Kinds.{unsampled, head_shows};

use crate::kind::Scale;
use crate::reading::{Reading, Sample};
use weight::range::cut_to_range;

#[derive(Drop)]
pub struct Head {
    reading: Reading,
    ghost ranged: { InRange reading.gross },
}

impl Head {
    // A head from which no sample has come.
    pub fn new() -> Self
        ensures { result.reading ≡ unsampled }
    {
        Head {
            reading: Reading {
                gross: 0,
                stable: false,
            },
        }
    }
}

impl Scale for Head {
    ghost shows = { λ h. h.reading };

    ghost takes = { λ h s k. k.reading ≡ head_shows s };

    ghost ranged = { λ h. h.ranged };

    fn gross(&self) -> i32 {
        self.reading.gross
    }

    fn stable(&self) -> bool {
        self.reading.stable
    }

    fn sample(&mut self, sample: Sample) {
        self.reading = Reading {
            gross: cut_to_range(i64::from(sample.value)),
            stable: sample.steady,
        };
    }
}
