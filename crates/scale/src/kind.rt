// What every scale answers.
ghost use Rattle.std.specs.Prelude.{◌≡◌};
ghost use Rattle.weight.specs.Range.{InRange};
ghost use Rattle.scale.specs.declared.reading.Reading.{Reading};
ghost use Rattle.scale.specs.declared.reading.Sample.{Sample};

use crate::reading::{Reading, Sample};

// A scale means the weight that it shows and whether that is stable. Asking alters nothing, and no sample is refused.
pub trait Scale {
    // what the scale shows
    ghost shows: { Self → Reading };

    // the rule of its kind: what a sample makes of the scale
    ghost takes: { Self → Sample → Self → Type 0 };

    // The gross weight. That it is in range is said of the answer too, so that sums of weights need no law.
    fn gross(&self) -> i32
        ensures value { result ≡ (shows self.now).gross }
        ensures range { InRange result };

    // Whether the gross weight is stable.
    fn stable(&self) -> bool
        ensures { result ≡ (shows self.now).stable };

    // Takes a sample in.
    fn sample(&mut self, sample: Sample)
        ensures { takes self.old sample self.new };

    // Both answers at once.
    fn read(&self) -> Reading
        ensures { result ≡ shows self.now }
    {
        Reading {
            gross: self.gross(),
            stable: self.stable(),
        }
    }

    ghost ranged: { (s : Self) → InRange (shows s).gross };
}
