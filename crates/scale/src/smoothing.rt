// The smoothing layer: it stands over any scale, and shows the mean of what that one showed.
ghost use Rattle.std.specs.Prelude.{◌≡◌, []};
ghost use Rattle.weight.specs.Range.{InRange};
ghost use Rattle.scale.specs.Kinds.{SmoothingTakes, mean, smoothing_shows, unsampled};
ghost use Rattle.scale.specs.Windows.{last_weights};
ghost use Rattle.scale.specs.Means.{mean_ranged};

use crate::kind::Scale;
use crate::reading::Sample;
use crate::window::Window;
use std::num::NonZeroU32;
use weight::rounding::rounded;

// The mean is taken over this many of the last weights below.
const MEAN_OVER: usize = 4;

#[derive(Drop)]
pub struct Smoothing<S: Scale> {
    window: Window<MEAN_OVER>,
    below: S,
}

impl<S: Scale> Smoothing<S> {
    // A layer over this scale; no sample has come through the layer yet.
    pub fn new(below: S) -> Self
        ensures below { result.below ≡ below }
        ensures window { last_weights result.window ≡ [] }
        ensures shows { smoothing_shows (last_weights result.window) (S.Scale.shows result.below) ≡ unsampled }
    {
        Smoothing {
            window: Window::new(),
            below,
        }
    }
}

impl<S: Scale> Scale for Smoothing<S> {
    ghost shows = { λ s. smoothing_shows (last_weights s.window) (S.Scale.shows s.below) };

    ghost takes = { λ s x t. S.Scale.takes s.below x t.below × SmoothingTakes (last_weights s.window) (S.Scale.shows t.below) (last_weights t.window) };

    ghost ranged = { λ s. mean_ranged (last_weights s.window) s.window.ranged };

    fn gross(&self) -> i32 {
        mean_of(&self.window)
    }

    fn stable(&self) -> bool {
        self.window.len() > 0 && self.below.stable()
    }

    fn sample(&mut self, sample: Sample) {
        self.below.sample(sample);
        self.window.push(self.below.gross());
    }
}

// The rounded mean of the weights, or 0 of none.
fn mean_of(window: &Window<MEAN_OVER>) -> i32
    ensures value { result ≡ mean (last_weights window.now) }
    ensures range { InRange result }
{
    match NonZeroU32::new(window.len() as u32) {
        Some(n) => rounded(window.total(), n) as i32,
        None => 0,
    }
}
