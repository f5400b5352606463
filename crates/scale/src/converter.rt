// The analogue converter: it sends codes, which its settings turn into weights.
ghost use Rattle.std.specs.Prelude.{◌≡◌, ◌*◌, ◌^◌, ◌<◌, ◌≤◌, true, ◌-ℤ◌, ◌*ℤ◌, unsigned_abs};
ghost use Rattle.std.specs.NonZero.{non_zero_u32_get};
ghost use Rattle.weight.specs.Range.{InRange, cut};
ghost use Rattle.scale.specs.Conversion.{settings_in_range, last_code, divisor, converted};
ghost use Rattle.scale.specs.Kinds.{ConverterTakes, converter_shows};
ghost use Rattle.scale.specs.Windows.{last_weights};

use crate::kind::Scale;
use crate::reading::Sample;
use crate::settings::{LAST_CODE, Settings};
use crate::window::Window;
use std::num::NonZeroU32;
use weight::fault::Fault;
use weight::range::cut_to_range;
use weight::rounding::rounded;

// A converter is stable over this many of its last weights.
const SETTLED_OVER: usize = 8;

#[derive(Drop)]
pub struct Converter {
    settings: Settings,
    window: Window<SETTLED_OVER>,
    ghost made: { settings_in_range settings ≡ true },
}

impl Converter {
    ghost use Rattle.scale.specs.Made.{ConverterMade};

    // A converter of these numbers, from which no sample has come.
    pub fn new(settings: Settings) -> Result<Self, Fault>
        ensures { ConverterMade settings result }
    {
        if !settings.in_range() {
            return Err(Fault::OutOfRange);
        }
        Ok(Converter {
            settings,
            window: Window::new(),
        })
    }

    // The gross weight of a code.
    fn weight_of(&self, code: i32) -> i32
        ensures value { result ≡ converted self.now.settings code }
        ensures range { InRange result }
    {
        let product = times(above_zero(code, self.settings.zero), self.settings.capacity);
        let divisions = rounded(product, self.divisor());
        cut_to_range(times(divisions, self.settings.division))
    }

    // What the product of code and capacity is divided by: span times division.
    fn divisor(&self) -> NonZeroU32
        ensures { non_zero_u32_get result ≡ divisor self.now.settings }
    {
        let Settings { span, division, .. } = self.settings;
        NonZeroU32::new(span.unsigned_abs() * division.unsigned_abs()).unwrap()
    }
}

impl Scale for Converter {
    ghost shows = { λ c. converter_shows c.settings (last_weights c.window) };

    ghost takes = { λ c x d. ConverterTakes c.settings (last_weights c.window) x d.settings (last_weights d.window) };

    ghost ranged = { λ c. c.window.ranged 0 };

    fn gross(&self) -> i32 {
        self.window.latest()
    }

    fn stable(&self) -> bool {
        self.window.len() == SETTLED_OVER && self.window.spread() <= i64::from(self.settings.width)
    }

    fn sample(&mut self, sample: Sample) {
        let w = self.weight_of(sample.value);
        self.window.push(w);
    }
}

// A code beyond the converter's ends counts as the nearer end.
fn within_ends(code: i32) -> i32
    ensures value { result ≡ cut last_code code }
    ensures size { unsigned_abs result ≤ last_code }
{
    code.clamp(-LAST_CODE, LAST_CODE)
}

// How far a code lies above the code of the unloaded scale.
fn above_zero(code: i32, zero: i32) -> i64
    requires { unsigned_abs zero ≤ last_code }
    ensures value { result ≡ cut last_code code -ℤ zero }
    ensures size { unsigned_abs result ≤ 2 * last_code }
{
    i64::from(within_ends(code)) - i64::from(zero)
}

// a × k, where that is small enough.
fn times(a: i64, k: i32) -> i64
    requires { unsigned_abs a * unsigned_abs k < 2 ^ 62 }
    ensures value { result ≡ a *ℤ k }
    ensures size { unsigned_abs result ≡ unsigned_abs a * unsigned_abs k }
{
    a * i64::from(k)
}
