// The numbers that a converter is set up with.
ghost use Rattle.std.specs.Prelude.{◌≡◌};
ghost use Rattle.scale.specs.Conversion.{codes_in_range, is_division, settings_in_range, weights_in_range};

use weight::range::MOST;

// The codes of a converter lie from -LAST_CODE to LAST_CODE.
pub(crate) const LAST_CODE: i32 = 8_388_607;

const WIDEST_SPAN: i32 = 16_777_215;

// Any numbers: whether they are in range is the converter's to say.
#[derive(Clone, Copy)]
pub struct Settings {
    // the code of the unloaded scale
    pub zero: i32,
    // the codes from unloaded to capacity
    pub span: i32,
    // the weight at the end of the span
    pub capacity: i32,
    // the division e: weights are shown in whole multiples of it
    pub division: i32,
    // how far the last weights of a stable scale may lie apart
    pub width: i32,
}

impl Settings {
    // Whether each number is in its range.
    pub(crate) fn in_range(&self) -> bool
        ensures { result ≡ settings_in_range self.now }
    {
        self.codes_in_range() && self.weights_in_range()
    }

    pub(crate) fn codes_in_range(&self) -> bool
        ensures { result ≡ codes_in_range self.now }
    {
        (-LAST_CODE..=LAST_CODE).contains(&self.zero) && (1..=WIDEST_SPAN).contains(&self.span)
    }

    fn weights_in_range(&self) -> bool
        ensures { result ≡ weights_in_range self.now }
    {
        (1..=MOST).contains(&self.capacity)
            && is_division(self.division)
            && (0..=MOST).contains(&self.width)
    }
}

fn is_division(e: i32) -> bool
    ensures { result ≡ is_division e }
{
    matches!(e, 1 | 2 | 5 | 10 | 20 | 50)
}
