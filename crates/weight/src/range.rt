// The range of weights.
ghost use Rattle.std.specs.Prelude.{◌≡◌};
ghost use Rattle.weight.specs.Range.{InRange, cut, most};

// The largest weight. A weight is a whole number of units of the last displayed digit, from -MOST to MOST.
pub const MOST: i32 = 999_999;

// A number cut to the range of weights: one beyond it becomes the nearer end. That it is in range is a clause and no
// type: definitions make readings of plain numbers, and with such a type each of them would carry a proof.
pub fn cut_to_range(n: i64) -> i32
    ensures value { result ≡ cut most n }
    ensures range { InRange result }
{
    n.clamp(-i64::from(MOST), i64::from(MOST)) as i32
}
