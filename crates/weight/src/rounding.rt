// Rounding a quotient to a whole number.
ghost use Rattle.std.specs.Prelude.{◌≡◌, ◌≤◌, pos, int_div, unsigned_abs};
ghost use Rattle.std.specs.NonZero.{non_zero_u32_get};
ghost use Rattle.weight.specs.Rounding.{rounding, correction, Nearest};

use std::num::NonZeroU32;

// The quotient toward zero.
fn quotient(p: i64, q: NonZeroU32) -> i64
    ensures { result ≡ int_div p (pos (non_zero_u32_get q)) }
{
    p / i64::from(q.get())
}

// What rounding adds to the quotient toward zero.
fn correction_of(p: i64, q: NonZeroU32) -> i64
    ensures { result ≡ correction p (non_zero_u32_get q) }
{
    let rest = (p % i64::from(q.get())).unsigned_abs();
    if 2 * rest < u64::from(q.get()) {
        0
    } else if p < 0 {
        -1
    } else {
        1
    }
}

// The whole number nearest to p ÷ q, by the quotient and its correction. Its proof has a file, and so it stands apart
// from the function below: a bug planted there is refused for a fact, and not for a proof text that no longer fits.
// (With lemmas named on one function and no file, that the number is nearest stayed open.)
fn nearest_by(p: i64, q: NonZeroU32) -> i64
    ensures value { result ≡ rounding p (non_zero_u32_get q) }
    ensures size { unsigned_abs result ≤ unsigned_abs p }
    ensures nearest { Nearest p (non_zero_u32_get q) result }
{
    quotient(p, q) + correction_of(p, q)
}

// The whole number nearest to p ÷ q, halves away from zero.
pub fn rounded(p: i64, q: NonZeroU32) -> i64
    ensures value { result ≡ rounding p (non_zero_u32_get q) }
    ensures size { unsigned_abs result ≤ unsigned_abs p }
    ensures nearest { Nearest p (non_zero_u32_get q) result }
{
    nearest_by(p, q)
}
