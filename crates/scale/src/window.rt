// The last K weights of a scale.
ghost use Rattle.std.specs.Prelude.{◌≡◌, ℕ, length, pos, slice_index_or};
ghost use Rattle.weight.specs.Range.{InRange};
ghost use Rattle.scale.specs.Kinds.{newest};

use arrayvec::ArrayVec;

// The last K weights, newest first, or as many as have come.
#[derive(Drop)]
pub(crate) struct Window<const K: usize> {
    weights: ArrayVec<i32, K>,
    ghost ranged: { (k : ℕ) → InRange (slice_index_or weights.items k (pos 0)) },
}

impl<const K: usize> Window<K> {
    ghost use Rattle.std.specs.Prelude.{◌≡◌, ◌*◌, ◌≤◌, [], length, pos, slice_index_or, unsigned_abs};
    ghost use Rattle.weight.specs.Range.{InRange, most};
    ghost use Rattle.scale.specs.Windows.{last_weights};
    ghost use Rattle.scale.specs.Kinds.{newest};
    ghost use Rattle.scale.specs.Figures.{total, highest, lowest, spread};

    // A window to which no weight has come.
    pub(crate) fn new() -> Self
        ensures { last_weights result ≡ [] }
    {
        Window {
            weights: ArrayVec::new(),
        }
    }

    // Puts a weight in, and drops the oldest beyond K.
    pub(crate) fn push(&mut self, w: i32)
        requires { InRange w }
        ensures { last_weights self.new ≡ newest K w (last_weights self.old) }
    {
        // Full, its length is the constant K: so one more comes in by moves of a known size.
        if self.weights.is_full() {
            shift_in(self.weights.as_mut_slice(), w);
        } else {
            let _ = self.weights.try_insert(0, w);
        }
    }

    // How many weights are kept.
    pub(crate) fn len(&self) -> usize
        ensures value { result ≡ length (last_weights self.now) }
        ensures few { result ≤ K }
    {
        self.weights.len()
    }

    // The newest weight, or 0 where none has come.
    pub(crate) fn latest(&self) -> i32
        ensures { result ≡ slice_index_or (last_weights self.now) 0 (pos 0) }
    {
        self.weights.first().copied().unwrap_or(0)
    }

    // The sum of the weights; K is small enough for it. A loop, since nothing bounds the sum of a chain.
    pub(crate) fn total(&self) -> i64
        requires { K ≤ 1000 }
        ensures value { result ≡ total (last_weights self.now) }
        ensures size { unsigned_abs result ≤ most * length (last_weights self.now) }
    {
        let mut sum: i64 = 0;
        for w in self.weights.as_slice() {
            sum += i64::from(*w);
        }
        sum
    }

    // The greatest of the weights, or 0 where there is none. The fold is what this and the next function share; one
    // function over both would take the rule and its clauses as parameters, and be longer than the two.
    fn highest(&self) -> i32
        ensures value { result ≡ highest (last_weights self.now) }
    {
        self.weights.iter().copied().fold(self.latest(), i32::max)
    }

    // The least of the weights, or 0 where there is none.
    fn lowest(&self) -> i32
        ensures value { result ≡ lowest (last_weights self.now) }
    {
        self.weights.iter().copied().fold(self.latest(), i32::min)
    }

    // How far the weights lie apart.
    pub(crate) fn spread(&self) -> i64
        ensures { result ≡ spread (last_weights self.now) }
    {
        i64::from(self.highest()) - i64::from(self.lowest())
    }
}

// Puts a weight in front; the last one goes.
#[tactic(auto, using(crate::proofs::Shifting::shifted))]
fn shift_in(weights: &mut [i32], w: i32)
    ensures { weights.new ≡ newest (length weights.old) w weights.old }
{
    if !weights.is_empty() {
        weights.rotate_right(1);
        weights[0] = w;
    }
}
