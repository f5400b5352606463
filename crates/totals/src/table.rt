// The table of classes. Class 0 is fills, and class n is channel n.
ghost use Rattle.std.specs.Prelude.{◌≡◌, ℕ, ◌≤◌, true, length, slice_set, IfSome};
ghost use Rattle.totals.specs.Plain.{plain};
ghost use Rattle.totals.specs.Rows.{classes, full_count, no_rows, recorded, can_record, is_recordable, raised, row_of, row_answer, overall_count, overall_of, is_full, NotBelowZero, NotTooHeavy};

use crate::row::{RecordedRow, Row};
use weight::range::MOST;

// A class stays a number: it is an index, told to hosts and operators as such, and a narrower type would ask more.
pub const CLASSES: usize = 8;

// The overall count at which the totals are full.
pub const FULL: u32 = 999_999;

// One row for each class. Neither it nor its rows have a model: today's toolchain proves no caller that passes a struct
// with such a field by value and uses it again.
#[derive(Clone, Copy)]
pub struct Totals {
    rows: [RecordedRow; CLASSES],
    ghost sized: { length rows ≡ classes },
    ghost few: { overall_count (plain rows) ≤ full_count },
    ghost low: { (k : ℕ) → NotBelowZero (row_of (plain rows) k) },
    ghost high: { (k : ℕ) → NotTooHeavy (row_of (plain rows) k) },
}

impl Totals {
    ghost use Rattle.totals.specs.Tables.{rows_of};

    // Nothing is recorded in any class.
    pub fn new() -> Totals
        ensures { rows_of result ≡ no_rows }
    {
        Totals {
            rows: [RecordedRow::default(); CLASSES],
        }
    }

    // Forgets all records.
    pub fn clear(&mut self)
        ensures { rows_of self.new ≡ no_rows }
    {
        *self = Totals::new();
    }

    // Counts a weight in its class. Left as they are where they cannot take it: full totals, a class that is not
    // there, a weight below 0 or above the largest.
    pub fn record(&mut self, class: u8, weight: i32)
        ensures { rows_of self.new ≡ recorded (rows_of self.old) class weight }
    {
        if self.can_record(class, weight) {
            self.raise(class, weight);
        }
    }

    // The row of a class, or none where the class is not there.
    pub fn row(&self, class: u8) -> Option<Row>
        ensures value { result ≡ row_answer (rows_of self.now) class }
        ensures low { IfSome result NotBelowZero }
        ensures high { IfSome result NotTooHeavy }
    {
        self.rows
            .get(usize::from(class))
            .map(|recorded| recorded.row)
    }

    // All classes together.
    #[tactic(auto, using(crate::proofs::PlainSteps::plain_steps))]
    pub fn overall(&self) -> Row
        ensures value { result ≡ overall_of (rows_of self.now) }
        ensures few { result.count ≤ full_count }
        ensures low { NotBelowZero result }
        ensures high { NotTooHeavy result }
    {
        // A loop: `join` asks that the counts fit, and of a fold nothing shows that.
        let mut sum = RecordedRow::default();
        for row in &self.rows {
            sum = sum.join(*row);
        }
        sum.row
    }

    // Whether nothing more is recorded.
    pub fn full(&self) -> bool
        ensures { result ≡ is_full (rows_of self.now) }
    {
        self.overall().count == FULL
    }

    // One weight more in the row of its class. Its proof has a file, and so it stands apart from `record`.
    #[tactic(auto, using(crate::proofs::PlainSteps::plain_steps))]
    fn raise(&mut self, class: u8, weight: i32)
        requires { can_record (rows_of self.old) class weight ≡ true }
        ensures { rows_of self.new ≡ slice_set (rows_of self.old) class (raised (row_of (rows_of self.old) class) weight) }
    {
        // The rows are lent first: today's toolchain proves no loan of one of them straight from the table, since
        // both keep facts of their own.
        let rows = &mut self.rows;
        let row = &mut rows[usize::from(class)];
        row.raise(weight);
    }

    // Whether a weight can be counted in a class.
    fn can_record(&self, class: u8, weight: i32) -> bool
        ensures { result ≡ can_record (rows_of self.now) class weight }
    {
        usize::from(class) < CLASSES && !self.full() && is_recordable(weight)
    }
}

fn is_recordable(weight: i32) -> bool
    ensures { result ≡ is_recordable weight }
{
    (0..=MOST).contains(&weight)
}
