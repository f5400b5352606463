// One class of the totals.
ghost use Rattle.std.specs.Prelude.{◌≡◌, ◌+◌, ◌<◌, ◌≤◌, pos, ◌≤ℤ◌};
ghost use Rattle.weight.specs.Range.{most};
ghost use Rattle.totals.specs.Rows.{row_sum, raised, full_count, NotBelowZero, NotTooHeavy};

// How many weights were recorded, and their sum.
#[derive(Clone, Copy, PartialEq, Eq, Debug, Default)]
pub struct Row {
    pub count: u32,
    pub weight: i64,
}

// A row that comes from records alone: it weighs no less than 0, and no more than the largest weight for each of its
// records, so no sum of such rows overflows. A type of its own, since callers may write down any row.
#[derive(Clone, Copy)]
pub(crate) struct RecordedRow {
    pub(crate) row: Row,
    ghost low: { NotBelowZero row },
    ghost high: { NotTooHeavy row },
}

impl RecordedRow {
    // Counts one weight more.
    pub(crate) fn raise(&mut self, weight: i32)
        requires room { self.old.row.count < full_count }
        requires low { pos 0 ≤ℤ weight }
        requires high { weight ≤ℤ pos most }
        ensures { self.new.row ≡ raised self.old.row weight }
    {
        self.row.count += 1;
        self.row.weight += i64::from(weight);
    }

    // Both rows together.
    pub(crate) fn join(self, other: RecordedRow) -> RecordedRow
        requires { self.row.count + other.row.count ≤ full_count }
        ensures { result.row ≡ row_sum self.row other.row }
    {
        RecordedRow {
            row: Row {
                count: self.row.count + other.row.count,
                weight: self.row.weight + other.row.weight,
            },
        }
    }
}

// Nothing is recorded. By hand, since a struct with facts cannot derive it.
impl Default for RecordedRow {
    ghost use Rattle.std.specs.Prelude.{◌≡◌, pos};
    ghost use Rattle.totals.specs.Rows.{row};

    ghost is_default = { λ r. r.row ≡ row 0 (pos 0) };

    fn default() -> Self {
        RecordedRow {
            row: Row::default(),
        }
    }
}
