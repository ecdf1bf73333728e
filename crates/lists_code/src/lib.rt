// The code that hands out the days of a table's rows in lent numbers.
#![tactic(auto)]

ghost use Rattle.std.specs.Prelude.{◌≡◌, true, ◌≤◌, All};
ghost use Rattle.hebrew.specs.Rows.{row_day, row_good};
ghost use Rattle.lists_code.specs.Handed.{HandsOut};

use lists::ListAnswer;
use newyear_code::Span;
use refusals::Refusal;

// A step: the day number of a row, 100 × month code + day, in the year.
pub fn row_day(span: Span, row: u64) -> u64
    requires { row_good span.length row ≡ true }
    ensures { (result ≡ row_day span.year row) × (2 ≤ result) × (result ≤ 4500000) }
{
    let before = hebrew_months::days_before(span.length, row / 100);
    span.new_year + before + (row % 100 - 1)
}

// A step: the day of each row of the table, in the table's order, over the start of the buffer. Refusal 10 for a buffer of
// fewer entries than the table has rows, which it leaves as it was.
pub fn list_days<F: Fn(u64) -> u64>(table: &[u64], day: F, out: &mut [u64]) -> ListAnswer
    requires { All (F.pre day) table.now }
    ensures { HandsOut (F.post day) table.now out.old out.new result }
{
    let count = table.len() as u64;
    if out.len() < table.len() {
        return ListAnswer {
            refusal: Refusal::BufferTooShort as u64,
            count,
        };
    }
    for (i, row) in table.iter().enumerate() {
        out[i] = day(*row);
    }
    ListAnswer { refusal: 0, count }
}
