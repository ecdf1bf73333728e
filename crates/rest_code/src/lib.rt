// The code that lists a year's rest days by the wing's table.
#![tactic(auto)]

mod question;

ghost use Rattle.std.specs.Prelude.{◌≡◌, true};
ghost use Rattle.laws.specs.Runs.{each_of};
ghost use Rattle.hebrew.specs.Rows.{row_day, row_good};
ghost use Rattle.rest.specs.Answers.{rest_days_answer, rest_days_buffer, wing_rest_days, wing_rest_days_buffer};

use lists::ListAnswer;
use newyear_code::Span;
pub use question::asked;
use rest_table::{GUEST_TABLE, REST_TABLE, Wing};

// The day numbers of the table's rows in the year. Refusal 10 for a buffer of fewer entries than the table has rows.
fn table_days(table: &[u64], span: Span, out: &mut [u64]) -> ListAnswer
    requires { each_of table.now (row_good span.length) ≡ true }
    ensures { (result ≡ rest_days_answer table.now span.year out.old) × (out.new ≡ rest_days_buffer table.now span.year out.old) }
{
    lists_code::list_days(
        table,
        |row|
            requires { row_good span.length row ≡ true }
            ensures { result ≡ row_day span.year row }
        { lists_code::row_day(span, row) },
        out,
    )
}

// The day numbers of the year's rest days, in the order of the wing's table. Refusal 15 for a wing that is neither 1 nor
// 2; 1 for a year outside 1..9999; 10 for a buffer of fewer entries than the table has rows, which it leaves as it was.
pub fn rest_days(wing: u64, year: u64, out: &mut [u64]) -> ListAnswer
    ensures { (result ≡ wing_rest_days wing year out.old) × (out.new ≡ wing_rest_days_buffer wing year out.old) }
{
    // Each table is named here, and not told by the wing, so that the compiler knows its rows and divides none of them.
    match asked(wing, year) {
        Ok((Wing::Hall, span)) => table_days(&REST_TABLE, span, out),
        Ok((Wing::Guest, span)) => table_days(&GUEST_TABLE, span, out),
        Err(why) => ListAnswer {
            refusal: why.number(),
            ..ListAnswer::default()
        },
    }
}
