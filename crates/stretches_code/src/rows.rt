// The stretches of a year, written into lent numbers.
ghost use Rattle.std.specs.Prelude.{◌≡◌, ◌≤◌, length as list_length};
ghost use Rattle.laws.specs.Buffer.{overwrite};
ghost use Rattle.rest.specs.Wings.{table_of};
ghost use Rattle.rest_table.specs.Wing.{number_of};
ghost use Rattle.stretches.specs.Stretches.{stretch_rows};
ghost use Rattle.stretches.specs.Promises.{stretches_room};

use newyear_code::Span;
use rest_table::Wing;

// A step: first day and length of each stretch that begins in the year, over the start of a buffer that has room for those
// of any year; and how many entries they take. A run of rest days is written when it has ended.
pub fn year_rows(wing: Wing, span: Span, out: &mut [u64]) -> usize
    requires { stretches_room ≤ list_length out.old }
    ensures { (result ≡ list_length (stretch_rows (table_of (number_of wing)) span.year)) × ((result ≤ stretches_room)
        × (out.new ≡ overwrite out.old (stretch_rows (table_of (number_of wing)) span.year))) }
{
    let weekday = days::weekday_of(span.new_year);
    // Entries written so far: a run that has ended takes two, and most dates none.
    let mut n = 0;
    let mut run = 0;
    for date in year_dates::dates_from(span.length, 0) {
        let rests = wing.rest_on(weekday, date);
        if !rests & (0 < run) {
            out[n] = span.new_year + date.after - run;
            out[n + 1] = run;
            n += 2;
        }
        run = laws::pick(rests, run + 1, 0);
    }
    n
}
