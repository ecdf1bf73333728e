// Rhodes' steps, in numbers that stay below 2³².
ghost use Rattle.molad.specs.Years.{InNewYears};
ghost use Rattle.rhodes_code.specs.Steps.{IsLate, IsRoute};

#[derive(Drop)]
pub struct Route {
    // n, the year's place in the cycle of 19 years.
    pub place: u64,
    // r, the years since the last Julian leap year.
    pub since_leap: u64,
    // D, from day 0 of August to the molad, in 492,480ths of a day.
    pub distance: u64,
    // i' and f', the molad's day of August and its time in parts.
    pub molad_august: u64,
    pub molad_part: u64,
    // i and f, after the noon step.
    pub august: u64,
    pub part: u64,
    // w, Saturday being 0.
    pub weekday: u64,
    // Her delay, from i on.
    pub delay: u64,
    // The cause of the whole delay, from i' on.
    pub cause: u64,
}

// Her delay, from i on, and the cause of the whole delay, from i' on.
#[derive(Drop)]
pub struct Late {
    pub delay: u64,
    pub cause: u64,
}

// Both, from the noon step, n, w and f, for every value of them.
pub fn late_by(past_noon: bool, place: u64, weekday: u64, part: u64) -> Late
    ensures { IsLate past_noon place weekday part result }
{
    let closed = (weekday == 1) | ((weekday == 4) | (weekday == 6));
    let monday = (weekday == 2) & (11 < place) & (16789 <= part);
    let tuesday = (weekday == 3) & (6 < place) & (9924 <= part);
    let noon = u64::from(past_noon);
    Late {
        delay: laws::pick(closed, 1, laws::pick(monday, 1, laws::pick(tuesday, 2, 0))),
        cause: laws::pick(
            closed,
            noon + 2,
            laws::pick(monday, 5, laws::pick(tuesday, 4, noon)),
        ),
    }
}

// A step, for the years 1 to 10,000.
pub fn route_of(year: u64) -> Route
    requires { InNewYears year }
    ensures { IsRoute year result }
{
    let place = (12 * year + 5) % 19;
    let since_leap = (year - 1) % 4;
    let distance = 20_584_320 + 765_433 * place + 123_120 * since_leap - 1565 * year;
    let molad_august = distance / 492_480;
    let molad_part = distance % 492_480 / 19;
    let past_noon = 19440 <= molad_part;
    let august = laws::pick(past_noon, molad_august + 1, molad_august);
    let part = molad_part - laws::pick(past_noon, 19440, 0);
    let weekday = (august + 1 + 5 * since_leap + 3 * year) % 7;
    let late = late_by(past_noon, place, weekday, part);
    Route {
        place,
        since_leap,
        distance,
        molad_august,
        molad_part,
        august,
        part,
        weekday,
        delay: late.delay,
        cause: late.cause,
    }
}
