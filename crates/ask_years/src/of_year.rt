// The calls of a year.
use answering::Answer;
use newyear::NewYearAnswer;

#[derive(Clone, Copy)]
pub enum OfYear {
    NewYear,
    NewYearRhodes,
    Year,
    Kind,
    RoutesDiffer,
    Marks,
    MonthsBefore,
    RhodesSteps,
}

impl OfYear {
    pub fn named(name: &[u8]) -> Option<Self> {
        match name {
            b"new_year" => Some(OfYear::NewYear),
            b"new_year_rhodes" => Some(OfYear::NewYearRhodes),
            b"year" => Some(OfYear::Year),
            b"kind" => Some(OfYear::Kind),
            b"routes_differ" => Some(OfYear::RoutesDiffer),
            b"marks" => Some(OfYear::Marks),
            b"months_before" => Some(OfYear::MonthsBefore),
            b"rhodes_steps" => Some(OfYear::RhodesSteps),
            _ => None,
        }
    }

    // A step takes a range, and what lies outside it is not understood.
    pub fn answer(self, year: u64) -> Option<Answer> {
        match self {
            OfYear::NewYear => Some(new_year(newyear_code::new_year(year))),
            OfYear::NewYearRhodes => Some(new_year(rhodes_code::new_year_rhodes(year))),
            OfYear::Year => Some(whole_year(year)),
            OfYear::Kind => Some(kind(year)),
            OfYear::RoutesDiffer => Some(Answer::from([u64::from(routes_differ(year))])),
            OfYear::Marks => Some(marks(year)),
            OfYear::MonthsBefore => months_before(year),
            OfYear::RhodesSteps => rhodes_steps(year),
        }
    }
}

fn new_year(y: NewYearAnswer) -> Answer {
    Answer::from([
        y.refusal,
        y.day,
        y.weekday,
        y.molad_day,
        y.molad_hour,
        y.molad_part,
        y.delay,
        y.cause,
    ])
}

fn whole_year(year: u64) -> Answer {
    let y = newyear_code::year(year);
    Answer::from([
        y.refusal, y.new_year, y.weekday, y.length, y.months, y.delay, y.cause,
    ])
}

fn kind(year: u64) -> Answer {
    let k = newyear_code::kind(year);
    Answer::from([k.refusal, k.kind, k.weekday, k.length])
}

fn routes_differ(year: u64) -> bool {
    newyear_code::new_year(year) != rhodes_code::new_year_rhodes(year)
}

fn marks(year: u64) -> Answer {
    let before = newyear_code::kind(year.wrapping_sub(1));
    let kind = newyear_code::kind(year);
    Answer::from([newyear_code::new_year(year).cause, kind.kind, before.kind])
}

fn months_before(year: u64) -> Option<Answer> {
    if !(1..=10_001).contains(&year) {
        return None;
    }
    Some(Answer::from([molad_code::months_before(year).months]))
}

fn rhodes_steps(year: u64) -> Option<Answer> {
    if !(1..=10_000).contains(&year) {
        return None;
    }
    let r = rhodes_code::route_of(year);
    Some(Answer::from([
        r.place,
        r.since_leap,
        r.distance,
        r.molad_august,
        r.molad_part,
        r.august,
        r.part,
        r.weekday,
        r.delay,
        r.cause,
    ]))
}
