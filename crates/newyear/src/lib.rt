// On which day does a Hebrew year begin, and why then; how long is it, of which kind, and which year holds a day.
//
// New Year is the day of the molad of Tishri, or one or two days later (`delays`). The answers tell the delay in days and
// its cause, 0 to 5. A year's length is the distance to the next New Year: 353, 354 or 355 days in a common year, 383, 384
// or 385 in a leap year. New Year's weekday and the length are a year's kind, one of fourteen, which alone fixes the
// weekday of every date.
//
// Here stand the rules, in specs/, and what follows from them. The code is in `newyear_code`.
#![tactic(auto)]

// C is given this by bd_new_year and bd_new_year_rhodes: the refusal is a number, and zeros stand beside it.
#[repr(C)]
#[derive(Default, Drop, PartialEq)]
pub struct NewYearAnswer {
    pub refusal: u64,
    pub day: u64,
    pub weekday: u64,
    pub molad_day: u64,
    pub molad_hour: u64,
    pub molad_part: u64,
    pub delay: u64,
    pub cause: u64,
}

// C is given this by bd_year: the refusal is a number, and zeros stand beside it.
#[repr(C)]
#[derive(Default, Drop)]
pub struct YearAnswer {
    pub refusal: u64,
    pub new_year: u64,
    pub weekday: u64,
    pub length: u64,
    pub months: u64,
    pub delay: u64,
    pub cause: u64,
}

// C is given this by bd_kind: the refusal is a number, and zeros stand beside it.
#[repr(C)]
#[derive(Default, Drop)]
pub struct KindAnswer {
    pub refusal: u64,
    pub kind: u64,
    pub weekday: u64,
    pub length: u64,
}

// C is given this by bd_year_of_day: the refusal is a number, and zeros stand beside it.
#[repr(C)]
#[derive(Default, Drop)]
pub struct YearOfDayAnswer {
    pub refusal: u64,
    pub year: u64,
}
