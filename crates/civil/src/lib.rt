// Which Julian or Gregorian date is day J, and which day is a date.
//
// Both calendars have the same twelve months and differ only in their leap years: a Julian year is leap if 4 divides
// it, a Gregorian one also, but not if 100 divides it and 400 does not. Each is carried back without a break, with a
// year 0, to −3760, so a year's own number decides at any time. Inside, a year is counted as year + 4,000, its raised
// year.
//
// Here stand the rules, in specs/, and what follows from them. The code is in `civil_months`, `civil_years` and
// `civil_code`.
#![tactic(auto)]

// The day number of a civil date, or why there is none.
// C is given this by bd_julian_to_day and bd_gregorian_to_day: the refusal is a number, and zeros stand beside it.
#[repr(C)]
#[derive(Default, Drop)]
pub struct CivilDay {
    pub refusal: u64,
    pub day: u64,
}

// The civil date of a day number, or why there is none.
// C is given this by bd_day_to_julian and bd_day_to_gregorian: the refusal is a number, and zeros stand beside it.
#[repr(C)]
#[derive(Default, Drop)]
pub struct CivilDate {
    pub refusal: u64,
    pub year: i64,
    pub month: u64,
    pub day: u64,
}
