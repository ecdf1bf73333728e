// Which Hebrew date is a day, and which day is a date.
//
// A date is a year 1 to 9999, a month's code 1 to 13 and a day. Codes count from Tishri; code 6, Adar I, is a month of
// leap years only, so that code 7 is Adar in a common year and Adar II in a leap year. Months have 30 and 29 days in
// turn, but for Marheshvan and Kislev, which a year's length tells, and Adar I.
//
// Here stand the rules, in specs/, and what follows from them. The code is in `hebrew_months` and
// `hebrew_code`.
#![tactic(auto)]

// C is given this by bd_month_length: the refusal is a number, and zeros stand beside it.
#[repr(C)]
#[derive(Default, Drop)]
pub struct MonthAnswer {
    pub refusal: u64,
    pub days: u64,
}

// C is given this by bd_hebrew_to_day: the refusal is a number, and zeros stand beside it.
#[repr(C)]
#[derive(Default, Drop)]
pub struct HebrewDay {
    pub refusal: u64,
    pub day: u64,
}

// C is given this by bd_day_to_hebrew: the refusal is a number, and zeros stand beside it.
#[repr(C)]
#[derive(Default, Drop)]
pub struct HebrewDate {
    pub refusal: u64,
    pub year: u64,
    pub month: u64,
    pub day: u64,
    pub new_year: u64,
    pub length: u64,
    // Counted from 1.
    pub day_of_year: u64,
}

// A date of a year. It may hold any numbers, as the definition `tomorrow` makes one of any; where they must be small, a clause
// says so.
#[derive(Clone, Copy)]
pub struct YearDate {
    // Days after New Year.
    pub after: u64,
    pub month: u64,
    pub day: u64,
}
