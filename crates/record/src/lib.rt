// The record that a panel keeps of a day: the day number, the wing, the Hebrew date, the stretch that answers, days left,
// the days that remain in the year, and the fast ahead.
//
// A record is new, all zeros, until it is set to a day of a wing. Then it is moved on a day or moved back a day, each time
// from what it holds. What it then tells is what would be worked out afresh.
//
// Here stand the rules, in specs/, and what follows from them. The code is in `record_code`.
#![tactic(auto)]

// C keeps it, as bd_record: so its wing is a number, and a flag stands beside the stretch and the fast.
#[repr(C)]
#[derive(Clone, Copy, Default, PartialEq)]
pub struct DayRecord {
    pub day: u64,
    pub wing: u64,
    pub year: u64,
    pub month: u64,
    pub date: u64,
    pub first: u64,
    pub length: u64,
    pub days_left: i64,
    // 1 where no stretch is left; then the three before it are 0.
    pub none: u64,
    // The days after the day and before the next New Year.
    pub remaining: u64,
    // The next fast, on the day or later: its month code, and the days left until it.
    pub fast_month: u64,
    pub fast_left: u64,
    // 1 where no fast is left in range; then the two before it are 0.
    pub no_fast: u64,
}

// A call's refusal number, and the record as the call leaves it: what the definitions `set_to`, `next_of` and `back_of` tell.
#[derive(Drop)]
pub struct Moved {
    pub refusal: u64,
    pub after: DayRecord,
}

// What a record tells of a day by the year that holds it.
#[derive(Clone, Copy)]
pub struct Dated {
    pub year: u64,
    pub month: u64,
    pub date: u64,
    pub remaining: u64,
}
