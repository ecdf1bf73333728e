// What the molad notice shows.
//
// The notice gives the molad on the clock, beside the civil day on which the clock stands. Hours of the molad count from
// 18:00, those of the clock from midnight, so the clock's hour is six less. A molad in the first six hours of its Hebrew
// day falls on the civil evening before: the day shown is the one before, with 24 hours more. A minute has 18 parts.
//
// Here stand the rules, in specs/, and what follows from them. The code is in `notice_code`.
#![tactic(auto)]

// C is given this by bd_notice: the refusal is a number, and zeros stand beside it.
#[repr(C)]
#[derive(Default, Drop)]
pub struct NoticeAnswer {
    pub refusal: u64,
    pub day: u64,
    pub weekday: u64,
    pub hour: u64,
    pub minute: u64,
    pub part: u64,
}
