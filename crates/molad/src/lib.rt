// When is the molad of a month, and how many months come before a year.
//
// A molad is the moment at which a month begins by reckoning: moladot follow each other at one even distance, the length
// of a month, from a first one on.
//
// An hour has 1,080 parts, a day 25,920, and a month 765,433: 29 days and 13,753 parts. The first molad is that of
// Tishri of year 1, on J 347,998 at 5 hours 204 parts; hours count from 18:00 the evening before. Nineteen years have
// 235 months, seven of those years being leap, so the months before a year are a quotient by 19 and what that division
// leaves tells whether the year, and the one before it, is leap.
//
// Here stand the rules, in specs/, and what follows from them. The code is in `molad_code`.
#![tactic(auto)]

// C is given this by bd_molad: the refusal is a number, and zeros stand beside it.
#[repr(C)]
#[derive(Default, Drop)]
pub struct MoladAnswer {
    pub refusal: u64,
    pub day: u64,
    pub hour: u64,
    pub part: u64,
}
