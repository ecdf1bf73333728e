// The C face: what the panel's own program, in C, calls.
//
// Each export asks the crate that owns its question, passes every number on as it came and gives that crate's answer
// back. Its contract is an equation with its own name in `face`, which is that crate's answer, and the law of one result is
// shown there. Nothing is decided here. An answer is a struct of 64-bit numbers that begins with the refusal number; a list
// goes into numbers that the caller lends, and a sheet into bytes: a pointer and then how many. A call that is lent a record
// tells the refusal alone; so does a walk when it begins, and then a row or no more. `include/bournedrouth.h` says the same
// to C.
#![tactic(auto)]

mod charging;
mod civil_dates;
mod fast_days;
mod hebrew_dates;
mod new_years;
mod records;
mod rest_days;
mod sheets;

pub use charging::bd_charge_start;
pub use civil_dates::{
    bd_day_to_gregorian, bd_day_to_julian, bd_gregorian_to_day, bd_julian_to_day, bd_weekday,
};
pub use fast_days::bd_fasts;
pub use hebrew_dates::{bd_day_to_hebrew, bd_hebrew_to_day, bd_month_length};
pub use new_years::{
    bd_kind, bd_molad, bd_new_year, bd_new_year_rhodes, bd_notice, bd_year, bd_year_of_day,
};
pub use records::{bd_record_back, bd_record_next, bd_record_set};
pub use rest_days::{bd_rest_days, bd_stretch, bd_stretches};
pub use sheets::{bd_sheet_rows, bd_sheet_write, bd_sheets_rows, bd_walk_begin, bd_walk_next};
