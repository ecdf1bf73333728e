// Which stretch of a wing's rest days is next.
//
// Rest days next to each other form a stretch of one to three days. No stretch crosses a New Year, 29 Elul never being a
// rest day and 1 Tishri always.
//
// Here stand the rules, in specs/, and what follows from them. The code is in `stretch_code`.
#![tactic(auto)]

// C is given this by bd_stretch: the refusal is a number, and zeros stand beside it.
#[repr(C)]
#[derive(Default, Drop)]
pub struct StretchAnswer {
    pub refusal: u64,
    pub first: u64,
    pub length: u64,
    pub days_left: i64,
}
