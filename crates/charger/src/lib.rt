// When to begin charging, so that the bank is charged when the next stretch begins.
//
// The hall draws from the bank on every day of a stretch. Between stretches a charger fills it, at so much an hour. How late
// may it begin?
//
// Hours are counted on: day J begins with hour 24 × J, at 18:00 the evening before.
//
// Here stand the rules, in specs/, and what follows from them. Of the calendar they ask which stretch is next. The code
// is in `charger_code`.
#![tactic(auto)]

// What is known of hall, bank and charger, in watt-hours.
#[derive(Clone, Copy)]
pub struct Figures {
    // What the hall draws in a day.
    pub draw: u64,
    // What the bank can hold.
    pub capacity: u64,
    // What the charger gives in an hour.
    pub rate: u64,
    // What the bank holds now, and until charging begins.
    pub charge: u64,
}

// C is given this by bd_charge_start: the refusal is a number, and zeros stand beside it.
#[repr(C)]
#[derive(Default, Drop)]
pub struct ChargeAnswer {
    pub refusal: u64,
    // The latest hour to begin, and the hours that charging takes.
    pub start: u64,
    pub hours: u64,
    // The stretch that it is for.
    pub first: u64,
    pub length: u64,
}
