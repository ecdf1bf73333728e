// Why a question has no answer. Inside the library it is said by name; C and the programs tell its number.
#![tactic(auto)]

ghost use Rattle.std.specs.Prelude.{◌≡◌};
ghost use Rattle.refusals.specs.Refusals.{number_of};

#[derive(Clone, Copy, PartialEq, Eq)]
pub enum Refusal {
    // A Hebrew year outside 1..9999, or for New Years 1..10,000, or one that is not on the sheet.
    BadYear = 1,
    // A code that is no month of the year.
    BadMonth = 2,
    // A day outside its Hebrew month.
    BadDay = 3,
    // A day number outside the range.
    DayOutOfRange = 4,
    // A civil year that is not covered.
    BadCivilYear = 5,
    // A civil month outside 1..12.
    BadCivilMonth = 6,
    // A civil day outside its month.
    BadCivilDay = 7,
    // A good civil date whose day number lies outside the range.
    CivilDateOutOfRange = 8,
    // No stretch is left in range.
    NoStretch = 9,
    // The lent buffer has no room for the list or the sheet.
    BufferTooShort = 10,
    // Years of a sheet that are not 1 to 100.
    BadYearCount = 11,
    // A figure of charging outside its range.
    BadFigure = 12,
    // The stretch needs more than the bank can hold.
    NeedExceedsCapacity = 13,
    // The hours of charging do not fit before the stretch.
    HoursDoNotFit = 14,
    // A wing, or the number of a sheet, that is neither 1 nor 2.
    BadWing = 15,
    // A loaded sheet of too few bytes for a header.
    SheetTooShort = 16,
    // A loaded sheet's count of years, or its first or last year, is none that a writer puts there.
    BadSheetYears = 17,
    // Header, index and size of a loaded sheet do not fit each other.
    BadSheetLayout = 18,
    // Rows, wing or years' lengths of a loaded sheet are not the calendar's.
    BadSheetContent = 19,
}

impl Refusal {
    pub fn number(self) -> u64
        ensures { result ≡ number_of self }
    {
        self as u64
    }
}
