// What a year's length tells of its months. It is told of any number: a length that has to be one of the six says so where it
// is taken.
ghost use Rattle.std.specs.Prelude.{◌≡◌, ◌||◌, eqb, leb};

// Has the year an Adar I?
pub fn is_leap(length: u64) -> bool
    ensures { result ≡ leb 383 length }
{
    383 <= length
}

// Has Marheshvan 30 days?
pub fn long_marheshvan(length: u64) -> bool
    ensures { result ≡ eqb length 355 || eqb length 385 }
{
    (length == 355) | (length == 385)
}

// Has Kislev 29 days?
pub fn short_kislev(length: u64) -> bool
    ensures { result ≡ eqb length 353 || eqb length 383 }
{
    (length == 353) | (length == 383)
}
