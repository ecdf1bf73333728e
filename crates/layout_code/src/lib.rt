// The code that stores a sheet's numbers into lent bytes and reads them. What is stored goes to a place that has room for it,
// and what stands elsewhere stays; what is read is read from a place that has so many bytes.
#![tactic(auto)]

ghost use Rattle.std.specs.Prelude.{◌≡◌, ◌+◌, ◌≤◌, ◌^◌, ◌<◌, length as list_length};
ghost use Rattle.std.proofs.lemmas.List.Edits.{sets};
ghost use Rattle.layout.specs.Layout.{little_endian, header_bytes, entry_bytes, row_bytes};
ghost use Rattle.layout.specs.Reading.{Bytes, number_at};

// The number in so many bytes, the lowest first. What they cannot hold is cut.
fn put<const BYTES: usize>(out: &mut [u8], at: usize, x: u64)
    requires { (BYTES ≤ 8) × (at + BYTES ≤ list_length out.old) }
    ensures { out.new ≡ sets out.old at (little_endian BYTES x) }
{
    out[at..at + BYTES].copy_from_slice(&x.to_le_bytes()[..BYTES]);
}

// A step: the header of a sheet of so many years from the first year on, with so many rows.
pub fn put_header(out: &mut [u8], years: u64, first_year: u64, rows: u64)
    requires { (16 ≤ list_length out.old) × (years ≤ 100) }
    ensures { out.new ≡ sets out.old 0 (header_bytes years first_year rows) }
{
    put::<2>(out, 0, years);
    put::<2>(out, 2, first_year);
    put::<4>(out, 4, rows);
    put::<4>(out, 8, 16);
    put::<4>(out, 12, 16 + 8 * years);
}

// A step: an entry of the index. It tells where the year's first row stands, how many rows it has, and the year's length
// in days.
pub fn put_entry(out: &mut [u8], at: usize, offset: u64, rows: u64, days: u64)
    requires { at + 8 ≤ list_length out.old }
    ensures { out.new ≡ sets out.old at (entry_bytes offset rows days) }
{
    put::<4>(out, at, offset);
    put::<2>(out, at + 4, rows);
    put::<2>(out, at + 6, days);
}

// A step: a stretch's row. It has its first day, its length in days, and the wing.
pub fn put_row(out: &mut [u8], at: usize, wing: u64, first: u64, days: u64)
    requires { at + 6 ≤ list_length out.old }
    ensures { out.new ≡ sets out.old at (row_bytes wing first days) }
{
    put::<4>(out, at, first);
    put::<1>(out, at + 4, days);
    put::<1>(out, at + 5, wing);
}

// That each number of a lent slice of bytes is below 256, which theorems ask of a list, said of every slice. Nothing is done
// there, and nobody needs to call it.
pub fn all_bytes(bytes: &[u8])
    ensures { Bytes bytes.now }
{}

// A step: the number in so many bytes from a place on.
pub fn number_at<const BYTES: usize>(bytes: &[u8], at: usize) -> u64
    requires { (BYTES ≤ 8) × (at + BYTES ≤ list_length bytes.now) }
    ensures { (result ≡ number_at bytes.now at BYTES) × (result < 256 ^ BYTES) }
{
    let mut all = [0u8; 8];
    all[..BYTES].copy_from_slice(&bytes[at..at + BYTES]);
    u64::from_le_bytes(all)
}
