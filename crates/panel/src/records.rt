// The panel's day record. It is lent, and the whole of it is written back: a refused call writes what stood there.
ghost use Rattle.std.specs.Prelude.{◌≡◌};
ghost use Rattle.face.specs.Face.{bd_record_set, bd_record_next, bd_record_back};

use record::DayRecord;

#[unsafe(no_mangle)]
pub extern "C" fn bd_record_set(lent: &mut DayRecord, wing: u64, day: u64) -> u64
    ensures { (result ≡ (bd_record_set lent.old wing day).refusal) × (lent.new ≡ (bd_record_set lent.old wing day).after) }
{
    let m = record_code::set(*lent, wing, day);
    *lent = m.after;
    m.refusal
}

#[unsafe(no_mangle)]
pub extern "C" fn bd_record_next(lent: &mut DayRecord) -> u64
    ensures { (result ≡ (bd_record_next lent.old).refusal) × (lent.new ≡ (bd_record_next lent.old).after) }
{
    let m = record_code::next(*lent);
    *lent = m.after;
    m.refusal
}

#[unsafe(no_mangle)]
pub extern "C" fn bd_record_back(lent: &mut DayRecord) -> u64
    ensures { (result ≡ (bd_record_back lent.old).refusal) × (lent.new ≡ (bd_record_back lent.old).after) }
{
    let m = record_code::back(*lent);
    *lent = m.after;
    m.refusal
}
