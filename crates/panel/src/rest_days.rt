// Rest days and stretches, of the wing that is named first. A lent buffer is as its owner's contract leaves it.
ghost use Rattle.std.specs.Prelude.{◌≡◌};
ghost use Rattle.face.specs.Face.{bd_stretch, bd_rest_days, bd_rest_days_leaves, bd_stretches, bd_stretches_leaves};

#[unsafe(no_mangle)]
pub extern "C" fn bd_stretch(wing: u64, day: u64) -> stretch::StretchAnswer
    ensures { result ≡ bd_stretch wing day }
{
    stretch_code::stretch(wing, day)
}

#[unsafe(no_mangle)]
pub extern "C" fn bd_rest_days(wing: u64, year: u64, out: &mut [u64]) -> lists::ListAnswer
    ensures { (result ≡ bd_rest_days wing year out.old) × (out.new ≡ bd_rest_days_leaves wing year out.old) }
{
    rest_code::rest_days(wing, year, out)
}

#[unsafe(no_mangle)]
pub extern "C" fn bd_stretches(wing: u64, year: u64, out: &mut [u64]) -> lists::ListAnswer
    ensures { (result ≡ bd_stretches wing year out.old) × (out.new ≡ bd_stretches_leaves wing year out.old) }
{
    stretches_code::stretches(wing, year, out)
}
