// The fasts of a year. A lent buffer is as its owner's contract leaves it.
ghost use Rattle.std.specs.Prelude.{◌≡◌};
ghost use Rattle.face.specs.Face.{bd_fasts, bd_fasts_leaves};

#[unsafe(no_mangle)]
pub extern "C" fn bd_fasts(year: u64, out: &mut [u64]) -> lists::ListAnswer
    ensures { (result ≡ bd_fasts year out.old) × (out.new ≡ bd_fasts_leaves year out.old) }
{
    fasts_code::fasts(year, out)
}
