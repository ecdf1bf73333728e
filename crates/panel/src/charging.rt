// When charging must begin.
ghost use Rattle.std.specs.Prelude.{◌≡◌};
ghost use Rattle.face.specs.Face.{bd_charge_start};

#[unsafe(no_mangle)]
pub extern "C" fn bd_charge_start(
    wing: u64,
    day: u64,
    draw: u64,
    capacity: u64,
    rate: u64,
    charge: u64,
) -> charger::ChargeAnswer
    ensures { result ≡ bd_charge_start wing day draw capacity rate charge }
{
    charger_code::charge_start(wing, day, draw, capacity, rate, charge)
}
