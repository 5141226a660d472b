// Times in milliseconds as the beacon announces them: rounded to the nearest whole number, a tie away from zero. Its laws are of IEEE 754 arithmetic, smoothing among them.
#![tactic(auto)]

ghost use Rattle.std.specs.Prelude.{◌≡◌};
ghost use Rattle.rounding.specs.Round.{announced};

// x rounded so, and then brought into 0 to 65,535.
#[tactic(auto, using(crate::proofs::Rounding::rounds))]
pub fn whole_ms(x: f64) -> u16
    ensures { result ≡ announced x }
{
    std::num::saturating_f64_to_u16(x.round())
}
