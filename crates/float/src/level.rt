// 01, section 4: a Q15 level as f32.
ghost use Rattle.std.specs.Prelude.{◌≡◌};
ghost use Rattle.float.specs.Level.{level, IsLevel};

use q15::Q15;

// The bits divided by 32768.0, exact.
pub fn q15_to_f32(q: Q15) -> f32
    ensures value { result ≡ level q.0 }
    ensures exact { IsLevel q.0 result }
{
    f32::from(q.0) / 32768.0
}
