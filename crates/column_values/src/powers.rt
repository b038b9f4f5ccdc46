//! Powers of ten.

ghost use Rattle.std.specs.Prelude.{◌≡◌, ◌≤◌, ◌^◌};

/// 10 to the power `digits`.
pub fn ten_to(digits: usize) -> u128
    requires { digits ≤ 38 }
    ensures value { result ≡ 10 ^ digits }
    ensures some { 1 ≤ result }
{
    10u128.pow(digits as u32)
}
