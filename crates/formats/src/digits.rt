ghost use Rattle.std.specs.Prelude.{◌≡◌};
ghost use Rattle.format_model.specs.Levels.{bits};

/// How many binary digits a number has; 0 has none.
pub fn bits(number: u64) -> u64
    ensures { result ≡ bits number }
{
    (u64::BITS - number.leading_zeros()) as u64
}
