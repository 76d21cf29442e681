// Guard fields.
ghost use Rattle.std.specs.Prelude.{◌≡◌};
ghost use Rattle.model.specs.Format.{guard_ok, bin_guard_ok};

pub fn guard_ok(g: u8) -> bool
    ensures { result ≡ guard_ok g }
{
    (g <= 63) | (g == 255)
}

// An ignore bin has no guard. The kind is its byte, which is not tested yet.
pub fn bin_guard_ok(kind: u8, g: u8) -> bool
    ensures { result ≡ bin_guard_ok kind g }
{
    guard_ok(g) & (!(kind == 1) | (g == 255))
}
