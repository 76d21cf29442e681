// A point's type.
ghost use Rattle.std.specs.Prelude.{◌≤◌};

#[derive(Clone, Copy)]
pub struct PointType {
    pub width: u8,
    pub signed: bool,
    ghost wide: { (1 ≤ width) × (width ≤ 32) },
}
