// One of two.
ghost use Rattle.std.specs.Prelude.{◌≡◌, cond};

pub fn pick<T: Copy>(c: bool, a: T, b: T) -> T
    ensures { result ≡ cond c a b }
{
    if c { a } else { b }
}
