// The places of a cross in an accepted table, and its shape.
ghost use Rattle.std.specs.Prelude.{◌≡◌, take};
ghost use Rattle.model.specs.Format.{table_of};
ghost use Rattle.model.specs.Register.{point_total};
ghost use Rattle.arrays.specs.Flat.{cover_counts};
ghost use Rattle.products.specs.Shapes.{Fits, Stands};

use crate::shapes::{Shape, inner_of, parts_at, sizes_of};
use words::bytes::byte;

// The cross's number, where its record stands, where its bins begin, and where their tokens begin.
#[derive(Clone, Copy)]
pub struct Place {
    pub number: usize,
    pub cross: usize,
    pub bins: usize,
    pub tokens: usize,
}

// Where a cross stands, and its shape.
#[derive(Clone, Copy)]
pub struct Crossed {
    pub place: Place,
    pub shape: Shape,
}

// `counts` says how many parts each point has.
pub fn shape_of(t: &[u8], counts: &[u16], p: Place) -> Shape
    requires { Stands t.now p × (take (point_total (table_of t.now)) counts.now ≡ cover_counts (table_of t.now)) }
    ensures { Fits (table_of t.now) p.number result }
{
    let at = p.cross;
    let count = byte(t, at) as usize;
    let size = sizes_of(t, at, counts);
    let parts = Shape {
        count,
        size,
        total: 0,
    };
    let first = parts_at(parts, 0);
    let inner = inner_of(parts, 0);
    Shape {
        count,
        size,
        total: first * inner,
    }
}
