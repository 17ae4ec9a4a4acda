ghost use Rattle.std.specs.Prelude.{◌↔◌, IsTrue};
ghost use Rattle.bmp_specs.specs.Registries.{FitsShape};

use bmp_specs::Shape;

/// Whether a value of so many bytes has the shape. Where the shape is a constant, this is one comparison.
#[inline(always)]
pub fn fits_shape(shape: Shape, bytes: usize) -> bool
    ensures { IsTrue result ↔ FitsShape shape bytes }
{
    match shape {
        Shape::Counter32 => bytes == 4,
        Shape::Gauge64 => bytes == 8,
        Shape::FamilyGauge64 => bytes == 11,
        Shape::Exact(count) => bytes == count as usize,
        Shape::Multiple(0) => bytes == 0,
        Shape::Multiple(count) => bytes % count as usize == 0,
        Shape::Free => true,
    }
}
