ghost use Rattle.std.specs.Prelude.{◌≡◌, ◌==◌, ◌↔◌, IsTrue};
ghost use Rattle.std.specs.List.{list_any};
ghost use Rattle.bmp_specs.specs.Attributes.{read_types};
ghost use Rattle.path_attrs.specs.Field.{HasShape};

use wire_tables::{Shape, attribute_rows, fits_shape};

// Whether a row has the code.
macro_rules! is_row {
    ([$code:ident] $($row:literal, $shape:expr, $name:literal;)*) => {
        matches!($code, $($row)|*)
    };
}

/// Whether attributes of the type are read: exactly those that have a row in `attribute_table`.
#[inline]
pub fn is_read_type(code: u8) -> bool
    ensures { result ≡ list_any (λ c. c == code) read_types }
{
    attribute_rows!(is_row code)
}

// Whether so many bytes have the shape of the row with the code, where there is one.
macro_rules! fits_row {
    ([$code:ident $bytes:ident] $($row:literal, $shape:expr, $name:literal;)*) => {
        match $code {
            $($row => fits_shape($shape, $bytes),)*
            _ => true,
        }
    };
}

/// Whether a value of so many bytes has the shape that `attribute_table` has for the type. A type without a row
/// takes any.
#[inline(always)]
pub(crate) fn has_shape(code: u8, bytes: usize) -> bool
    ensures { IsTrue result ↔ HasShape code bytes }
{
    attribute_rows!(fits_row code bytes)
}
