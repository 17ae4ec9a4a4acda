ghost use Rattle.std.specs.Prelude.{◌↔◌, List, Option, IsTrue, option_copied};
ghost use Rattle.bmp_specs.specs.AsPath.{ArePath};
ghost use Rattle.bmp_specs.specs.Attributes.{Optional};
ghost use Rattle.bmp_specs.specs.UpdateForms.{HasNoAsZero};
ghost use Rattle.bmp_specs.specs.Values.{SegmentValue};
ghost use Rattle.path_attrs.specs.Framed.{HasValueIn};

use crate::frame::frame_attrs;
use crate::judge::judge_attrs;
use as_path::{AsPath, Width};

// Whether no AS number of AS_PATH is 0, where it is there.
fn path_has_no_zero(as_path: Option<&[u8]>, width: Width) -> bool
    ensures { (path : Option (List SegmentValue)) → Optional (ArePath width) (option_copied as_path.entry) path → IsTrue result ↔ HasNoAsZero path }
{
    match as_path {
        None => true,
        Some(value) => AsPath::has_no_zero(value, width),
    }
}

/// Whether the "Path Attributes" of an UPDATE message have a value with AS numbers of this width (RFC 4271, section
/// 4.3; RFC 6793), and, where `nonzero` asks for it, AS_PATH has no AS number 0 (RFC 7607, section 2). Takes no memory.
pub fn fits_width(field: &[u8], width: Width, nonzero: bool) -> bool
    ensures { IsTrue result ↔ HasValueIn width field.now nonzero }
{
    match judge_attrs(field, width) {
        None => false,
        Some(_) => match nonzero {
            false => true,
            true => match frame_attrs(field) {
                None => false,
                Some(framed) => path_has_no_zero(framed.as_path, width),
            },
        },
    }
}
