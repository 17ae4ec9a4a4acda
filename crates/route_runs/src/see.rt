ghost use Rattle.std.specs.Prelude.{◌≡◌, ℕ, ◌<◌, Some};
ghost use Rattle.std.specs.List.{All};
ghost use Rattle.route_runs.specs.Nlri.{IsNlri};

use ip_prefix::Nlri;

// A path identifier has 32 bits.
fn see_id(id: Option<u32>)
    ensures { (i : ℕ) → id ≡ Some i → i < 4294967296 }
{
    match id {
        Some(id) => see_number(id),
        None => (),
    }
}

// A number has 32 bits.
fn see_number(number: u32)
    ensures { number < 4294967296 }
{}

/// An NLRI is one.
pub(crate) fn see(nlri: &Nlri)
    ensures { IsNlri nlri.now }
{
    // A prefix has no more bits than its family.
    let _bits = nlri.prefix.bits();
    see_id(nlri.id);
}

/// Each NLRI of a list is one.
pub(crate) fn see_all(list: &[Nlri])
    ensures { All IsNlri list.now }
{
    for nlri in list {
        see(nlri);
    }
}
