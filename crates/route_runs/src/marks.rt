ghost use Rattle.std.specs.Prelude.{◌≡◌, ◌+◌, ◌*◌, ◌%◌, ◌<◌};
ghost use Rattle.route_runs.specs.NumberKeys.{mark_of, id_of, id_at};

// The length of a prefix twice, and one more where there is a path identifier; and the identifier, or zero.
pub(crate) fn marked(bits: u8, id: Option<u32>) -> (u32, u32)
    ensures bits { result.0 ≡ bits * 2 + mark_of id }
    ensures id { result.1 ≡ id_of id }
    ensures fits { result.1 < 4294967296 }
{
    let twice = bits as u32 * 2;
    match id {
        Some(id) => (twice + 1, id),
        None => (twice, 0),
    }
}

// The path identifier, where there is one.
pub(crate) fn unmarked(bits: u32, id: u32) -> Option<u32>
    ensures { result ≡ id_at (bits % 2) id }
{
    if bits % 2 == 0 {
        return None;
    }
    Some(id)
}
