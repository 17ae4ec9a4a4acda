ghost use Rattle.std.specs.Prelude.{◌≡◌, ℕ, List};
ghost use Rattle.station_top.specs.Drill.{IsDrillText};
ghost use Rattle.station_top.specs.Kept.{KeepsRecalls, KeepsReplays};

/// Three numbers have one drill: two texts that are its are equal. It does nothing: it tells this to a proof.
pub fn drills_have_one_text()
    ensures { (seed lanes messages : ℕ) (a b : List ℕ) (s : IsDrillText seed lanes messages a) (t : IsDrillText seed lanes messages b) → a ≡ b }
{}

/// Words of `replay` and `recall` whose query is one of `bmp_specs` have its replies, and no others.
pub fn queries_keep_their_replies()
    ensures { KeepsReplays × KeepsRecalls }
{}
