ghost use Rattle.std.specs.Prelude.{IfOk};

use wire_io::NoMemory;

/// Values of which an equal one can be had.
pub trait Keep {
    ghost alike: { Self → Self → Type 0 };

    /// An equal value: one that is alike.
    fn keep(&self) -> Result<Self, NoMemory>
    where
        Self: Sized,
        ensures { IfOk result (alike self.now) };

    ghost same: { (x : Self) → alike x x };

    ghost further: { (x y z : Self) → alike x y → alike y z → alike x z };
}
