ghost use Rattle.std.specs.Prelude.{◌≡◌, ◌≤◌, length, IfSome, IfNone};
ghost use Rattle.ask_specs.specs.Traits.{no_traits};
ghost use Rattle.ask_specs.specs.TraitText.{most_through};
ghost use Rattle.query_lang.specs.TraitValues.{traits_value};

use std::marker::Model;

// How many AS numbers `through` names at most.
const MOST_THROUGH: usize = 4;

/// One to four AS numbers, in their order. They take no memory.
#[derive(Clone, Copy, Debug, PartialEq, Eq)]
pub struct Asns {
    numbers: [u32; MOST_THROUGH],
    count: usize,
}

impl Model for Asns {
    ghost use Rattle.std.specs.Prelude.{◌≡◌, ℕ, ◌≤◌, ◌-◌, List, ◌++◌, length, take, drop, replicate};
    ghost use Rattle.query_lang.specs.AsnsLaws.{filled, some_filled};

    ghost Value = { List ℕ };

    ghost view = { λ a. take a.count a.numbers };

    // the places behind the last number are 0
    ghost invariant = { λ a. (1 ≤ a.count) × (a.count ≤ 4) × (length a.numbers ≡ 4) × (drop a.count a.numbers ≡ replicate (4 - a.count) 0) };

    ghost inverse = { λ l. record { numbers = l ++ replicate (4 - length l) 0; count = length l } };

    ghost inverse_ok = { λ a h i. record {
      numbers = filled a.count a.numbers h.1 h.2 h.3 i;
      count = some_filled a.count a.numbers h.1 h.2 i;
    } };
}

impl Asns {
    /// The numbers as they stand. None exactly where there are none, or more than four.
    pub fn new(numbers: &[u32]) -> Option<Asns>
        ensures some { IfSome result (λ a. a ≡ numbers.now) }
        ensures none { IfNone result (1 ≤ length numbers.now → length numbers.now ≤ most_through → ⊥) }
    {
        match numbers {
            [a] => Some(Asns {
                numbers: [*a, 0, 0, 0],
                count: 1,
            }),
            [a, b] => Some(Asns {
                numbers: [*a, *b, 0, 0],
                count: 2,
            }),
            [a, b, c] => Some(Asns {
                numbers: [*a, *b, *c, 0],
                count: 3,
            }),
            [a, b, c, d] => Some(Asns {
                numbers: [*a, *b, *c, *d],
                count: 4,
            }),
            _ => None,
        }
    }

    /// The numbers.
    pub fn as_slice(&self) -> &[u32]
        ensures same { result.now ≡ self.now }
        ensures some { 1 ≤ length result.now }
        ensures few { length result.now ≤ most_through }
    {
        &self.numbers[..self.count]
    }
}

/// A community of one of three kinds.
#[derive(Clone, Copy, Debug, PartialEq, Eq)]
pub enum Community {
    /// A community (RFC 1997).
    Plain(u32),

    /// A large community (RFC 8092), by its three numbers.
    Large(u32, u32, u32),

    /// An extended community (RFC 4360), by its eight octets.
    Extended([u8; 8]),
}

/// The selectors of path attributes: of the rows they keep those whose route has all that is named.
#[derive(Clone, Copy, Debug, PartialEq, Eq)]
pub struct Traits {
    /// AS numbers that the path has in this order, at whatever distance.
    pub through: Option<Asns>,
    /// A community that the route has.
    pub community: Option<Community>,
    /// The type of an attribute that isn't read, and that the route has.
    pub other: Option<u8>,
}

impl Traits {
    /// No selector is named, so that every row is kept.
    pub fn none() -> Traits
        ensures { traits_value result ≡ no_traits }
    {
        Traits {
            through: None,
            community: None,
            other: None,
        }
    }
}
