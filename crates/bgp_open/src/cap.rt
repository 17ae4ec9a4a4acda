use std::marker::Model;
use wire_io::List;

/// What a capability says of one address family.
#[derive(Clone, Copy, Debug, PartialEq, Eq)]
pub struct Cap {
    /// "Address Family Identifier" (RFC 4760, section 3).
    pub afi: u16,

    /// "Subsequent Address Family Identifier" (RFC 4760, section 3).
    pub safi: u8,

    /// "Send/Receive" of an ADD-PATH capability (RFC 7911, section 4); 0 in another.
    pub value: u8,
}

impl Model for Cap {
    ghost use Rattle.bmp_specs.specs.Values.{CapValue};

    ghost Value = { CapValue };

    ghost view = { λ cap. record { afi = cap.afi; safi = cap.safi; value = cap.value } };

    ghost inverse = { λ v. record { afi = v.afi; safi = v.safi; value = v.value } };
}

/// A list of what capabilities say of families, in the order of the wire.
pub type CapList = List<Cap>;
