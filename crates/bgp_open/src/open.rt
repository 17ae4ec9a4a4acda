ghost use Rattle.std.specs.Prelude.{◌≡◌, IfOk, unwrap_or};

use crate::cap::CapList;
use std::marker::Model;
use wire_io::NoMemory;

/// An OPEN message (RFC 4271, section 4.2) with its capabilities (RFC 5492).
#[derive(Debug, Drop)]
pub struct Open {
    /// "Version".
    pub version: u8,

    /// "My Autonomous System": two bytes, whatever `four` says.
    pub my_as: u16,

    /// "Hold Time", in seconds.
    pub hold: u16,

    /// "BGP Identifier".
    pub identifier: [u8; 4],

    /// The AS number of the first four-octet AS number capability (RFC 6793, section 3).
    pub four: Option<u32>,

    /// The families of the multiprotocol capabilities (RFC 4760, section 8).
    pub families: CapList,

    /// The entries of the ADD-PATH capabilities (RFC 7911, section 4).
    pub paths: CapList,

    /// Whether the parameters have the extended length of RFC 9072, section 2. They are then unread.
    pub extended: bool,
}

impl Model for Open {
    ghost use Rattle.bmp_specs.specs.Values.{OpenValue};

    ghost Value = { OpenValue };

    ghost view = { λ o. record { version = o.version; my_as = o.my_as; hold = o.hold; identifier = o.identifier; four = o.four; families = o.families; paths = o.paths; extended = o.extended } };
}

impl Open {
    /// The AS number of the speaker: that of four octets where it is announced (RFC 6793, section 3).
    pub fn asn(&self) -> u32
        ensures { result ≡ unwrap_or self.now.four self.now.my_as }
    {
        match self.four {
            Some(asn) => asn,
            None => self.my_as as u32,
        }
    }

    /// An equal value.
    pub fn copy(&self) -> Result<Open, NoMemory>
        ensures { IfOk result (λ copy. copy ≡ self.now) }
    {
        Ok(Open {
            version: self.version,
            my_as: self.my_as,
            hold: self.hold,
            identifier: self.identifier,
            four: self.four,
            families: self.families.copy()?,
            paths: self.paths.copy()?,
            extended: self.extended,
        })
    }
}
