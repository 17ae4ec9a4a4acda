ghost use Rattle.std.specs.Prelude.{◌≡◌, IfOk};

use std::marker::Model;
use wire_io::{ByteList, List, NoMemory};

/// A path attribute that is kept as it came (RFC 4271, section 4.3).
#[derive(Drop)]
pub struct Other {
    /// "Attribute Flags", with the Extended Length bit cleared.
    pub flags: u8,

    /// "Attribute Type Code".
    pub code: u8,

    /// "Attribute Value".
    pub value: ByteList,
}

impl Model for Other {
    ghost use Rattle.bmp_specs.specs.Values.{OtherValue};

    ghost Value = { OtherValue };

    ghost view = { λ other. record { flags = other.flags; code = other.code; value = other.value } };
}

impl Other {
    /// An equal attribute. It copies each byte.
    pub fn copy(&self) -> Result<Other, NoMemory>
        ensures { IfOk result (λ copy. copy ≡ self.now) }
    {
        Ok(Other {
            flags: self.flags,
            code: self.code,
            value: self.value.copy()?,
        })
    }
}

/// A list of attributes that are kept as they came.
pub type OtherList = List<Other>;

/// An equal list, with memory for no more. It copies each byte.
pub fn copy_others(others: &OtherList) -> Result<OtherList, NoMemory>
    ensures { IfOk result (λ copy. copy ≡ others.now) }
{
    let mut copy = others.as_large()?;
    for other in others.as_slice() {
        copy.push(other.copy()?)?;
    }
    Ok(copy)
}
