ghost use Rattle.std.specs.Prelude.{◌≡◌, ◌==◌, ◌++◌, [], ◌∷◌, List, Option, Some, None, if◌then◌else◌, IfOk, OnOk, IsErrOf, option_to_list};
ghost use Rattle.byteorder.specs.Endian.{big_number};
ghost use Rattle.bmp_specs.specs.Coded.{IsCoded};
ghost use Rattle.bmp_specs.specs.Open.{AreParameters, IsOpen, IsParameter, family_in, is_four_octet, paths_in, entries, has_extended_length};
ghost use Rattle.bmp_specs.specs.Parts.{AreParts};
ghost use Rattle.bmp_specs.specs.Values.{CodedValue, OpenValue};
ghost use Rattle.bgp_open.specs.Telling.{TellsRest};

use crate::cap::{Cap, CapList};
use crate::coded::read_coded;
use crate::codes::{ADD_PATH, CAPABILITIES, FOUR_OCTET_AS, MULTIPROTOCOL};
use crate::open::Open;
use byteorder::{BigEndian, ByteOrder};
use std::alloc::Global;
use wire_io::{BodyFault, NoMemory};

/// The bytes of an OPEN's body before its parameters (RFC 4271, section 4.2).
const HEADER_LENGTH: usize = 10;

/// The length that announces extended parameters, and the octet after it (RFC 9072, section 2).
const EXTENDED: u8 = 255;

// What capabilities announce.
#[derive(Drop)]
pub(crate) struct Announced {
    four: Option<u32>,
    families: CapList,
    paths: CapList,
}

// Appends the family of a multiprotocol capability, if it is one.
fn add_family(families: &mut CapList, code: u8, value: &[u8]) -> Result<(), NoMemory>
    ensures { OnOk result (families.new ≡ families.old ++ option_to_list (family_in (record { code = code; value = value.now }))) }
{
    if code == MULTIPROTOCOL && value.len() == 4 {
        families.push(Cap {
            afi: BigEndian::read_u16(value),
            safi: value[3],
            value: 0,
        })?;
    }
    Ok(())
}

// The AS number of a four-octet AS number capability, if it is one.
fn four_octet(code: u8, value: &[u8]) -> Option<u32>
    ensures { result ≡ (if is_four_octet (record { code = code; value = value.now }) then Some (big_number 4 value.now) else None) }
{
    if code == FOUR_OCTET_AS && value.len() == 4 {
        Some(BigEndian::read_u32(value))
    } else {
        None
    }
}

// Appends the entries that stand in these bytes.
fn add_entries(paths: &mut CapList, value: &[u8]) -> Result<(), NoMemory>
    ensures { OnOk result (paths.new ≡ paths.old ++ entries value.now) }
{
    let mut rest = value;
    while 4 <= rest.len() {
        let (entry, after) = rest.split_at(4);
        paths.push(Cap {
            afi: BigEndian::read_u16(entry),
            safi: entry[2],
            value: entry[3],
        })?;
        rest = after;
    }
    Ok(())
}

// Appends the entries of an ADD-PATH capability, if it is one.
fn add_paths(paths: &mut CapList, code: u8, value: &[u8]) -> Result<(), NoMemory>
    ensures { OnOk result (paths.new ≡ paths.old ++ paths_in (record { code = code; value = value.now })) }
{
    if code == ADD_PATH && value.len() % 4 == 0 {
        add_entries(paths, value)?;
    }
    Ok(())
}

impl Announced {
    ghost use Rattle.bgp_open.specs.Telling.{Adds, AddsParameters, HasCapabilities, Tells};

    fn new(alloc: Global) -> Announced
        ensures { Tells [] result }
    {
        Announced {
            four: None,
            families: CapList::new(alloc),
            paths: CapList::new(alloc),
        }
    }

    // Takes in one capability.
    fn add(&mut self, code: u8, value: &[u8]) -> Result<(), NoMemory>
        ensures { OnOk result (Adds (record { code = code; value = value.now } ∷ []) self.old self.new) }
    {
        self.four = self.four.or(four_octet(code, value));
        add_family(&mut self.families, code, value)?;
        add_paths(&mut self.paths, code, value)?;
        Ok(())
    }

    // Takes in the capabilities that fill these bytes.
    fn add_all(&mut self, value: &[u8]) -> Result<(), BodyFault>
        ensures ok { OnOk result ((ds : List CodedValue) × AreParts IsCoded value.now ds × Adds ds self.old self.new) }
        ensures broken { IsErrOf result BodyFault.Broken → (ds : List CodedValue) → AreParts IsCoded value.now ds → ⊥ }
    {
        let mut rest = value;
        while !rest.is_empty() {
            let Some(capability) = read_coded(rest) else {
                return Err(BodyFault::Broken);
            };
            self.add(capability.code, capability.value)?;
            rest = capability.rest;
        }
        Ok(())
    }

    // Takes in one optional parameter: the capabilities in it, where it has any.
    fn add_parameter(&mut self, code: u8, value: &[u8]) -> Result<(), BodyFault>
        ensures ok { OnOk result ((ds : List CodedValue) × HasCapabilities code value.now ds × Adds ds self.old self.new) }
        ensures broken { IsErrOf result BodyFault.Broken → (ds : List CodedValue) → HasCapabilities code value.now ds → ⊥ }
    {
        if code == CAPABILITIES {
            self.add_all(value)
        } else {
            Ok(())
        }
    }

    // Takes in the optional parameters that fill these bytes.
    fn add_parameters(&mut self, parameters: &[u8]) -> Result<(), BodyFault>
        ensures ok { OnOk result (AddsParameters parameters.now self.old self.new) }
        ensures broken { IsErrOf result BodyFault.Broken → (lists : List (List CodedValue)) → AreParts IsParameter parameters.now lists → ⊥ }
    {
        let mut rest = parameters;
        while !rest.is_empty() {
            let Some(parameter) = read_coded(rest) else {
                return Err(BodyFault::Broken);
            };
            self.add_parameter(parameter.code, parameter.value)?;
            rest = parameter.rest;
        }
        Ok(())
    }
}

// Whether the parameters have the extended length.
fn is_extended(stated: u8, rest: &[u8]) -> bool
    ensures { result ≡ has_extended_length stated rest.now }
{
    stated == EXTENDED && rest.first() == Some(&EXTENDED)
}

// Reads what the parameters announce, the whole rest of the body after their stated length.
fn read_parameters(alloc: Global, stated: u8, rest: &[u8]) -> Result<Announced, BodyFault>
    ensures ok { IfOk result (λ a. TellsRest stated rest.now a) }
    ensures broken { IsErrOf result BodyFault.Broken → (o : OpenValue) → AreParameters stated rest.now o → ⊥ }
{
    let mut announced = Announced::new(alloc);
    if is_extended(stated, rest) {
        return Ok(announced);
    }
    if rest.len() != stated as usize {
        return Err(BodyFault::Broken);
    }
    announced.add_parameters(rest)?;
    Ok(announced)
}

/// Reads the body of an OPEN message (RFC 4271, section 4.2), all of the bytes. `BodyFault::Broken`
/// exactly where they are none. Capabilities of other codes, or of another length than theirs, are
/// passed over (RFC 5492, section 3). Time and memory are linear in the bytes.
pub fn read_open(alloc: Global, body: &[u8]) -> Result<Open, BodyFault>
    ensures ok { IfOk result (λ o. IsOpen body.now o) }
    ensures broken { IsErrOf result BodyFault.Broken → (o : OpenValue) → IsOpen body.now o → ⊥ }
{
    if body.len() < HEADER_LENGTH {
        return Err(BodyFault::Broken);
    }
    let stated = body[9];
    let rest = &body[HEADER_LENGTH..];
    let announced = read_parameters(alloc, stated, rest)?;
    let mut identifier = [0u8; 4];
    identifier.copy_from_slice(&body[5..9]);
    Ok(Open {
        version: body[0],
        my_as: BigEndian::read_u16(&body[1..]),
        hold: BigEndian::read_u16(&body[3..]),
        identifier,
        four: announced.four,
        families: announced.families,
        paths: announced.paths,
        extended: is_extended(stated, rest),
    })
}
