ghost use Rattle.std.specs.Prelude.{◌≡◌, ℕ, ◌≤◌, List, length, IfSome, IfNone, IfOk};
ghost use Rattle.bmp_specs.specs.Walk.{Walks};
ghost use Rattle.plain_model.specs.Front.{IsAtFront};
ghost use Rattle.plain_model.specs.End.{verdict_of};

use bmp_specs::Why;
use byteorder::{BigEndian, ByteOrder};
use std::alloc::{AllocError, Global};

/// The version of BMP that is read (RFC 7854, section 4.1).
const VERSION: u8 = 3;

/// The bytes of a common header (RFC 7854, section 4.1).
const HEADER: usize = 6;

/// The most bytes of one message. The RFC sets no bound.
const MOST: usize = 0x10_0000;

/// The type of a Termination Message (RFC 7854, section 4.5).
const TERMINATION: u8 = 5;

/// What the bodies of messages mean, under a state that the messages before them leave.
pub trait Meaning {
    /// What is known from the messages before.
    type State: Drop;
    /// What a message means.
    type Message: Drop;

    ghost means: { Self → Self.State → ℕ → List ℕ → Self.Message → Self.State → Type 0 };

    /// Tells what a body of a message of type `kind` means, and the state that it leaves; None where
    /// it means nothing.
    fn judge(
        &self,
        state: &Self::State,
        kind: u8,
        body: &[u8],
    ) -> Option<(Self::Message, Self::State)>
        ensures meaning { IfSome result (λ r. means self.now state.now kind body.now r.0 r.1) }
        ensures nothing { IfNone result ((m : Self.Message) (t : Self.State) → means self.now state.now kind body.now m t → ⊥) };
}

/// How a walk ended.
#[derive(Clone, Copy, Debug, PartialEq, Eq)]
pub enum End {
    /// After a whole message, or at the start.
    Whole,
    /// Inside a message.
    More,
    /// After a Termination Message.
    Terminated,
    /// At bytes that are no message.
    Broken(Why),
}

/// The walk of a stream.
#[derive(Drop)]
pub struct Walked<M: Drop> {
    /// What the messages mean, in order.
    pub messages: Vec<M>,
    /// The length of these messages, in bytes.
    pub offset: usize,
    /// How it ended.
    pub end: End,
}

// What stands at the front of the bytes, as far as a common header tells.
enum AtFront {
    Nothing,
    Part,
    Message(usize),
    Bad(Why),
}

fn front(bytes: &[u8]) -> AtFront
    ensures { IsAtFront bytes.now result }
{
    if bytes.is_empty() {
        return AtFront::Nothing;
    }
    if bytes.len() < HEADER {
        return AtFront::Part;
    }
    if bytes[0] != VERSION {
        return AtFront::Bad(Why::Version);
    }
    let length = BigEndian::read_u32(&bytes[1..]) as usize;
    if length < HEADER || MOST < length {
        return AtFront::Bad(Why::Length);
    }
    if bytes.len() < length {
        return AtFront::Part;
    }
    AtFront::Message(length)
}

/// Walks a whole stream: its messages one after another, up to its end, to a Termination Message or to
/// what is no message.
pub fn walk<M: Meaning>(
    alloc: Global,
    meaning: &M,
    start: M::State,
    bytes: &[u8],
) -> Result<Walked<M::Message>, AllocError>
    ensures { IfOk result (λ w. Walks (M.means meaning.now) start bytes.now w.messages.items w.offset (verdict_of w.end)) }
{
    let mut messages = Vec::new(alloc);
    let mut state = start;
    let mut rest = bytes;
    let mut offset = 0;
    'messages: loop {
        match front(rest) {
            AtFront::Message(length) => {
                let Some((message, next)) = meaning.judge(&state, rest[5], &rest[6..length]) else {
                    return Ok(Walked {
                        messages,
                        offset,
                        end: End::Broken(Why::Body),
                    });
                };
                messages.push(message)?;
                offset += length;
                if rest[5] == TERMINATION {
                    return Ok(Walked {
                        messages,
                        offset,
                        end: End::Terminated,
                    });
                }
                state = next;
                rest = &rest[length..];
            }
            AtFront::Nothing => return Ok(Walked {
                messages,
                offset,
                end: End::Whole,
            }),
            AtFront::Part => return Ok(Walked {
                messages,
                offset,
                end: End::More,
            }),
            AtFront::Bad(why) => return Ok(Walked {
                messages,
                offset,
                end: End::Broken(why),
            }),
        }
    }
}
