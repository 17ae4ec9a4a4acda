/// What the value after a code of a registry looks like.
#[derive(Clone, Copy, Debug, PartialEq, Eq)]
pub enum Shape {
    /// A counter of 4 bytes (RFC 7854, section 4.8: "32-bit Counter").
    Counter32,
    /// A gauge of 8 bytes (RFC 7854, section 4.8: "64-bit Gauge").
    Gauge64,
    /// An AFI of 2 bytes, a SAFI of 1 byte and a gauge of 8 bytes (RFC 7854, section 4.8).
    FamilyGauge64,
    /// A value of so many bytes.
    Exact(u16),
    /// A value whose number of bytes is a multiple of this one.
    Multiple(u16),
    /// A value of any length.
    Free,
}
