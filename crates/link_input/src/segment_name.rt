//! Segments by name.

ghost use Rattle.std.specs.Prelude.{◌≡◌};
ghost use Rattle.link_input.specs.Segments.{segment_of};

/// The segment of the output that a section goes to. Mirrors Wild's `SegmentName`.
#[derive(Clone, Copy, Debug, PartialEq, Eq)]
pub enum SegmentName {
    /// Code.
    Text,
    /// Data that is only read.
    Rodata,
    /// Data.
    Data,
    /// Data that is zero at first.
    Bss,
    /// Any other.
    Other,
}

impl SegmentName {
    /// The segment that the name names: `text`, `rodata`, `data`, `bss`, or another.
    pub fn from_bytes(name: &[u8]) -> Self
        ensures { result ≡ segment_of name.now }
    {
        if name == b"text".as_slice() {
            SegmentName::Text
        } else if name == b"rodata".as_slice() {
            SegmentName::Rodata
        } else if name == b"data".as_slice() {
            SegmentName::Data
        } else if name == b"bss".as_slice() {
            SegmentName::Bss
        } else {
            SegmentName::Other
        }
    }
}
