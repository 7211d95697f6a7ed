//! What is partly read.

/// The part of a message that the next octet goes on with.
#[derive(Clone, Copy)]
pub(crate) enum Tip {
    /// The next item of the innermost open container.
    Between,
    /// The item of a node's term, of which the identifier octet is read.
    Tagged {
        node: u16,
    },
    /// The item of a node's term, of which `seen` of the `digits` octets of a long length are read,
    /// and the number that these spell.
    Long {
        node: u16,
        digits: u32,
        seen: u32,
        value: u32,
    },
    /// The item of a node's term, without items: from where to where its contents are, an INTEGER's
    /// number so far and a BIT STRING's count of unused bits.
    Leaf {
        node: u16,
        start: u32,
        end: u32,
        value: i64,
        unused: u8,
    },
}
