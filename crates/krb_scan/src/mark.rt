//! Marks: where the items of a message are in it.

/// An item whose length is whole.
#[derive(Clone, Copy)]
pub struct Mark {
    /// The node of `krb_msg::grammar` that it is an item of.
    pub node: u16,
    /// Where its contents begin.
    pub start: u32,
    /// The number of octets of its contents.
    pub len: u32,
    /// The number that it is, of an INTEGER whose contents are complete, else 0.
    pub value: i64,
}
