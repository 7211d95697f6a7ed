//! What a message lies in.

ghost use Rattle.std.specs.Prelude.{◌≡◌};
ghost use Rattle.krb_source.specs.Layers.{layer_name};

/// What a message lies in.
#[derive(Clone, Copy, PartialEq, Eq, Debug)]
pub enum Layer {
    /// Four octets of length, as before each message on a TCP connection (RFC 4120, 7.2.2).
    Frame,
    /// A GSS-API token (RFC 2743, 3.1).
    Gss,
    /// A token of SPNEGO (RFC 4178, 4.2).
    Spnego,
}

impl Layer {
    /// Returns its name.
    pub fn name(self) -> &'static str
        ensures { result.now ≡ layer_name self }
    {
        match self {
            Layer::Frame => "frame",
            Layer::Gss => "GSS",
            Layer::Spnego => "SPNEGO",
        }
    }
}
