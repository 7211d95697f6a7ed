//! The notes on scalars (RFC 4120, 5.2), which are those on their views.

use crate::notes::Noted;
use krb_der::{Flags, KString, Wide32};
use krb_msg::{FlagsView, NotedView, Notes};

impl Noted for KString {
    fn notes(&self) -> Notes {
        <KString as NotedView<'_>>::notes(&self.octets())
    }
}

impl Noted for Flags {
    fn notes(&self) -> Notes {
        <Flags as NotedView<'_>>::notes(&FlagsView {
            unused: self.unused(),
            octets: self.octets(),
        })
    }
}

impl Noted for Wide32 {
    fn notes(&self) -> Notes {
        <Wide32 as NotedView<'_>>::notes(&self.get())
    }
}
