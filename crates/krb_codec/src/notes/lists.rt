//! The notes on the lists of the grammar. `asn1/generate` wrote this from `asn1/krb5.asn1`.

use crate::notes::items::{no_notes_of_items, notes_of_items};
use crate::notes::{Noted, NotedList};
use krb_der::{Int32, KString, Many};
use krb_msg::{HostAddress, Notes, PaData, Ticket};

impl Noted for Many<HostAddress> {
    fn notes(&self) -> Notes {
        no_notes_of_items(self)
    }
}

impl NotedList for Many<HostAddress> {
    fn is_empty_list(&self) -> bool {
        self.as_slice().is_empty()
    }
}

impl Noted for Many<Int32> {
    fn notes(&self) -> Notes {
        no_notes_of_items(self)
    }
}

impl Noted for Many<KString> {
    fn notes(&self) -> Notes {
        notes_of_items(self)
    }
}

impl Noted for Many<PaData> {
    fn notes(&self) -> Notes {
        no_notes_of_items(self)
    }
}

impl NotedList for Many<PaData> {
    fn is_empty_list(&self) -> bool {
        self.as_slice().is_empty()
    }
}

impl Noted for Many<Ticket> {
    fn notes(&self) -> Notes {
        notes_of_items(self)
    }
}

impl NotedList for Many<Ticket> {
    fn is_empty_list(&self) -> bool {
        self.as_slice().is_empty()
    }
}
