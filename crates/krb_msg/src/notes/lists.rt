//! The notes on the lists of the grammar that are viewed. `asn1/generate` wrote this from
//! `asn1/krb5.asn1`.

use crate::fields::{NotedListView, NotedView};
use crate::host_address::HostAddress;
use crate::notes::Notes;
use crate::notes::items::{
    has_no_items_in_view, no_notes_of_items_in_view, notes_of_items_in_view,
    notes_of_strings_in_view,
};
use crate::pa_data::PaData;
use crate::ticket::Ticket;
use crate::view::items::ItemsView;
use krb_der::{Int32, KString, Many};

impl<'a> NotedView<'a> for Many<HostAddress> {
    #[inline(always)]
    fn notes(seen: &ItemsView<'a>) -> Notes {
        no_notes_of_items_in_view::<HostAddress>(seen)
    }
}

impl<'a> NotedListView<'a> for Many<HostAddress> {
    #[inline(always)]
    fn is_empty_list(seen: &ItemsView<'a>) -> bool {
        has_no_items_in_view::<HostAddress>(seen)
    }
}

impl<'a> NotedView<'a> for Many<Int32> {
    #[inline(always)]
    fn notes(seen: &ItemsView<'a>) -> Notes {
        no_notes_of_items_in_view::<Int32>(seen)
    }
}

impl<'a> NotedView<'a> for Many<KString> {
    #[inline(always)]
    fn notes(seen: &ItemsView<'a>) -> Notes {
        notes_of_strings_in_view(seen)
    }
}

impl<'a> NotedView<'a> for Many<PaData> {
    #[inline(always)]
    fn notes(seen: &ItemsView<'a>) -> Notes {
        no_notes_of_items_in_view::<PaData>(seen)
    }
}

impl<'a> NotedListView<'a> for Many<PaData> {
    #[inline(always)]
    fn is_empty_list(seen: &ItemsView<'a>) -> bool {
        has_no_items_in_view::<PaData>(seen)
    }
}

impl<'a> NotedView<'a> for Many<Ticket> {
    #[inline(always)]
    fn notes(seen: &ItemsView<'a>) -> Notes {
        notes_of_items_in_view::<Ticket>(*seen)
    }
}

impl<'a> NotedListView<'a> for Many<Ticket> {
    #[inline(always)]
    fn is_empty_list(seen: &ItemsView<'a>) -> bool {
        has_no_items_in_view::<Ticket>(seen)
    }
}
