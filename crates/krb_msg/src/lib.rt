//! The messages of Kerberos V5 (RFC 4120, section 5 and appendix A): their types, and views of
//! octets; and in `specs/` their grammar, their one DER form, the judgement of octets and the
//! frames of a stream.
//!
//! A message is a [`Message`], an enum of ten kinds ([`Kind`]) whose fields are public. Its version
//! and its message type are fixed by its kind, and so not kept. `krb_codec` encodes it, and copies
//! it out of a view.
//!
//! [`view_message`] judges and views a message in place, in one pass without allocating
//! ([`view_message_in`] by a profile): a [`MessageView`] has the same fields as plain numbers,
//! borrowed octets and lists ([`ItemsView`], walked by [`next_item`], and by [`next_type`] for the
//! types of PA-DATA alone). Code that is generic over the kind has a [`MessageKind`], one of
//! [`message_kinds`], and views a message as the view of its kind, with no `MessageView` made.
//! [`view_whole`] views an item of any type alone (the trait [`View`]), such as a [`Ticket`].
//! [`first_item`] finds an item in octets that were judged.
//!
//! A crate above describes a type of its own, of which no message is made, as the types here are
//! described: its fields as a type like `Sequence<Required<0, Int32, Optional<1, Octets, End>>>`.
//! That is a [`ViewSequence`] of the term that the type spells, by which the type has its [`View`];
//! in a [`Tagged`], if a tag is round it, it has another, and a list of its items by
//! [`view_items`]. Values are encoded by the same descriptions, with each field borrowed.
//!
//! [`notes_of_view`] returns what is unusual in a message ([`notes_of_ticket`] in a Ticket alone),
//! and [`is_strict_view`] whether it is in the strict profile, too. [`grammar`] is the table by
//! which octets are judged, and [`law`] has the laws about all this.
//!
//! Nothing here says why octets are no message, nor where that shows: `krb_judge` does, and
//! `krb_scan` of octets that come one after another. No cipher is opened, and what a field means is
//! not looked into: not whether a time exists, nor whom a name names. Nothing allocates.
//!
//! `specs/` reads from the bottom: `Term` (terms, their values and the DER of a value), `Profiles`
//! (what the strict profile narrows), `Grammar` (appendix A as terms), `Judgement` (what the octets
//! present of a message decide), `Stream` (the frames of a stream), `Views` (the types of this
//! crate as values of terms), `ValueOfDer` (the value whose DER octets are), `Viewed` and
//! `ViewValues` (octets that a view is of, and the values of views), and `Laws`, which the
//! functions of [`law`] prove. `Nodes` and `Table` say what the table of the grammar has to do with
//! the terms; the files of `specs/inner` prove the laws of the DER of values.
#![tactic(auto)]

mod ap_rep;
mod ap_req;
mod checksum;
mod contents;
mod encrypted_data;
mod fields;
pub mod grammar;
mod host_address;
mod kdc_rep;
mod kdc_req;
mod kdc_req_body;
mod kinds;
mod krb_cred;
mod krb_error;
mod krb_priv;
mod krb_safe;
mod krb_safe_body;
pub mod law;
mod message;
mod message_kind;
pub mod message_kinds;
mod message_view;
mod notes;
mod pa_data;
mod principal_name;
mod ticket;
mod view;
mod viewing;

pub use ap_rep::{ApRep, ApRepView};
pub use ap_req::{ApReq, ApReqView};
pub use checksum::{Checksum, ChecksumView};
pub use contents::{has_bits, is_padded, is_time_octet};
pub use encrypted_data::{EncryptedData, EncryptedDataView};
pub use fields::{
    Application, Cut, End, Fixed, NotedView, Optional, Required, Sequence, Tagged, View,
    ViewFields, ViewSequence,
};
pub use host_address::{HostAddress, HostAddressView};
pub use kdc_rep::{KdcRep, KdcRepView};
pub use kdc_req::{KdcReq, KdcReqView};
pub use kdc_req_body::{KdcReqBody, KdcReqBodyView};
pub use kinds::whole_kind;
pub use krb_cred::{KrbCred, KrbCredView};
pub use krb_error::{KrbError, KrbErrorView};
pub use krb_priv::{KrbPriv, KrbPrivView};
pub use krb_safe::{KrbSafe, KrbSafeView};
pub use krb_safe_body::{KrbSafeBody, KrbSafeBodyView};
pub use message::{Kind, Message};
pub use message_kind::MessageKind;
pub use message_view::{MessageView, notes_of_view};
pub use notes::{Notes, is_strict_view, notes_of_ticket};
pub use pa_data::{PaData, PaDataView};
pub use principal_name::{PrincipalName, PrincipalNameView};
pub use ticket::{Ticket, TicketView};
pub use view::head::{first_item, first_length};
pub use view::items::{ItemsView, next_item, next_type, view_items};
pub use view::scalars::FlagsView;
pub use view::view_whole;
pub use viewing::{view_message, view_message_in};
