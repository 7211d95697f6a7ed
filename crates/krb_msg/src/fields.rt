//! The fields of a type, said once as a type like
//! `Sequence<Required<0, Int32, Optional<1, Wide32, End>>>`, by which octets are viewed (X.690, 8.9
//! and 8.14); and the notes on them, field by field. `krb_codec` encodes values by such a type of
//! borrowed ones.

mod view;
mod view_notes;

pub(crate) use view::{view_by_call, view_field, view_item};
pub use view::{View, ViewFields, ViewSequence};
pub use view_notes::{NotedListView, NotedView};
pub(crate) use view_notes::{
    no_optional_view_notes, optional_list_view_notes, optional_view_notes,
};

/// The end of a list of fields.
#[derive(Drop)]
pub struct End;

/// The field `[INDEX]`, and the fields after it.
#[derive(Drop)]
pub struct Required<const INDEX: u8, T, F>(pub T, pub F);

/// The field `[INDEX]`, which may be left out, and the fields after it.
#[derive(Drop)]
pub struct Optional<const INDEX: u8, T, F>(pub Option<T>, pub F);

/// The field `[INDEX]`, which is always this number, and the fields after it.
#[derive(Drop)]
pub struct Fixed<const INDEX: u8, const NUMBER: u8, F>(pub F);

/// The fields from one on, as a type of their own: lists are cut so, because they nest no deeper
/// than a proof of them stays short.
#[derive(Drop)]
pub struct Cut<F>(pub F);

/// A SEQUENCE of fields.
#[derive(Drop)]
pub struct Sequence<F>(pub F);

/// An item in `[INDEX]` (X.690, 8.14).
#[derive(Drop)]
pub struct Tagged<const INDEX: u8, E>(pub E);

/// An item in `[APPLICATION NUMBER]`.
#[derive(Drop)]
pub struct Application<const NUMBER: u8, E>(pub E);
