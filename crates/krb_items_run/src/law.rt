//! The law of how a listing of items ends, the contract of a function that does nothing.

ghost use Rattle.krb_items_run.specs.Laws.{ItemsEndAsMessages};

/// The items of an input are listed to the same end as the message that it spells: what is refused has
/// the same last record, and the run the same end.
pub fn items_end_as_messages()
    ensures { ItemsEndAsMessages }
{}
