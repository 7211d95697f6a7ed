//! Fields viewed in place.

ghost use Rattle.std.specs.Prelude.{⊤, ◌≡◌, ◌+◌, ◌^◌, ◌<◌, true, pos, length, MatchOption};
ghost use Rattle.std.specs.Option.{option_map};
ghost use Rattle.krb_msg.specs.Term.{Term, Fields as TermFields, Value, Values, Sequence as SequenceTerm, Application as ApplicationTerm, Tagged as TaggedTerm, End as NoField, Required as RequiredField, Optional as OptionalField, IfPresent, tag_of};
ghost use Rattle.krb_msg.specs.Grammar.{exactly};
ghost use Rattle.krb_msg.specs.Shape.{is_unambiguous, are_unambiguous, has_octet_tags, have_octet_tags};
ghost use Rattle.krb_msg.specs.Viewed.{AreContents, AreNoContents, AreFields, AreNoFields, IfElse, BeginsWithValue, BeginsWithNoValue, MayBeginWithValue, IsMalformedField};

use crate::fields::{Application, End, Fixed, Optional, Required, Sequence, Tagged};
use crate::view::head::{after_octet, first_field, only_item};
use crate::view::scalars::Exactly;

/// A type whose items are judged and viewed in place.
pub trait View<'a> {
    /// The view of an item. Its default is a view of none.
    type Of: Copy + Default;

    /// The term.
    ghost term: { Term };

    /// The view as a value of the term.
    ghost value: { Self.Of → Value term };

    /// What is known of a view: lists are items, times are times, and so on.
    ghost IsValid: { Self.Of → Type 0 };

    /// Returns the identifier octet.
    fn tag() -> u8
        requires { has_octet_tags term ≡ true }
        ensures { result ≡ tag_of term };

    /// Makes `seen` the view of the item with these contents, and returns whether they are contents
    /// of one. So a large view is made where it stays, and not moved.
    fn view_into(contents: &'a [u8], seen: &mut Self::Of) -> bool
        requires short { length contents.now < 2 ^ 31 }
        requires tags { has_octet_tags term ≡ true }
        requires unambiguous { is_unambiguous term ≡ true }
        ensures { IfElse result (AreContents term contents.now (value seen.new) × IsValid seen.new) (AreNoContents term contents.now) };
}

/// A SEQUENCE, or a message that is one, as a list of its fields, by which the [`View`] of its type
/// is made.
pub trait ViewSequence<'a> {
    /// The views of the fields. Nothing is asked of them, since what is asked of nested views is
    /// written out at each level in a proof.
    type Of;

    /// The term.
    ghost term: { Term };

    /// The views as a value of the term.
    ghost value: { Self.Of → Value term };

    /// What is known of the views: lists are items, times are times, and so on.
    ghost IsValid: { Self.Of → Type 0 };

    /// Returns the identifier octet.
    fn tag() -> u8
        requires { has_octet_tags term ≡ true }
        ensures { result ≡ tag_of term };

    /// Makes `seen` the views of the fields of the item with these contents, and returns whether
    /// they are contents of one.
    fn view_into(contents: &'a [u8], seen: &mut Self::Of) -> bool
        requires short { length contents.now < 2 ^ 31 }
        requires tags { has_octet_tags term ≡ true }
        requires unambiguous { is_unambiguous term ≡ true }
        ensures { IfElse result (AreContents term contents.now (value seen.new) × IsValid seen.new) (AreNoContents term contents.now) };
}

/// Fields, from one on, that are judged and viewed in place.
pub trait ViewFields<'a> {
    /// The views of the fields. Nothing is asked of them, as of those of a [`ViewSequence`].
    type Of;

    /// The fields of the grammar.
    ghost fields: { TermFields };

    /// The views as values of the fields.
    ghost values: { Self.Of → Values fields };

    /// What is known of a view: lists are items, times are times, and so on.
    ghost IsValid: { Self.Of → Type 0 };

    /// Makes `seen` the views of the fields, and returns whether the octets are such fields.
    fn view_fields(octets: &'a [u8], seen: &mut Self::Of) -> bool
        requires short { length octets.now < 2 ^ 31 }
        requires tags { have_octet_tags fields ≡ true }
        requires unambiguous { are_unambiguous fields ≡ true }
        ensures { IfElse result (AreFields fields octets.now (values seen.new) × IsValid seen.new) (AreNoFields fields octets.now) };
}

/// Returns a view of the item with these contents, if they are contents of one.
#[inline(always)]
pub(crate) fn view_item<'a, T: View<'a>>(contents: &'a [u8]) -> Option<T::Of>
    requires short { length contents.now < 2 ^ 31 }
    requires tags { has_octet_tags T.term ≡ true }
    requires unambiguous { is_unambiguous T.term ≡ true }
    ensures { MatchOption result (AreNoContents T.term contents.now) (λ seen. AreContents T.term contents.now (T.value seen) × T.IsValid seen) }
{
    let mut seen = Default::default();
    if T::view_into(contents, &mut seen) {
        Some(seen)
    } else {
        None
    }
}

/// Returns the views of the fields of an item, by a call. What a call returns whole stays in memory,
/// and words go to registers, so its caller makes the view again word by word.
#[inline(never)]
pub(crate) fn view_by_call<'a, T: ViewSequence<'a, Of: Copy + Default>>(
    contents: &'a [u8],
) -> Option<T::Of>
    requires short { length contents.now < 2 ^ 31 }
    requires tags { has_octet_tags T.term ≡ true }
    requires unambiguous { is_unambiguous T.term ≡ true }
    ensures { MatchOption result (AreNoContents T.term contents.now) (λ seen. AreContents T.term contents.now (T.value seen) × T.IsValid seen) }
{
    let mut seen = Default::default();
    if T::view_into(contents, &mut seen) {
        Some(seen)
    } else {
        None
    }
}

/// Makes `seen` the view of the field `[INDEX]` with which octets begin, and returns what follows
/// it, if they begin with one.
#[inline(always)]
pub(crate) fn view_field<'a, const INDEX: u8, T: View<'a>>(
    octets: &'a [u8],
    seen: &mut T::Of,
) -> Option<&'a [u8]>
    requires short { length octets.now < 2 ^ 31 }
    requires tags { has_octet_tags (TaggedTerm INDEX T.term) ≡ true }
    requires unambiguous { is_unambiguous T.term ≡ true }
    ensures { MatchOption result (BeginsWithNoValue (TaggedTerm INDEX T.term) octets.now) (λ rest. BeginsWithValue (TaggedTerm INDEX T.term) octets.now (T.value seen.new) rest.now × T.IsValid seen.new) }
{
    let Some((contents, rest)) = first_field(0xA0 + INDEX, T::tag(), octets) else {
        return None;
    };
    if T::view_into(contents, seen) {
        Some(rest)
    } else {
        None
    }
}

/// Returns what follows the field `[INDEX]` of a number with which octets begin.
#[inline(always)]
fn view_fixed<const INDEX: u8, const NUMBER: u8>(octets: &[u8]) -> Option<&[u8]>
    requires short { length octets.now < 2 ^ 31 }
    requires tags { has_octet_tags (TaggedTerm INDEX (exactly NUMBER)) ≡ true }
    ensures { MatchOption result (BeginsWithNoValue (TaggedTerm INDEX (exactly NUMBER)) octets.now) (λ rest. BeginsWithValue (TaggedTerm INDEX (exactly NUMBER)) octets.now (pos NUMBER) rest.now) }
{
    match after_octet(0xA0 + INDEX, NUMBER, octets) {
        Some(rest) if NUMBER < 0x80 => Some(rest),
        _ => find_fixed::<INDEX, NUMBER>(octets),
    }
}

/// Returns the same as [`view_fixed`], whatever the number is, by a call.
#[inline(never)]
fn find_fixed<const INDEX: u8, const NUMBER: u8>(octets: &[u8]) -> Option<&[u8]>
    requires short { length octets.now < 2 ^ 31 }
    requires tags { has_octet_tags (TaggedTerm INDEX (exactly NUMBER)) ≡ true }
    ensures { MatchOption result (BeginsWithNoValue (TaggedTerm INDEX (exactly NUMBER)) octets.now) (λ rest. BeginsWithValue (TaggedTerm INDEX (exactly NUMBER)) octets.now (pos NUMBER) rest.now) }
{
    view_field::<INDEX, Exactly<NUMBER>>(octets, &mut ())
}

/// Makes `seen` the view of the field `[INDEX]`, if octets begin with its tag, and returns what
/// follows it, if it is well formed.
#[inline(always)]
fn view_optional<'a, const INDEX: u8, T: View<'a>>(
    octets: &'a [u8],
    seen: &mut Option<T::Of>,
) -> Option<&'a [u8]>
    requires short { length octets.now < 2 ^ 31 }
    requires tags { has_octet_tags (TaggedTerm INDEX T.term) ≡ true }
    requires unambiguous { is_unambiguous T.term ≡ true }
    ensures { MatchOption result (IsMalformedField (TaggedTerm INDEX T.term) octets.now) (λ rest. MayBeginWithValue (TaggedTerm INDEX T.term) octets.now (option_map T.value seen.new) rest.now × IfPresent T.IsValid seen.new) }
{
    match octets.first() {
        Some(tag) if *tag == 0xA0 + INDEX => {
            let mut found = Default::default();
            let Some(rest) = view_field::<INDEX, T>(octets, &mut found) else {
                return None;
            };
            *seen = Some(found);
            Some(rest)
        }
        _ => {
            *seen = None;
            Some(octets)
        }
    }
}

impl<'a> ViewFields<'a> for End {
    type Of = ();

    ghost fields = { NoField };

    ghost values = { λ seen. tt };

    ghost IsValid = { λ seen. ⊤ };

    #[inline(always)]
    fn view_fields(octets: &'a [u8], _seen: &mut ()) -> bool {
        octets.is_empty()
    }
}

impl<'a, const INDEX: u8, T: View<'a>, F: ViewFields<'a>> ViewFields<'a> for Required<INDEX, T, F> {
    type Of = (T::Of, F::Of);

    ghost fields = { RequiredField (TaggedTerm INDEX T.term) F.fields };

    ghost values = { λ seen. (T.value seen.0, F.values seen.1) };

    ghost IsValid = { λ seen. T.IsValid seen.0 × F.IsValid seen.1 };

    #[inline(always)]
    fn view_fields(octets: &'a [u8], seen: &mut (T::Of, F::Of)) -> bool {
        match view_field::<INDEX, T>(octets, &mut seen.0) {
            None => false,
            Some(rest) => F::view_fields(rest, &mut seen.1),
        }
    }
}

impl<'a, const INDEX: u8, T: View<'a>, F: ViewFields<'a>> ViewFields<'a> for Optional<INDEX, T, F> {
    type Of = (Option<T::Of>, F::Of);

    ghost fields = { OptionalField (TaggedTerm INDEX T.term) F.fields };

    ghost values = { λ seen. (option_map T.value seen.0, F.values seen.1) };

    ghost IsValid = { λ seen. IfPresent T.IsValid seen.0 × F.IsValid seen.1 };

    #[inline(always)]
    fn view_fields(octets: &'a [u8], seen: &mut (Option<T::Of>, F::Of)) -> bool {
        match view_optional::<INDEX, T>(octets, &mut seen.0) {
            None => false,
            Some(rest) => F::view_fields(rest, &mut seen.1),
        }
    }
}

impl<'a, const INDEX: u8, const NUMBER: u8, F: ViewFields<'a>> ViewFields<'a>
    for Fixed<INDEX, NUMBER, F> {
    type Of = F::Of;

    ghost fields = { RequiredField (TaggedTerm INDEX (exactly NUMBER)) F.fields };

    ghost values = { λ seen. (pos NUMBER, F.values seen) };

    ghost IsValid = { λ seen. F.IsValid seen };

    #[inline(always)]
    fn view_fields(octets: &'a [u8], seen: &mut F::Of) -> bool {
        match view_fixed::<INDEX, NUMBER>(octets) {
            None => false,
            Some(rest) => F::view_fields(rest, seen),
        }
    }
}

impl<'a, F: ViewFields<'a>> ViewSequence<'a> for Sequence<F> {
    type Of = F::Of;

    ghost term = { SequenceTerm F.fields };

    ghost value = { λ seen. F.values seen };

    ghost IsValid = { λ seen. F.IsValid seen };

    #[inline(always)]
    fn tag() -> u8 {
        0x30
    }

    #[inline(always)]
    fn view_into(contents: &'a [u8], seen: &mut F::Of) -> bool {
        F::view_fields(contents, seen)
    }
}

impl<'a, const INDEX: u8, E: View<'a>> View<'a> for Tagged<INDEX, E> {
    type Of = E::Of;

    ghost term = { TaggedTerm INDEX E.term };

    ghost value = { λ seen. E.value seen };

    ghost IsValid = { λ seen. E.IsValid seen };

    #[inline(always)]
    fn tag() -> u8 {
        0xA0 + INDEX
    }

    #[inline(always)]
    fn view_into(contents: &'a [u8], seen: &mut E::Of) -> bool {
        match only_item(E::tag(), contents) {
            None => false,
            Some(inner) => E::view_into(inner, seen),
        }
    }
}

impl<'a, const NUMBER: u8, E: ViewSequence<'a>> ViewSequence<'a> for Application<NUMBER, E> {
    type Of = E::Of;

    ghost term = { ApplicationTerm NUMBER E.term };

    ghost value = { λ seen. E.value seen };

    ghost IsValid = { λ seen. E.IsValid seen };

    #[inline(always)]
    fn tag() -> u8 {
        0x60 + NUMBER
    }

    #[inline(always)]
    fn view_into(contents: &'a [u8], seen: &mut E::Of) -> bool {
        match only_item(E::tag(), contents) {
            None => false,
            Some(inner) => E::view_into(inner, seen),
        }
    }
}
