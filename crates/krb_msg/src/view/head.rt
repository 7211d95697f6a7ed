//! Items found in place (X.690, 8.1 and 10.1).
//!
//! Of most items and fields the lengths have one octet, which is read in place. The rarer forms are
//! read by calls, which return where contents are: two numbers, in registers.

ghost use Rattle.std.specs.Prelude.{◌≡◌, ◌+◌, ◌^◌, ◌<◌, ◌≤◌, ◌++◌, ◌∷◌, [], length, take, drop, MatchOption, IfSome};
ghost use Rattle.krb_der.specs.Octets.{item, length_octets};
ghost use Rattle.krb_msg.specs.inner.Fields.{HasNoField, IsHead};
ghost use Rattle.krb_msg.specs.Viewed.{HasNoItem, IsNoItem, HasNoLength};

use krb_der::number_of;

/// Returns the contents of the first item, if it has a tag, and what follows it.
#[inline(always)]
pub fn first_item(tag: u8, octets: &[u8]) -> Option<(&[u8], &[u8])>
    requires { length octets.now < 2 ^ 31 }
    ensures { MatchOption result (HasNoItem tag octets.now) (λ (contents, rest). octets.now ≡ item tag contents.now ++ rest.now) }
{
    let [first, octet, rest @ ..] = octets else {
        return None;
    };
    if *first != tag {
        return None;
    }
    if *octet < 0x80 {
        return split(rest, usize::from(*octet));
    }
    long_item(tag, octets)
}

/// Where contents are in octets that begin with their item, or with their field. A call returns it
/// in a register.
#[derive(Clone, Copy)]
struct Head {
    /// How many octets are before the contents. There are no contents if it is 0.
    before: u32,
    /// How many octets the contents are.
    size: u32,
}

/// Returns where contents are in octets, by them and by what follows them.
#[inline(always)]
fn head_of(octets: &[u8], contents: &[u8], rest: &[u8]) -> Head
    requires short { length octets.now < 2 ^ 31 }
    requires within { length contents.now + length rest.now ≤ length octets.now }
    ensures before { result.before + length contents.now + length rest.now ≡ length octets.now }
    ensures size { result.size ≡ length contents.now }
{
    Head {
        before: (octets.len() - contents.len() - rest.len()) as u32,
        size: contents.len() as u32,
    }
}

/// Returns the contents, and what follows them.
#[inline(always)]
fn split_at_head(octets: &[u8], head: Head) -> (&[u8], &[u8])
    requires { head.before + head.size ≤ length octets.now }
    ensures contents { result.0.now ≡ take head.size (drop head.before octets.now) }
    ensures rest { result.1.now ≡ drop head.size (drop head.before octets.now) }
{
    octets[head.before as usize..].split_at(head.size as usize)
}

/// Returns the same as [`first_item`], for a length of several octets.
#[inline(always)]
fn long_item(tag: u8, octets: &[u8]) -> Option<(&[u8], &[u8])>
    requires { length octets.now < 2 ^ 31 }
    ensures { MatchOption result (HasNoItem tag octets.now) (λ (contents, rest). octets.now ≡ item tag contents.now ++ rest.now) }
{
    let head = find_head(tag, octets);
    if head.before == 0 {
        None
    } else {
        Some(split_at_head(octets, head))
    }
}

/// Returns the same as [`first_item`], if one or two octets after the first spell the length.
#[inline(always)]
fn wide_item(tag: u8, octets: &[u8]) -> Option<(&[u8], &[u8])>
    ensures { IfSome result (λ (contents, rest). octets.now ≡ item tag contents.now ++ rest.now) }
{
    match octets {
        [first, form, high, low, rest @ ..] if *form == 0x82 && *first == tag && *high != 0 => {
            split(rest, usize::from(*high) * 256 + usize::from(*low))
        }
        [first, form, size, rest @ ..] if *form == 0x81 && *first == tag && *size >= 0x80 => {
            split(rest, usize::from(*size))
        }
        _ => None,
    }
}

/// Returns where the contents of the first item are, if it has a tag, by a call.
#[inline(never)]
fn find_head(tag: u8, octets: &[u8]) -> Head
    requires { length octets.now < 2 ^ 31 }
    ensures none { result.before ≡ 0 → HasNoItem tag octets.now }
    ensures some { 0 < result.before → IsHead (item tag) octets.now result.before result.size }
{
    match wide_item(tag, octets) {
        Some((contents, rest)) => head_of(octets, contents, rest),
        None => find_other_head(tag, octets),
    }
}

/// Returns the same as [`find_head`], for other lengths.
#[inline(never)]
fn find_other_head(tag: u8, octets: &[u8]) -> Head
    requires { length octets.now < 2 ^ 31 }
    ensures none { result.before ≡ 0 → HasNoItem tag octets.now }
    ensures some { 0 < result.before → IsHead (item tag) octets.now result.before result.size }
{
    match any_item(tag, octets) {
        Some((contents, rest)) => head_of(octets, contents, rest),
        None => Head { before: 0, size: 0 },
    }
}

/// Returns the same as [`first_item`], whatever the length is.
#[inline(always)]
fn any_item(tag: u8, octets: &[u8]) -> Option<(&[u8], &[u8])>
    requires { length octets.now < 2 ^ 31 }
    ensures { MatchOption result (HasNoItem tag octets.now) (λ (contents, rest). octets.now ≡ item tag contents.now ++ rest.now) }
{
    let [first, octet, rest @ ..] = octets else {
        return None;
    };
    if *first != tag {
        return None;
    }
    match first_length(*octet, rest) {
        Some((size, contents)) => split(contents, size),
        None => None,
    }
}

/// Returns the contents of the item in a field with which octets begin, if both have their tags,
/// and what follows the field.
#[inline(always)]
pub(crate) fn first_field(outer: u8, tag: u8, octets: &[u8]) -> Option<(&[u8], &[u8])>
    requires { length octets.now < 2 ^ 31 }
    ensures { MatchOption result (HasNoField outer tag octets.now) (λ (contents, rest). octets.now ≡ item outer (item tag contents.now) ++ rest.now) }
{
    if let [first, size, second, inner, rest @ ..] = octets {
        let inner_size = usize::from(*inner);
        if *first == outer
            && *size < 0x80
            && *second == tag
            && inner_size + 2 == usize::from(*size)
            && inner_size <= rest.len()
        {
            return Some(rest.split_at(inner_size));
        }
    }
    long_field(outer, tag, octets)
}

/// Returns what follows a field with which octets begin, of an INTEGER of one octet that is known.
#[inline(always)]
pub(crate) fn after_octet(outer: u8, number: u8, octets: &[u8]) -> Option<&[u8]>
    ensures { IfSome result (λ rest. octets.now ≡ item outer (item 2 (number ∷ [])) ++ rest.now) }
{
    match octets {
        [first, 3, 2, 1, octet, rest @ ..] if *first == outer && *octet == number => Some(rest),
        _ => None,
    }
}

/// Returns the same as [`first_field`], for other lengths.
#[inline(always)]
fn long_field(outer: u8, tag: u8, octets: &[u8]) -> Option<(&[u8], &[u8])>
    requires { length octets.now < 2 ^ 31 }
    ensures { MatchOption result (HasNoField outer tag octets.now) (λ (contents, rest). octets.now ≡ item outer (item tag contents.now) ++ rest.now) }
{
    let head = find_heads(outer, tag, octets);
    if head.before == 0 {
        None
    } else {
        Some(split_at_head(octets, head))
    }
}

/// Returns where the contents of the item in the first field are, if both have their tags, by a
/// call.
#[inline(never)]
fn find_heads(outer: u8, tag: u8, octets: &[u8]) -> Head
    requires { length octets.now < 2 ^ 31 }
    ensures none { result.before ≡ 0 → HasNoField outer tag octets.now }
    ensures some { 0 < result.before → IsHead (λ contents. item outer (item tag contents)) octets.now result.before result.size }
{
    match wide_field(outer, tag, octets) {
        Some((contents, rest)) => head_of(octets, contents, rest),
        None => find_other_heads(outer, tag, octets),
    }
}

/// Returns the same as [`first_field`], if one or two octets after the first spell each length.
#[inline(always)]
fn wide_field(outer: u8, tag: u8, octets: &[u8]) -> Option<(&[u8], &[u8])>
    ensures { IfSome result (λ (contents, rest). octets.now ≡ item outer (item tag contents.now) ++ rest.now) }
{
    match octets {
        [first, form, high, low, inner @ ..] if *form == 0x82 && *first == outer && *high != 0 => {
            sized_item(tag, inner, usize::from(*high) * 256 + usize::from(*low))
        }
        [first, form, size, inner @ ..] if *form == 0x81 && *first == outer && *size >= 0x80 => {
            sized_item(tag, inner, usize::from(*size))
        }
        _ => None,
    }
}

/// Returns the same as [`wide_item`], if the item has a size.
#[inline(always)]
fn sized_item(tag: u8, octets: &[u8], size: usize) -> Option<(&[u8], &[u8])>
    ensures { IfSome result (λ (contents, rest). (length (item tag contents.now) ≡ size) × (octets.now ≡ item tag contents.now ++ rest.now)) }
{
    let (contents, rest) = wide_item(tag, octets)?;
    if octets.len() - rest.len() == size {
        Some((contents, rest))
    } else {
        None
    }
}

/// Returns the same as [`find_heads`], for other lengths.
#[inline(never)]
fn find_other_heads(outer: u8, tag: u8, octets: &[u8]) -> Head
    requires { length octets.now < 2 ^ 31 }
    ensures none { result.before ≡ 0 → HasNoField outer tag octets.now }
    ensures some { 0 < result.before → IsHead (λ contents. item outer (item tag contents)) octets.now result.before result.size }
{
    match any_field(outer, tag, octets) {
        Some((contents, rest)) => head_of(octets, contents, rest),
        None => Head { before: 0, size: 0 },
    }
}

/// Returns the same as [`first_field`], whatever the lengths are.
#[inline(always)]
fn any_field(outer: u8, tag: u8, octets: &[u8]) -> Option<(&[u8], &[u8])>
    requires { length octets.now < 2 ^ 31 }
    ensures { MatchOption result (HasNoField outer tag octets.now) (λ (contents, rest). octets.now ≡ item outer (item tag contents.now) ++ rest.now) }
{
    let (inner, rest) = any_item(outer, octets)?;
    let (contents, others) = any_item(tag, inner)?;
    if others.is_empty() {
        Some((contents, rest))
    } else {
        None
    }
}

/// Returns a first part of a size, and the other octets.
#[inline(always)]
fn split(octets: &[u8], size: usize) -> Option<(&[u8], &[u8])>
    ensures { MatchOption result (length octets.now < size) (λ (prefix, rest). (length prefix.now ≡ size) × (octets.now ≡ prefix.now ++ rest.now)) }
{
    if size <= octets.len() {
        Some(octets.split_at(size))
    } else {
        None
    }
}

/// Returns the length of contents (X.690, 8.1.3 and 10.1), by its first octet and those after it, and
/// what follows it. There is none if the octets spell no length below 2^31 in the shortest way.
#[inline(always)]
pub fn first_length(first: u8, octets: &[u8]) -> Option<(usize, &[u8])>
    ensures { MatchOption result (HasNoLength (first ∷ octets.now)) (λ (size, rest). first ∷ octets.now ≡ length_octets size ++ rest.now) }
{
    if first < 0x80 {
        return Some((usize::from(first), octets));
    }
    find_length(first, octets)
}

/// Returns a length of several octets, by its first octet and those after it, and what follows it,
/// by a call.
#[inline(never)]
fn find_length(first: u8, octets: &[u8]) -> Option<(usize, &[u8])>
    requires { 128 ≤ first }
    ensures { MatchOption result (HasNoLength (first ∷ octets.now)) (λ (size, rest). first ∷ octets.now ≡ length_octets size ++ rest.now) }
{
    let count = usize::from(first) - 0x80;
    if count == 0 || count > 4 || octets.len() < count {
        return None;
    }
    let (digits, rest) = octets.split_at(count);
    let size = number_of(digits);
    if digits[0] == 0 || size < 0x80 {
        return None;
    }
    Some((size as usize, rest))
}

/// Returns the contents of an item of a tag, if the octets are one.
#[inline(always)]
pub(crate) fn only_item(tag: u8, octets: &[u8]) -> Option<&[u8]>
    requires { length octets.now < 2 ^ 31 }
    ensures { MatchOption result (IsNoItem tag octets.now) (λ contents. octets.now ≡ item tag contents.now) }
{
    let (contents, rest) = first_item(tag, octets)?;
    if rest.is_empty() {
        Some(contents)
    } else {
        None
    }
}
