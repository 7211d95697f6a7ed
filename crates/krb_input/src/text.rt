//! A text that is read octet by octet, in which comments may be blanks.

ghost use Rattle.std.specs.Prelude.{◌≡◌, ◌≤◌, length};
ghost use Rattle.krb_der.specs.Octets.{begins_with};
ghost use Rattle.krb_input.specs.Characters.{count_digits, length_before};
ghost use Rattle.krb_input.specs.Comments.{after, blanked, text_left, unclosed};
ghost use Rattle.krb_input.specs.inner.Results.{IsFirst};

use crate::characters::{begins_with, is_digit};

/// Where a text is, of the comments from `/*` to `*/` in it.
#[derive(Clone, Copy, PartialEq, Eq)]
pub(crate) enum Comments {
    /// In a text that has no comments: `/*` and `*/` are as any other octets.
    Unread,
    /// Between the comments.
    Outside,
    /// At the `*` that begins a comment.
    Opening,
    /// In a comment.
    Inside,
    /// At the `/` that ends a comment.
    Closing,
}

impl Comments {
    /// Returns where the text is after an octet, which others follow.
    fn after(self, octet: u8, others: &[u8]) -> Comments
        ensures { result ≡ after self octet others.now }
    {
        match self {
            Comments::Unread => Comments::Unread,
            Comments::Outside if octet == b'/' && begins_with(others, b'*') => Comments::Opening,
            Comments::Opening => Comments::Inside,
            Comments::Inside if octet == b'*' && begins_with(others, b'/') => Comments::Closing,
            Comments::Inside => Comments::Inside,
            Comments::Outside | Comments::Closing => Comments::Outside,
        }
    }
}

/// What is left of a text.
#[derive(Clone, Copy)]
pub(crate) struct Text<'a> {
    rest: &'a [u8],
    comments: Comments,
}

impl<'a> Text<'a> {
    /// Returns a text that has no comments.
    #[tactic(auto, using(crate::proofs::Blanked::blanks))]
    pub(crate) fn new(text: &'a [u8]) -> Self
        ensures { text_left result ≡ text.now }
    {
        Text {
            rest: text,
            comments: Comments::Unread,
        }
    }

    /// Returns a text in which comments are blanks.
    pub(crate) fn with_comments(text: &'a [u8]) -> Self
        ensures { text_left result ≡ blanked Comments.Outside text.now }
    {
        Text {
            rest: text,
            comments: Comments::Outside,
        }
    }

    /// Returns how many octets are left.
    #[tactic(auto, using(crate::proofs::Blanked::blanks))]
    pub(crate) fn left(self) -> usize
        ensures { result ≡ length (text_left self.entry) }
    {
        self.rest.len()
    }

    /// Returns the first octet, and what follows it.
    pub(crate) fn split_first(self) -> Option<(u8, Text<'a>)>
        ensures { IsFirst (text_left self.entry) result }
    {
        let [octet, others @ ..] = self.rest else {
            return None;
        };
        let comments = self.comments.after(*octet, others);
        let shown = match (self.comments, comments) {
            (Comments::Unread, _) | (Comments::Outside, Comments::Outside) => *octet,
            _ => b' ',
        };
        Some((
            shown,
            Text {
                rest: others,
                comments,
            },
        ))
    }

    /// Returns whether an octet is the first.
    pub(crate) fn begins_with(self, octet: u8) -> bool
        ensures { result ≡ begins_with octet (text_left self.entry) }
    {
        match self.split_first() {
            Some((first, _)) => first == octet,
            None => false,
        }
    }

    /// Returns how many digits come first.
    #[tactic(auto, using(crate::proofs::Blanked::blanks))]
    pub(crate) fn count_digits(self) -> usize
        ensures { result ≡ count_digits (text_left self.entry) }
    {
        let mut rest = self;
        let mut count = 0;
        while let Some((octet, others)) = rest.split_first() {
            if !is_digit(octet) {
                return count;
            }
            count += 1;
            rest = others;
        }
        count
    }

    /// Returns how many octets come before the first of an octet, or in all.
    #[tactic(auto, using(crate::proofs::Blanked::blanks))]
    pub(crate) fn length_before(self, octet: u8) -> usize
        ensures count { result ≡ length_before octet (text_left self.entry) }
        ensures within { result ≤ length (text_left self.entry) }
    {
        let mut rest = self;
        let mut count = 0;
        while let Some((first, others)) = rest.split_first() {
            if first == octet {
                return count;
            }
            count += 1;
            rest = others;
        }
        count
    }
}

/// Returns how many octets there are from the `/*` on that no `*/` follows, if there is one.
pub(crate) fn unclosed(text: &[u8]) -> Option<usize>
    ensures { result ≡ unclosed text.now }
{
    let mut rest = text;
    let mut comments = Comments::Outside;
    let mut opened = 0;
    while let [octet, others @ ..] = rest {
        let next = comments.after(*octet, others);
        if next == Comments::Opening {
            opened = rest.len();
        }
        comments = next;
        rest = others;
    }
    if comments == Comments::Outside {
        None
    } else {
        Some(opened)
    }
}
