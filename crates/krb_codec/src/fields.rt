//! Fields put as octets: a list of them is described as it is viewed, each borrowed.

ghost use Rattle.std.specs.Prelude.{◌≡◌, ◌+◌, ◌≤◌, true, pos, length};
ghost use Rattle.std.specs.Vec.{vec_len, vec_capacity};
ghost use Rattle.std.specs.Option.{option_map};
ghost use Rattle.krb_der.specs.Puts.{Puts};
ghost use Rattle.krb_der.specs.Sizes.{saturated};
ghost use Rattle.krb_msg.specs.Term.{Term, Fields as TermFields, Sequence as SequenceTerm, Application as ApplicationTerm, Tagged, End as NoField, Required as RequiredField, Optional as OptionalField, Value, Values, der, der_of_fields, AllFit};
ghost use Rattle.krb_msg.specs.Grammar.{exactly};
ghost use Rattle.krb_msg.specs.Shape.{has_octet_tags, have_octet_tags};
ghost use Rattle.krb_codec.specs.Encoding.{IsSized};

use crate::item::Item;
use krb_der::{add_sizes, integer_size, item_size, put_header, put_integer};
use krb_msg::{Application, End, Fixed, Optional, Required, Sequence};

/// What is put as an item of a term.
pub trait Encode {
    /// The term of the grammar.
    ghost term: { Term };

    /// The value of the term.
    ghost value: { Self → Value term };

    /// Returns the number of octets; 2147483648 if there are more. The value fits the term.
    fn size(&self) -> u64
        ensures { IsSized term (value self.now) result };

    /// Appends the octets, at most 2147483647 of them, within the vector's
    /// capacity. It allocates nothing.
    fn put(&self, out: &mut Vec<u8>)
        requires tags { has_octet_tags term ≡ true }
        requires short { length (der term (value self.now)) ≤ 2147483647 }
        requires capacity { vec_len out.old + length (der term (value self.now)) ≤ vec_capacity out.old }
        ensures { Puts (der term (value self.now)) out.old out.new };
}

/// Fields, from one on, that are put.
pub trait EncodeFields {
    /// The fields of the grammar.
    ghost fields: { TermFields };

    /// Their values.
    ghost values: { Self → Values fields };

    /// Returns the number of octets; 2147483648 if there are more. The values fit the fields.
    fn size(&self) -> u64
        ensures octets { result ≡ saturated (length (der_of_fields fields (values self.now))) }
        ensures fit { AllFit fields (values self.now) };

    /// Appends the octets, at most 2147483647 of them, within the vector's
    /// capacity. It allocates nothing.
    fn put(&self, out: &mut Vec<u8>)
        requires tags { have_octet_tags fields ≡ true }
        requires short { length (der_of_fields fields (values self.now)) ≤ 2147483647 }
        requires capacity { vec_len out.old + length (der_of_fields fields (values self.now)) ≤ vec_capacity out.old }
        ensures { Puts (der_of_fields fields (values self.now)) out.old out.new };
}

impl EncodeFields for End {
    ghost fields = { NoField };

    ghost values = { λ end. tt };

    fn size(&self) -> u64 {
        0
    }

    fn put(&self, _out: &mut Vec<u8>) {}
}

impl<'a, const INDEX: u8, T: Item, F: EncodeFields> EncodeFields for Required<INDEX, &'a T, F> {
    ghost fields = { RequiredField (Tagged INDEX T.term) F.fields };

    ghost values = { λ list. (T.value list.0.now, F.values list.1) };

    fn size(&self) -> u64 {
        add_sizes(item_size(self.0.size()), self.1.size())
    }

    fn put(&self, out: &mut Vec<u8>) {
        put_header(out, 0xA0 + INDEX, self.0.size() as u32);
        self.0.put(out);
        self.1.put(out);
    }
}

impl<'a, const INDEX: u8, T: Item, F: EncodeFields> EncodeFields for Optional<INDEX, &'a T, F> {
    ghost fields = { OptionalField (Tagged INDEX T.term) F.fields };

    ghost values = { λ list. (option_map (λ value. T.value value.now) list.0, F.values list.1) };

    fn size(&self) -> u64 {
        match &self.0 {
            Some(value) => add_sizes(item_size(value.size()), self.1.size()),
            None => self.1.size(),
        }
    }

    fn put(&self, out: &mut Vec<u8>) {
        if let Some(value) = &self.0 {
            put_header(out, 0xA0 + INDEX, value.size() as u32);
            value.put(out);
        }
        self.1.put(out);
    }
}

impl<const INDEX: u8, const NUMBER: u8, F: EncodeFields> EncodeFields for Fixed<INDEX, NUMBER, F> {
    ghost fields = { RequiredField (Tagged INDEX (exactly NUMBER)) F.fields };

    ghost values = { λ list. (pos NUMBER, F.values list.0) };

    fn size(&self) -> u64 {
        add_sizes(item_size(integer_size(i64::from(NUMBER))), self.0.size())
    }

    fn put(&self, out: &mut Vec<u8>) {
        let number = i64::from(NUMBER);
        put_header(out, 0xA0 + INDEX, integer_size(number) as u32);
        put_integer(out, number);
        self.0.put(out);
    }
}

impl<F: EncodeFields> Encode for Sequence<F> {
    ghost term = { SequenceTerm F.fields };

    ghost value = { λ sequence. F.values sequence.0 };

    fn size(&self) -> u64 {
        item_size(self.0.size())
    }

    fn put(&self, out: &mut Vec<u8>) {
        put_header(out, 0x30, self.0.size() as u32);
        self.0.put(out);
    }
}

impl<const NUMBER: u8, E: Encode> Encode for Application<NUMBER, E> {
    ghost term = { ApplicationTerm NUMBER E.term };

    ghost value = { λ message. E.value message.0 };

    fn size(&self) -> u64 {
        item_size(self.0.size())
    }

    fn put(&self, out: &mut Vec<u8>) {
        put_header(out, 0x60 + NUMBER, self.0.size() as u32);
        self.0.put(out);
    }
}
