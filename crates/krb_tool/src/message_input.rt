//! The record of a message, by the octets that an input spells.

ghost use Rattle.std.specs.Prelude.{◌≡◌, ◌+◌, ◌<◌, ◌^◌, length, IfErr, IfOk, Ok, Some, string_bytes};
ghost use Rattle.std.specs.Option.{option_map};
ghost use Rattle.krb_input.specs.Inputs.{IsFaultOf};
ghost use Rattle.krb_judge.specs.Parses.{refusal_of, ticket_refusal};
ghost use Rattle.krb_record.specs.Refusals.{known_path};
ghost use Rattle.krb_token.specs.Seen.{path_text};
ghost use Rattle.krb_tool.specs.Messages.{Puts, extent_of, input_listing, input_octets_listing, judged_listing, layered_of, ntlm_listing, refused_listing, spelled_in, ticket_listing, too_long_listing, unread_listing, whole_input};
ghost use Rattle.krb_tool.specs.Paths.{ticket_refused_path};
ghost use Rattle.krb_record.specs.declared.input.InputFault.TheVariants.{Misspelled};

use crate::fault_path::refused_path;
use krb_der::{Profile, Refusal, Why};
use krb_input::{InputFault as Unspelled, Misspelling, Spelled, Spelling, read_input, read_line};
use krb_judge::law::refusals_are_inside;
use krb_judge::{read_message_in, read_ticket_in, ticket_path};
use krb_record::{
    Extent, Form, InputFault, MessageOrigin, TextBuffer, put_input_refusal, put_message_refusal,
};
use krb_run::{RunEnd, RunFault};
use krb_text::{put_message_from, put_ticket};
use krb_token::{Found, Layer, TokenPath, open};
use std::alloc::Global;

/// The greatest number of octets of an input that spells a message.
pub(crate) const MOST_INPUT: usize = 16777216;

/// The greatest number of octets of a message.
const MOST_OCTETS: usize = 2147483647;

/// An input that spells one message: the form of its record, the profile of the message, and where
/// the input is.
#[derive(Clone, Copy)]
pub(crate) struct MessageInput {
    pub form: Form,
    pub profile: Profile,
    /// The number of its line, from 1, if it is one line of several.
    pub line: Option<u64>,
    /// The offset of its first octet.
    pub at: u64,
}

/// The octets that an input spells, how they are spelled, and the layers of them that are opened.
#[derive(Clone, Copy)]
struct Layered<'a> {
    all: &'a [u8],
    spelling: Spelling,
    layers: &'static [Layer],
}

impl MessageInput {
    /// Returns an input that is all of a source.
    pub(crate) fn whole(form: Form, profile: Profile) -> MessageInput
        ensures { result ≡ whole_input form profile }
    {
        MessageInput {
            form,
            profile,
            line: None,
            at: 0,
        }
    }

    /// Appends the record of the input.
    pub(crate) fn put(
        &self,
        alloc: Global,
        text: &mut TextBuffer,
        input: &[u8],
    ) -> Result<RunEnd, RunFault>
        ensures put { IfOk result (Puts self.now.form text.old text.new (input_listing self.now input.now)) }
        ensures fault { IfErr result (λ e. e ≡ RunFault.Memory) }
    {
        if input.len() > MOST_INPUT {
            return self.put_unread(text, InputFault::Length, None);
        }
        match self.read(alloc, input) {
            Ok(made) => self.put_octets(alloc, text, made.form, made.octets.as_slice()),
            Err(Unspelled::Misspelled(fault)) => self.put_misspelling(text, fault),
            Err(Unspelled::Memory) => Err(RunFault::Memory),
        }
    }

    /// Returns the octets that the input spells: one line of several is read as a line.
    #[tactic(auto, unfolding(crate::specs::Messages::spelled_in))]
    fn read(&self, alloc: Global, input: &[u8]) -> Result<Spelled, Unspelled>
        ensures octets { IfOk result (λ made. spelled_in self.now.line input.now ≡ Ok (made.form, made.octets.items)) }
        ensures fault { IfErr result (IsFaultOf (spelled_in self.now.line input.now)) }
    {
        match self.line {
            None => read_input(alloc, input),
            Some(_) => read_line(alloc, input),
        }
    }

    /// Appends the record of the octets that an input spells: that of the message that they are, or
    /// that lies in the layers of a token, that of a Ticket, or that of their refusal.
    #[tactic(auto, unfolding(crate::specs::Messages::input_octets_listing))]
    pub(crate) fn put_octets(
        &self,
        alloc: Global,
        text: &mut TextBuffer,
        spelling: Spelling,
        octets: &[u8],
    ) -> Result<RunEnd, RunFault>
        ensures put { IfOk result (Puts self.now.form text.old text.new (input_octets_listing self.now spelling octets.now)) }
        ensures fault { IfErr result (λ e. e ≡ RunFault.Memory) }
    {
        if octets.len() > MOST_OCTETS {
            return self.put_too_long(text, spelling, octets);
        }
        let opened = open(octets);
        let layered = Layered {
            all: octets,
            spelling,
            layers: opened.layers,
        };
        match opened.found {
            Found::Message { place, octets } => {
                self.put_message(alloc, text, &layered, place, octets)
            }
            Found::Ticket(_) => self.put_ticket(alloc, text, &layered),
            Found::Ntlm { place } => self.put_ntlm(text, &layered, place),
            Found::Refused { refusal, path } => {
                self.put_layer_refusal(alloc, text, &layered, refusal, path)
            }
        }
    }

    /// Appends the record of more octets than a message may have.
    fn put_too_long(
        &self,
        text: &mut TextBuffer,
        spelling: Spelling,
        octets: &[u8],
    ) -> Result<RunEnd, RunFault>
        ensures put { IfOk result (Puts self.now.form text.old text.new (too_long_listing self.now spelling octets.now)) }
        ensures fault { IfErr result (λ e. e ≡ RunFault.Memory) }
    {
        let layered = Layered {
            all: octets,
            spelling,
            layers: &[],
        };
        let place = 0;
        let why = Why::TooLong;
        self.put_refusal(text, &layered, Refusal { place, why }, &None)
    }

    /// Appends the record of octets that are judged as a message, of which the first is at a place.
    fn put_message(
        &self,
        alloc: Global,
        text: &mut TextBuffer,
        layered: &Layered<'_>,
        place: u32,
        octets: &[u8],
    ) -> Result<RunEnd, RunFault>
        requires short { place + length octets.now < 2 ^ 31 }
        ensures put { IfOk result (Puts self.now.form text.old text.new (judged_listing self.now (layered_of layered.now) place octets.now (refusal_of self.now.profile octets.now))) }
        ensures fault { IfErr result (λ e. e ≡ RunFault.Memory) }
    {
        let origin = self.origin(layered.layers);
        if put_message_from(text, self.form, &origin, self.profile, octets)? {
            return Ok(RunEnd::Clean);
        }
        let Err(refusal) = read_message_in(self.profile, octets) else {
            unreachable!()
        };
        refusals_are_inside();
        let path = refused_path(alloc, self.form, self.profile, octets, refusal)?;
        let place = place + refusal.place;
        let why = refusal.why;
        self.put_refusal(text, layered, Refusal { place, why }, &path)
    }

    /// Appends the record of octets that are judged as a Ticket.
    fn put_ticket(
        &self,
        alloc: Global,
        text: &mut TextBuffer,
        layered: &Layered<'_>,
    ) -> Result<RunEnd, RunFault>
        requires short { length layered.now.all.now < 2 ^ 31 }
        ensures put { IfOk result (Puts self.now.form text.old text.new (ticket_listing self.now (layered_of layered.now) (ticket_refusal self.now.profile layered.now.all.now))) }
        ensures fault { IfErr result (λ e. e ≡ RunFault.Memory) }
    {
        match read_ticket_in(self.profile, layered.all) {
            Ok(ticket) => {
                put_ticket(text, self.form, &self.origin(layered.layers), &ticket)?;
                Ok(RunEnd::Clean)
            }
            Err(refusal) => {
                let path = self.ticket_path(alloc, layered.all, refusal)?;
                self.put_refusal(text, layered, refusal, &path)
            }
        }
    }

    /// Returns the path in octets that are refused as a Ticket, if records of the form show it.
    fn ticket_path(
        &self,
        alloc: Global,
        octets: &[u8],
        refusal: Refusal,
    ) -> Result<Option<String>, RunFault>
        requires short { length octets.now < 2 ^ 31 }
        ensures path { IfOk result (λ path. known_path self.now.form (option_map string_bytes path) ≡ known_path self.now.form (ticket_refused_path self.now.profile octets.now refusal)) }
        ensures fault { IfErr result (λ e. e ≡ RunFault.Memory) }
    {
        if !self.form.shows_paths() {
            return Ok(None);
        }
        let prefix = (refusal.place as usize + 1).min(octets.len());
        let size = octets.len() as u32;
        Ok(Some(ticket_path(alloc, self.profile, size, &octets[..prefix])?))
    }

    /// Appends the record of a message of NTLM, whose first octet is at a place.
    fn put_ntlm(
        &self,
        text: &mut TextBuffer,
        layered: &Layered<'_>,
        place: u32,
    ) -> Result<RunEnd, RunFault>
        ensures put { IfOk result (Puts self.now.form text.old text.new (ntlm_listing self.now (layered_of layered.now) place)) }
        ensures fault { IfErr result (λ e. e ≡ RunFault.Memory) }
    {
        put_input_refusal(
            text,
            self.form,
            &self.origin(layered.layers),
            InputFault::Ntlm,
            Some(u64::from(place)),
            self.extent(layered.all),
            Some(layered.spelling),
        )?;
        Ok(RunEnd::RefusedAtOnce)
    }

    /// Appends the record of an octet of a layer that is at fault.
    fn put_layer_refusal(
        &self,
        alloc: Global,
        text: &mut TextBuffer,
        layered: &Layered<'_>,
        refusal: Refusal,
        path: Option<TokenPath>,
    ) -> Result<RunEnd, RunFault>
        ensures put { IfOk result (Puts self.now.form text.old text.new (refused_listing self.now (layered_of layered.now) refusal (option_map path_text path))) }
        ensures fault { IfErr result (λ e. e ≡ RunFault.Memory) }
    {
        match path {
            None => self.put_refusal(text, layered, refusal, &None),
            Some(path) => {
                let path = format!(in alloc; "{path}")?;
                self.put_refusal(text, layered, refusal, &Some(path))
            }
        }
    }

    /// Appends the record of octets that are refused.
    fn put_refusal(
        &self,
        text: &mut TextBuffer,
        layered: &Layered<'_>,
        refusal: Refusal,
        path: &Option<String>,
    ) -> Result<RunEnd, RunFault>
        ensures put { IfOk result (Puts self.now.form text.old text.new (refused_listing self.now (layered_of layered.now) refusal (option_map string_bytes path.now))) }
        ensures fault { IfErr result (λ e. e ≡ RunFault.Memory) }
    {
        put_message_refusal(
            text,
            self.form,
            &self.origin(layered.layers),
            refusal,
            path.as_deref(),
            self.extent(layered.all),
            layered.spelling,
        )?;
        Ok(RunEnd::RefusedAtOnce)
    }

    /// Appends the record of a text that spells no octets.
    fn put_misspelling(&self, text: &mut TextBuffer, fault: Misspelling) -> Result<RunEnd, RunFault>
        ensures put { IfOk result (Puts self.now.form text.old text.new (unread_listing self.now (Misspelled fault.form) (Some fault.place))) }
        ensures fault { IfErr result (λ e. e ≡ RunFault.Memory) }
    {
        self.put_unread(text, InputFault::Misspelled(fault.form), Some(fault.place))
    }

    /// Appends the record of an input that spells no octets.
    fn put_unread(
        &self,
        text: &mut TextBuffer,
        fault: InputFault,
        place: Option<u64>,
    ) -> Result<RunEnd, RunFault>
        ensures put { IfOk result (Puts self.now.form text.old text.new (unread_listing self.now fault place)) }
        ensures fault { IfErr result (λ e. e ≡ RunFault.Memory) }
    {
        let extent = Extent {
            at: self.at,
            length: None,
        };
        let origin = self.origin(&[]);
        put_input_refusal(text, self.form, &origin, fault, place, extent, None)?;
        Ok(RunEnd::RefusedAtOnce)
    }

    /// Returns where a record comes from.
    fn origin(&self, layers: &'static [Layer]) -> MessageOrigin<'static>
        ensures line { result.line ≡ self.now.line }
        ensures layers { result.layers.now ≡ layers.now }
    {
        MessageOrigin {
            line: self.line,
            layers,
        }
    }

    /// Returns where octets of the input are, and how many.
    fn extent(&self, octets: &[u8]) -> Extent
        ensures { result ≡ extent_of self.now octets.now }
    {
        Extent {
            at: self.at,
            length: Some(octets.len() as u64),
        }
    }
}
