//! Where records of messages come from that do not lie in an input by themselves.

ghost use Rattle.std.specs.Prelude.{◌≡◌, ◌++◌, [], OnOk, codes};
ghost use Rattle.std.specs.List.{flat_map};
ghost use Rattle.krb_record.specs.Forms.{heading, json_string};
ghost use Rattle.krb_record.specs.Origins.{message_origin};
ghost use Rattle.krb_record.specs.Text.{joined, list_text};
ghost use Rattle.krb_record.specs.Values.{Layers as AreLayers};
ghost use Rattle.krb_source.specs.Layers.{layer_name};

use crate::cell::put_no_cell;
use crate::field::put_opening;
use crate::form::Form;
use crate::json::put_string;
use crate::origin::{Origin, put_opening_from};
use crate::path::Path;
use crate::put_field;
use crate::shown::{Shown, put_begin};
use crate::text_buffer::TextBuffer;
use krb_source::Layer;
use std::alloc::AllocError;

/// Where a message comes from: the line of an input that has one in each line, and what the message
/// lies in.
#[derive(Clone, Copy)]
pub struct MessageOrigin<'a> {
    /// The number of the line, from 1, if the input is one of several.
    pub line: Option<u64>,
    /// What the message lies in, the outermost first; of a message by itself, nothing.
    pub layers: &'a [Layer],
}

/// What a message lies in.
#[derive(Clone, Copy)]
struct Layers<'a>(&'a [Layer]);

/// Appends a comma and the name of a layer, for each of the layers.
fn put_other_names(line: &mut TextBuffer, layers: &[Layer]) -> Result<(), AllocError>
    ensures { OnOk result (line.new ≡ line.old ++ flat_map (λ layer. codes "," ++ layer_name layer) layers.now) }
{
    for layer in layers {
        line.push_str(",")?;
        line.push_str(layer.name())?;
    }
    Ok(())
}

/// Appends the names of layers with commas between them.
fn put_names(line: &mut TextBuffer, layers: &[Layer]) -> Result<(), AllocError>
    ensures { OnOk result (line.new ≡ line.old ++ joined [] (codes ",") layer_name layers.now) }
{
    match layers.split_first() {
        None => Ok(()),
        Some((first, others)) => {
            line.push_str(first.name())?;
            put_other_names(line, others)
        }
    }
}

/// Appends the name of a layer as a string.
fn put_name_string(object: &mut TextBuffer, layer: Layer) -> Result<(), AllocError>
    ensures { OnOk result (object.new ≡ object.old ++ json_string (layer_name layer)) }
{
    put_string(object, layer.name().as_bytes())
}

/// Appends a comma and the name of a layer as a string, for each of the layers.
fn put_other_strings(object: &mut TextBuffer, layers: &[Layer]) -> Result<(), AllocError>
    ensures { OnOk result (object.new ≡ object.old ++ flat_map (λ layer. codes "," ++ json_string (layer_name layer)) layers.now) }
{
    for layer in layers {
        object.push_str(",")?;
        put_name_string(object, *layer)?;
    }
    Ok(())
}

/// Appends the names of layers as strings in brackets.
fn put_name_list(object: &mut TextBuffer, layers: &[Layer]) -> Result<(), AllocError>
    ensures { OnOk result (object.new ≡ object.old ++ list_text (λ layer. json_string (layer_name layer)) layers.now) }
{
    object.push_str("[")?;
    if let Some((first, others)) = layers.split_first() {
        put_name_string(object, *first)?;
        put_other_strings(object, others)?;
    }
    object.push_str("]")
}

/// Appends the cell of layers.
fn put_layers_cell(text: &mut TextBuffer, layers: &[Layer]) -> Result<(), AllocError>
    ensures { OnOk result (text.new ≡ text.old ++ joined (codes "[]") (codes ",") layer_name layers.now) }
{
    match layers.split_first() {
        None => text.push_str("[]"),
        Some((first, others)) => {
            text.push_str(first.name())?;
            put_other_names(text, others)
        }
    }
}

/// The names with commas between them.
impl<'a> Shown for Layers<'a> {
    ghost shown = { λ layers. AreLayers layers.0.now };

    #[tactic(auto, unfolding(crate::specs::Forms::value_text))]
    fn put_text(&self, line: &mut TextBuffer, _names: bool) -> Result<(), AllocError> {
        put_names(line, self.0)
    }

    #[tactic(auto, unfolding(crate::specs::Forms::members, crate::specs::Forms::json_value, crate::specs::Forms::names_member))]
    fn put_members(&self, object: &mut TextBuffer, begin: &str) -> Result<(), AllocError> {
        put_begin(object, begin)?;
        put_name_list(object, self.0)
    }

    #[tactic(auto, unfolding(crate::specs::Forms::cell))]
    fn put_cell(&self, text: &mut TextBuffer, path: Path) -> Result<(), AllocError> {
        match path {
            Path::Whole => put_layers_cell(text, self.0),
            _ => put_no_cell(text),
        }
    }
}

/// The line, and what the message lies in.
impl<'a> Origin for MessageOrigin<'a> {
    ghost fields = { λ _ origin. message_origin origin.line origin.layers.now };

    fn put_fields(&self, text: &mut TextBuffer, form: Form) -> Result<(), AllocError> {
        let layers = self.layers;
        match (self.line, layers.split_first()) {
            (None, None) => Ok(()),
            (None, Some(_)) => put_field!(text, form, first "via": &Layers(layers)),
            (Some(line), None) => put_field!(text, form, first "line": &line),
            (Some(line), Some(_)) => {
                put_field!(text, form, first "line": &line)?;
                put_field!(text, form, "via": &Layers(layers))
            }
        }
    }
}

/// Appends what precedes the fields of a record that comes from a message.
pub fn put_message_opening(
    text: &mut TextBuffer,
    form: Form,
    origin: &MessageOrigin<'_>,
    kind: &str,
) -> Result<(), AllocError>
    ensures { OnOk result (text.new ≡ text.old ++ heading form (message_origin origin.now.line origin.now.layers.now) kind.now) }
{
    match (origin.line, origin.layers.split_first()) {
        (None, None) => put_opening(text, form, kind),
        (None, Some(_)) => put_opening_from(text, form, origin, kind),
        (Some(_), _) => put_opening_from(text, form, origin, kind),
    }
}
