//! Columns of rows.

ghost use Rattle.std.specs.Prelude.{◌≡◌, None};
ghost use Rattle.std.specs.Option.{option_copied};
ghost use Rattle.krb_choice.specs.Choices.{Inside, Kind, Member, chooses, is_of_origin};
ghost use Rattle.krb_choice.specs.Wanted.{wanted_beside};

use krb_record::{Path, Wanted};
use std::marker::Model;

/// What a column shows.
#[derive(Clone, Copy)]
pub(crate) enum Shows {
    /// The kind.
    Kind,
    /// The kinds of what is inside.
    Inside,
    /// A path of the field of a name.
    Field(&'static str, Path),
}

/// A column: what it shows of a record, or of what is inside of it.
#[derive(Drop)]
pub struct Column {
    /// The kind of what is inside, if it is not of the record itself.
    pub(crate) within: Option<&'static str>,
    pub(crate) shows: Shows,
}

impl Model for Column {
    ghost use Rattle.std.specs.Option.{option_copied};
    ghost use Rattle.krb_choice.specs.Choices.{Column};
    ghost use Rattle.krb_choice.specs.Shown.{shows_of};

    ghost Value = { Column };

    ghost view = { λ column. record { within = option_copied column.within; shows = shows_of column.shows } };
}

/// Returns whether fields of a name say where a record comes from.
fn is_of_origin(name: &str) -> bool
    ensures { result ≡ is_of_origin name.now }
{
    (name == "file")
        | (name == "packet")
        | (name == "t")
        | (name == "t_us")
        | (name == "flow")
        | (name == "line")
        | (name == "via")
}

impl Column {
    /// Returns the column of the kind of a record, or of what is inside of a kind.
    pub fn kind(within: Option<&'static str>) -> Column
        ensures { result ≡ record { within = option_copied within.entry; shows = Kind } }
    {
        Column {
            within,
            shows: Shows::Kind,
        }
    }

    /// Returns the column of the kinds of what is inside.
    pub fn inside() -> Column
        ensures { result ≡ record { within = None; shows = Inside } }
    {
        Column {
            within: None,
            shows: Shows::Inside,
        }
    }

    /// Returns the column of a path of a field, of the record or of what is inside of a kind.
    pub fn field(within: Option<&'static str>, field: &'static str, path: Path) -> Column
        ensures { result ≡ record { within = option_copied within.entry; shows = Member field.now path } }
    {
        Column {
            within,
            shows: Shows::Field(field, path),
        }
    }

    /// Returns what is wanted beside other fields, so that the column is shown.
    pub(crate) fn wanted_beside(&self, others: Wanted) -> Wanted
        ensures { result ≡ wanted_beside others self.now }
    {
        let wanted = match self.shows {
            Shows::Kind => others,
            Shows::Inside => others.with_inside(),
            Shows::Field(name, path) => others.with(name, path),
        };
        match self.within {
            None => wanted,
            Some(_) => wanted.with_inside(),
        }
    }

    /// Returns whether only records are kept that have it, where no kinds are chosen.
    pub(crate) fn chooses(&self) -> bool
        ensures { result ≡ chooses self.now }
    {
        match (self.within, self.shows) {
            (None, Shows::Kind) => false,
            (None, Shows::Field(name, _)) => !is_of_origin(name),
            _ => true,
        }
    }
}
