//! The path of the field at fault of a file.

ghost use Rattle.std.specs.Prelude.{◌≡◌, IfErr, IfOk, string_bytes};
ghost use Rattle.std.specs.Option.{option_map};
ghost use Rattle.krb_record.specs.Refusals.{known_path};
ghost use Rattle.krb_run.specs.Paths.{file_path};

use crate::run::RunFault;
use krb_file::{FieldPath, FileField, FileItem};
use krb_record::Form;
use std::alloc::Global;

/// Returns the path of a field of a file, if records of the form show it.
#[tactic(auto, unfolding(crate::specs::Paths::file_path))]
pub fn file_path(
    alloc: Global,
    form: Form,
    item: FileItem,
    field: Option<FileField>,
) -> Result<Option<String>, RunFault>
    ensures path { IfOk result (λ path. known_path form (option_map string_bytes path) ≡ known_path form (file_path item field)) }
    ensures fault { IfErr result (λ e. e ≡ RunFault.Memory) }
{
    match field {
        Some(field) if form.shows_paths() => {
            let path = FieldPath { item, field };
            Ok(Some(format!(in alloc; "{path}")?))
        }
        _ => Ok(None),
    }
}
