//! Why a JSON value spells no value of the grammar.

ghost use Rattle.std.specs.Prelude.{◌≡◌, ◌++◌, [], codes, decimal, IfOk, OnErr, string_bytes};
ghost use Rattle.krb_json.specs.Spelling.{shown};
ghost use Rattle.krb_json.specs.declared.value_fault.ValueFault.TheVariants.{Memory};
ghost use Rattle.krb_json.specs.inner.Reading.{IsFaultAt, IsUnder};

use crate::encryption::{after_index, after_name};
use crate::line_fault::Fault;
use crate::writing::shown;
use crate::wrong::Wrong;
use std::alloc::{AllocError, AllocFailed, Global};
use std::str;

/// Why a JSON value spells no value of the grammar.
#[derive(Drop)]
pub(crate) enum ValueFault {
    /// What is wrong, and where: the path is what follows that of the value.
    At(Fault),
    /// Out of memory.
    Memory,
}

impl From<AllocError> for ValueFault {
    ghost from_gives = { λ _ e. e ≡ Memory };

    fn from(_error: AllocError) -> ValueFault {
        ValueFault::Memory
    }
}

impl<T: Drop> From<AllocFailed<T>> for ValueFault {
    ghost from_gives = { λ _ e. e ≡ Memory };

    fn from(_error: AllocFailed<T>) -> ValueFault {
        ValueFault::Memory
    }
}

/// Returns the fault that something is wrong with the value itself.
pub(crate) fn fault_here(alloc: Global, wrong: Wrong) -> ValueFault
    ensures { IsFaultAt [] wrong result }
{
    ValueFault::At(Fault {
        path: String::new(alloc),
        wrong,
    })
}

/// Returns the fault of a path, if there was memory for it.
fn fault_at(path: Result<String, AllocError>, wrong: Wrong) -> ValueFault
    ensures fault { IfOk path (λ path. IsFaultAt (string_bytes path) wrong result) }
    ensures memory { OnErr path (result ≡ ValueFault.Memory) }
{
    match path {
        Ok(path) => ValueFault::At(Fault { path, wrong }),
        Err(_) => ValueFault::Memory,
    }
}

/// Returns the fault that something is wrong with the field of a name.
pub(crate) fn fault_of_field(alloc: Global, name: &str, wrong: Wrong) -> ValueFault
    ensures { IsFaultAt (codes "." ++ name.now) wrong result }
{
    fault_at(after_name(alloc, name, &String::new(alloc)), wrong)
}

/// Returns the fault that something is wrong with the member of a name that the line gives.
pub(crate) fn fault_of_member(alloc: Global, name: &str, wrong: Wrong) -> ValueFault
    ensures { IsFaultAt (codes "." ++ shown name.now) wrong result }
{
    match shown(alloc, name.as_bytes()) {
        Ok(text) => match str::from_utf8(text.as_slice()) {
            Ok(text) => fault_of_field(alloc, text, wrong),
            Err(_) => unreachable!(),
        },
        Err(_) => ValueFault::Memory,
    }
}

/// Returns what came of the value of a field, as what comes of the SEQUENCE that it is in.
pub(crate) fn in_field<T>(
    alloc: Global,
    name: &str,
    outcome: Result<T, ValueFault>,
) -> Result<T, ValueFault>
    ensures { IsUnder (codes "." ++ name.now) outcome result }
{
    match outcome {
        Ok(value) => Ok(value),
        Err(ValueFault::Memory) => Err(ValueFault::Memory),
        Err(ValueFault::At(Fault { path, wrong })) => {
            Err(fault_at(after_name(alloc, name, &path), wrong))
        }
    }
}

/// Returns what came of an item, as what comes of the SEQUENCE OF that it is in.
pub(crate) fn in_item(
    alloc: Global,
    index: usize,
    outcome: Result<(), ValueFault>,
) -> Result<(), ValueFault>
    ensures { IsUnder (codes "[" ++ decimal index ++ codes "]") outcome result }
{
    match outcome {
        Ok(()) => Ok(()),
        Err(ValueFault::Memory) => Err(ValueFault::Memory),
        Err(ValueFault::At(Fault { path, wrong })) => {
            Err(fault_at(after_index(alloc, index, &path), wrong))
        }
    }
}
