//! The sources of a command line, with each cache of a directory as one of its own.

ghost use Rattle.std.specs.Prelude.{◌≡◌, ◌++◌, map, IfOk, OnOk};
ghost use Rattle.krb_words.specs.Sources.{place_of};
ghost use Rattle.krb_host.specs.Expanded.{Expands, IsEmptyTold, Puts, cache_in};

use crate::host::Host;
use krb_run::RunFault;
use krb_words::{NamedPath, Source};
use std::alloc::{AllocError, Global};

/// The status of a directory that cannot be read.
const FAULT: u8 = 3;

/// What is said of a directory without a cache.
const NO_CACHE: &str = "this directory has no credential cache: no name in it begins with tkt";

/// Sources that can be opened, and the greatest of the statuses of those that cannot be looked for.
#[derive(Drop)]
pub struct Expanded {
    pub sources: Vec<Source>,
    pub status: u8,
}

/// Returns a copy of a name and its path.
fn copied(alloc: Global, named: &NamedPath) -> Result<NamedPath, AllocError>
    ensures { IfOk result (λ copy. (copy.name.items ≡ named.now.name.items) × (copy.path.items ≡ named.now.path.items)) }
{
    Ok(NamedPath {
        name: Vec::from_slice(alloc, named.name.as_slice())?,
        path: Vec::from_slice(alloc, named.path.as_slice())?,
    })
}

/// Returns the cache of a name in the directory of a path.
fn cache_in(alloc: Global, directory: &[u8], name: &[u8]) -> Result<Source, AllocError>
    ensures { IfOk result (λ source. place_of source ≡ cache_in directory.now name.now) }
{
    let mut path = Vec::from_slice(alloc, directory)?;
    path.extend_from_slice(b"/")?;
    path.extend_from_slice(name)?;
    let mut shown = Vec::from_slice(alloc, b"DIR::")?;
    shown.extend_from_slice(path.as_slice())?;
    Ok(Source::File(NamedPath { name: shown, path }))
}

/// Appends the caches of these names in the directory of a path.
fn put_caches(
    alloc: Global,
    directory: &[u8],
    names: &[Vec<u8>],
    sources: &mut Vec<Source>,
) -> Result<(), AllocError>
    ensures { OnOk result (map place_of sources.new.items ≡ map place_of sources.old.items ++ map (λ name. cache_in directory.now name.items) names.now) }
{
    for name in names {
        sources.push(cache_in(alloc, directory, name.as_slice())?)?;
    }
    Ok(())
}

/// Tells that a directory has no cache, if it has no name of one.
fn tell_empty<H: Host>(host: &H, source: &Source, names: &[Vec<u8>])
    ensures { IsEmptyTold (H.around host.now) source.now (map (λ name. name.items) names.now) }
{
    if names.is_empty() {
        host.tell_hint(source, NO_CACHE);
    }
}

/// Appends what stands for a source: itself, or each cache of a directory. A directory without one
/// is told, and so is one that cannot be read, for which the status is that of a fault.
fn put_source<H: Host>(
    alloc: Global,
    host: &H,
    source: &Source,
    sources: &mut Vec<Source>,
) -> Result<u8, AllocError>
    ensures { IfOk result (λ status. Puts (H.around host.now) source.now status sources.old.items sources.new.items) }
{
    match source {
        Source::Input => {
            sources.push(Source::Input)?;
            Ok(0)
        }
        Source::File(file) => {
            sources.push(Source::File(copied(alloc, file)?))?;
            Ok(0)
        }
        Source::Directory(directory) => match host.caches(directory) {
            Ok(names) => {
                tell_empty(host, source, names.as_slice());
                put_caches(alloc, directory.path.as_slice(), names.as_slice(), sources)?;
                Ok(0)
            }
            Err(error) => {
                host.tell_fault(source, &RunFault::Read(error));
                Ok(FAULT)
            }
        },
    }
}

/// Returns what stands for sources, in order.
pub fn expand<H: Host>(alloc: Global, host: &H, given: &[Source]) -> Result<Expanded, AllocError>
    ensures { IfOk result (λ expanded. Expands (H.around host.now) given.now (map place_of expanded.sources.items) expanded.status) }
{
    let mut sources = Vec::new(alloc);
    let mut status = 0;
    let mut rest = given;
    'given: while let Some((source, others)) = rest.split_first() {
        status = status.max(put_source(alloc, host, source, &mut sources)?);
        rest = others;
    }
    Ok(Expanded { sources, status })
}
