//! What the references of loaded objects ask for.

ghost use Rattle.std.specs.Prelude.{◌≡◌, ◌++◌, IfOk, OnOk, option_to_list};
ghost use Rattle.link_db_files.specs.GroupFiles.{symbols_in};
ghost use Rattle.link_resolve_reasons.specs.Requests.{request_in, requests_in};

use link_db_files::Files;
use link_db_symbols::{SymbolSource, SymbolView, symbols, target_of};
use link_ids::SymbolId;
use link_input::Platform;
use link_resolve_requests::request_by;
use std::alloc::{AllocError, Global};

/// A reference of a loaded object that asks for another object.
#[derive(Clone, Copy, Debug, PartialEq, Eq)]
pub struct Request {
    /// The id of the reference.
    pub symbol: SymbolId,
    /// The place of its object among all objects of the link.
    pub from: usize,
    /// The place of the object that it asks for.
    pub to: usize,
}

/// What a symbol asks for, if it is a reference of a loaded object and asks for any.
fn request_of(
    sources: &[SymbolSource],
    targets: &[Option<SymbolId>],
    id: SymbolId,
    symbol: &SymbolView,
) -> Option<Request>
    ensures { result ≡ request_in sources.now targets.now id symbol.now }
{
    let from = symbol.object()?;
    let to = request_by(sources, symbol, target_of(targets, id))?;
    Some(Request {
        symbol: id,
        from,
        to,
    })
}

/// Adds what a symbol asks for.
fn push_request(
    found: &mut Vec<Request>,
    sources: &[SymbolSource],
    targets: &[Option<SymbolId>],
    id: SymbolId,
    symbol: &SymbolView,
) -> Result<(), AllocError>
    ensures { OnOk result (found.new.items ≡ found.old.items ++ option_to_list (request_in sources.now targets.now id symbol.now)) }
{
    if let Some(request) = request_of(sources, targets, id, symbol) {
        found.push(request)?;
    }
    Ok(())
}

/// What the references of loaded objects ask for, in the order of their ids. The targets are those of these references. The only refusal is want of memory.
pub fn requests<P: Platform>(
    alloc: Global,
    files: &Files<P>,
    targets: &[Option<SymbolId>],
) -> Result<Vec<Request>, AllocError>
    ensures { IfOk result (λ found. found.items ≡ requests_in targets.now (symbols_in files.now.groups)) }
{
    let sources = files.sources();
    let mut found = Vec::new(alloc);
    for (id, symbol) in symbols(files) {
        push_request(&mut found, sources, targets, id, &symbol)?;
    }
    Ok(found)
}
