//! The names that take part where a name is wrapped.

ghost use Rattle.std.specs.Prelude.{◌≡◌, ◌++◌, IfOk, codes, map};

use link_names::Name;
use std::alloc::{AllocError, Global};

/// A wrapped name (`--wrap`) with the names of its wrapper and of what it had before.
#[derive(Debug, Drop)]
pub struct WrappedName {
    name: Name,
    /// The name behind `__wrap_`.
    wrapper: Name,
    /// The name behind `__real_`.
    real: Name,
    ghost wraps: { wrapper ≡ codes "__wrap_" ++ name },
    ghost keeps: { real ≡ codes "__real_" ++ name },
}

/// A name behind a prefix.
fn prefixed(alloc: Global, prefix: &[u8], name: &Name) -> Result<Name, AllocError>
    ensures { IfOk result (λ whole. whole ≡ prefix.now ++ name.now) }
{
    let mut whole = Vec::from_slice(alloc, prefix)?;
    whole.extend_from_slice(name.as_slice())?;
    Ok(Name::new(whole))
}

impl WrappedName {
    /// The name with its wrapper and its real name. The only refusal is want of memory.
    fn new(alloc: Global, name: &Name) -> Result<Self, AllocError>
        ensures { IfOk result (λ wrap. wrap.name ≡ name.now) }
    {
        Ok(WrappedName {
            name: name.clone()?,
            wrapper: prefixed(alloc, b"__wrap_", name)?,
            real: prefixed(alloc, b"__real_", name)?,
        })
    }

    /// The name that is wrapped.
    pub fn name(&self) -> &Name
        ensures { result.now ≡ self.now.name }
    {
        &self.name
    }

    /// The name of its wrapper.
    pub fn wrapper(&self) -> &Name
        ensures { result.now ≡ codes "__wrap_" ++ self.now.name }
    {
        &self.wrapper
    }

    /// The name by which the wrapper asks for what it wraps.
    pub fn real(&self) -> &Name
        ensures { result.now ≡ codes "__real_" ++ self.now.name }
    {
        &self.real
    }
}

/// The wrapped names in order, each with those that take part. The only refusal is want of memory.
pub fn wrapped_names(alloc: Global, names: &[Name]) -> Result<Vec<WrappedName>, AllocError>
    ensures { IfOk result (λ wraps. map (λ w. w.name) wraps.items ≡ names.now) }
{
    let mut wraps = Vec::with_capacity(alloc, names.len())?;
    for name in names {
        wraps.push(WrappedName::new(alloc, name)?)?;
    }
    Ok(wraps)
}
