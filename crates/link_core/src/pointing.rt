//! Behind the last batch of a link: what each symbol points to.

ghost use Rattle.std.specs.Prelude.{◌≡◌, IfErr, OnOk, length};
ghost use Rattle.link_db_files.specs.GroupFiles.{symbols_in};
ghost use Rattle.link_flags.specs.FlagWords.{numbers_of, words_of};
ghost use Rattle.link_db_texts.specs.Holds.{platform_of};
ghost use Rattle.link_rules.specs.declared.refusal.LinkError.TheVariants.{Memory};
ghost use Rattle.link_rules.specs.Places.{Bytes};
ghost use Rattle.link_rules.specs.Selection.{Selection};
ghost use Rattle.link_rules.specs.World.{World};
ghost use Rattle.link_db.specs.Seen.{seen};
ghost use Rattle.link_resolve.specs.Known.{IsListed};
ghost use Rattle.link_core.specs.Steps.{HasRoom, IsLoadedWith, IsPointedWith, IsSteady};

use link_db::SymbolDb;
use link_flags::PerSymbolFlags;
use link_input::Platform;
use link_resolve::Resolver;
use link_rules::LinkError;
use std::alloc::Global;

/// Chooses the section groups that are kept, points each symbol to what it stands for before rivals are settled, and tells how strongly each binds. This is done
/// once, behind the last batch: it goes over all objects and symbols.
pub(crate) fn point_symbols<P: Platform>(
    alloc: Global,
    db: &mut SymbolDb<P>,
    flags: &PerSymbolFlags,
    resolver: &mut Resolver,
) -> Result<(), LinkError>
    requires room { HasRoom (seen db.old) (words_of flags.now) }
    requires steady { IsSteady (seen db.old) (words_of flags.now) resolver.old.known }
    ensures room { OnOk result (HasRoom (seen db.new) (words_of flags.now)) }
    ensures listed { OnOk result (IsListed (seen db.new)) }
    ensures strengths { OnOk result (length resolver.new.known.strengths ≡ length (symbols_in (seen db.new).mapping.files.groups)) }
    ensures refused { IfErr result (λ error. (demangle : Bytes → Bytes) (w : World) (l : Selection)
        → IsLoadedWith (platform_of P.Platform) demangle w l (seen db.old) (numbers_of (words_of flags.now)) resolver.old → error ≡ Memory) }
    ensures pointed { OnOk result ((demangle : Bytes → Bytes) (w : World) (l : Selection)
        → IsLoadedWith (platform_of P.Platform) demangle w l (seen db.old) (numbers_of (words_of flags.now)) resolver.old
        → IsPointedWith (platform_of P.Platform) demangle w l (seen db.new) (numbers_of (words_of flags.now)) resolver.new) }
{
    resolver.point_references(alloc, db)?;
    Ok(())
}
