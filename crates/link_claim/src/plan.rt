//! Where the counts, the roots and the opening flags come from.
ghost use Rattle.std.specs.Prelude.{◌≡◌, ◌<◌, ◌↔◌, IsTrue, length, slice_index};
ghost use Rattle.link_closure.specs.declared.workload.Workload.{Workload};
ghost use Rattle.link_closure.specs.declared.workload.Item.{Item};
ghost use Rattle.link_closure.specs.Workload.{IsSound, IsRoot, HasItem};
ghost use Rattle.link_claim.specs.Workload.{FitsU32};

use link_flags::ValueFlags;
use link_ids::SymbolId;

/// It tells what there is of some work, which is what it means. Files, items and symbols are numbers from 0.
pub trait Plan {
    // The work that it means.
    ghost work: { Self → Workload };

    /// How many files there are.
    fn files(&self) -> usize
        ensures { result ≡ (work self.now).files };

    /// How many items there are.
    fn items(&self) -> usize
        ensures { result ≡ length (work self.now).items };

    /// How many symbols have flags.
    fn symbols(&self) -> usize
        ensures { result ≡ length (work self.now).opening };

    /// Whether the file is asked for from the start.
    fn is_root(&self, file: usize) -> bool
        requires { file < (work self.now).files }
        ensures { IsTrue result ↔ IsRoot (work self.now) file };

    /// The file that the item is a part of.
    fn file_of(&self, item: usize) -> usize
        requires { item < length (work self.now).items }
        ensures { (it : Item) → HasItem (work self.now) item it → result ≡ it.file };

    /// The flags that the symbol begins with. Of a number that is no symbol nothing is said.
    fn opening(&self, symbol: SymbolId) -> ValueFlags
        ensures { symbol < length (work self.now).opening → result.0 ≡ slice_index (work self.now).opening symbol };

    ghost sound: { (plan : Self) → IsSound (work plan) };

    ghost fits: { (plan : Self) → FitsU32 (work plan) };
}
