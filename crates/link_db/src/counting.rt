//! How many symbols groups have.

ghost use Rattle.std.specs.Prelude.{◌≡◌, ◌<◌, ◌^◌, length};
ghost use Rattle.link_db_files.specs.GroupFiles.{symbols_in};
ghost use Rattle.link_input_groups.specs.Asked.{AllCanBeAsked};

use link_input::Platform;
use link_input_groups::Group;

/// How many symbols groups have.
pub fn symbols_of_groups<P: Platform>(groups: &[Group<P>]) -> usize
    requires asked { AllCanBeAsked groups.now }
    requires fits { length (symbols_in groups.now) < 2 ^ 32 }
    ensures { result ≡ length (symbols_in groups.now) }
{
    let mut count = 0usize;
    for group in groups {
        count += group.num_symbols();
    }
    count
}
