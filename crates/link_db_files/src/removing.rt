//! Groups of a batch that are taken back.

ghost use Rattle.std.specs.Prelude.{◌≡◌, ℕ, length, take};
ghost use Rattle.std.specs.List.{flat_map};
ghost use Rattle.link_input_groups.specs.Groups.{files_of};
ghost use Rattle.link_db_files.specs.GroupFiles.{AreGroupsOfLink, symbols_in};

use crate::files::Files;
use link_input::Platform;

impl<P: Platform> Files<P> {
    /// How many files there are.
    pub fn num_files(&self) -> usize
        ensures { result ≡ length (flat_map files_of self.now.groups) }
    {
        self.starts.len()
    }

    /// How many symbols stand in the tables of the first files, where these are the files of some first groups.
    fn symbols_of_first(&self, files: usize) -> usize
        requires { AreGroupsOfLink self.now.groups }
        ensures { (groups : ℕ) → files ≡ length (flat_map files_of (take groups self.now.groups)) → result ≡ length (symbols_in (take groups self.now.groups)) }
    {
        match self.starts.as_slice().get(files) {
            Some(next) => next.start.as_usize(),
            None => self.num_symbols(),
        }
    }

    /// Takes back the groups behind so many, which have so many files: all is as it was before those were added. Takes no memory,
    /// and can't fail.
    pub fn remove_groups(&mut self, groups: usize, files: usize)
        requires link { AreGroupsOfLink self.old.groups }
        requires files { files ≡ length (flat_map files_of (take groups self.old.groups)) }
        ensures { self.new ≡ record self.old { groups = take groups self.old.groups } }
    {
        let symbols = self.symbols_of_first(files);
        self.groups.truncate(groups);
        self.starts.truncate(files);
        self.columns.truncate(files, symbols);
    }
}
