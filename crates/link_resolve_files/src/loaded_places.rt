//! The places of loaded objects, as the objects of a link are met one after another.

ghost use Rattle.std.specs.Prelude.{◌≡◌, ◌+◌, ℕ, Bool, List, None, Some, if◌then◌else◌};
ghost use Rattle.link_closure.specs.Closure.{is_marked};
ghost use Rattle.link_resolve_files.specs.Places.{AreFrom};

/// The places of loaded objects, as the objects of a link are met one after another.
#[derive(Drop)]
pub(crate) struct LoadedPlaces<'m> {
    /// A mark for each loaded object, by its place.
    pub(crate) marks: &'m [bool],
    /// The place of the next object, or the number of marks, where it has none.
    pub(crate) next: usize,
}

impl<'m> LoadedPlaces<'m> {
    /// Those of all objects.
    pub(crate) fn new(marks: &'m [bool]) -> Self
        ensures { AreFrom marks.entry.now 0 result }
    {
        LoadedPlaces { marks, next: 0 }
    }

    /// The place of the next object, where it is loaded.
    pub(crate) fn next_loaded(&mut self) -> Option<usize>
        ensures place { (marks : List Bool) → (n : ℕ) → AreFrom marks n self.old → result ≡ (if is_marked marks n then Some n else None) }
        ensures rest { (marks : List Bool) → (n : ℕ) → AreFrom marks n self.old → AreFrom marks (n + 1) self.new }
    {
        let place = self.next;
        if place >= self.marks.len() {
            return None;
        }
        self.next = place + 1;
        if self.marks[place] { Some(place) } else { None }
    }
}
