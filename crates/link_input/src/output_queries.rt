//! What kind of output is linked.

ghost use Rattle.std.specs.Prelude.{◌≡◌};
ghost use Rattle.link_input.specs.Outputs.{is_shared_object, is_dynamic_executable};

use crate::options::OutputKind;

impl OutputKind {
    /// It is a shared object (`-shared`).
    pub fn is_shared_object(self) -> bool
        ensures { result ≡ is_shared_object self }
    {
        matches!(self, OutputKind::SharedObject)
    }

    /// It is an executable that is linked with shared objects at run time.
    pub fn is_dynamic_executable(self) -> bool
        ensures { result ≡ is_dynamic_executable self }
    {
        matches!(self, OutputKind::DynamicExecutable)
    }
}
