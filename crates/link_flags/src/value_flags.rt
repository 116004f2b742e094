//! The flags of the value of a symbol.

ghost use Rattle.std.specs.Prelude.{⊤, ◌≡◌, ◌==◌, not, ◌&&◌, ◌||◌};
ghost use Rattle.std.specs.Int.RustNames.{bit_and, bit_or};
ghost use Rattle.std.specs.Prelude.{map};
ghost use Rattle.std.specs.Fmt.{WritesOnOk};
ghost use Rattle.link_flags.specs.FlagBits as bit;
ghost use Rattle.link_flags.specs.FlagBits.{has};
ghost use Rattle.link_flags.specs.FlagTable.{flag_table};
ghost use Rattle.link_flags.specs.FlagText.{joined, names_of, piece, row_of};

use bitflags::{Flag, Flags, bitflag_items};
use std::fmt;

/// What is known of the value of a symbol, and what the output needs for it: a set of 22 flags. Mirrors Wild's
/// `ValueFlags`. A contract reads the bits as the number `.0`.
#[derive(Clone, Copy, PartialEq, Eq, Hash, Debug)]
pub struct ValueFlags(u32);

bitflag_items! {
    impl ValueFlags: u32 {
        const ABSOLUTE = 1;
        const DYNAMIC = 2;
        const IFUNC = 4;
        const NON_INTERPOSABLE = 8;
        const DOWNGRADE_TO_LOCAL = 16;
        const DYNAMIC_FUNCTION = 32;
        const DIRECT = 64;
        const GOT = 128;
        const PLT = 256;
        const GOT_TLS_MODULE = 512;
        const GOT_TLS_OFFSET = 1024;
        const GOT_TLS_DESCRIPTOR = 2048;
        const EXPORT_DYNAMIC = 4096;
        const COPY_RELOCATION = 8192;
        const IFUNC_GOT_FOR_ADDRESS = 16384;
        const HAS_RANGE_LIMITED_REL = 32768;
        const HAS_NON_IR_REF = 65536;
        const CANONICAL_PLT = 131072;
        const GOT_FOR_PLT_ENTRY = 262144;
        const SYMBOL_SIZE = 524288;
        const UNDEFINED_WEAK = 1048576;
        const GROUP_SIGNATURE = 2097152;
    }
}

impl Flags for ValueFlags {
    type Bits = u32;

    ghost exact = { ⊤ };

    ghost table = { flag_table };

    ghost set_of = { λ p. p.0 };

    fn flags<'a>() -> &'a [Flag<ValueFlags>] {
        ValueFlags::FLAGS
    }

    fn bits(&self) -> u32 {
        self.0
    }

    fn from_bits_retain(bits: u32) -> ValueFlags {
        ValueFlags(bits)
    }
}

impl ValueFlags {
    /// The flags for which a symbol needs an entry of its own in the output's tables.
    const RESOLUTION: ValueFlags = ValueFlags(
        ValueFlags::DIRECT.0
            | ValueFlags::GOT.0
            | ValueFlags::PLT.0
            | ValueFlags::GOT_TLS_MODULE.0
            | ValueFlags::GOT_TLS_OFFSET.0
            | ValueFlags::GOT_TLS_DESCRIPTOR.0
            | ValueFlags::EXPORT_DYNAMIC.0
            | ValueFlags::COPY_RELOCATION.0
            | ValueFlags::IFUNC_GOT_FOR_ADDRESS.0
            | ValueFlags::CANONICAL_PLT.0
            | ValueFlags::GOT_FOR_PLT_ENTRY.0
            | ValueFlags::SYMBOL_SIZE.0,
    );

    /// Adds that the symbol can't be interposed, if the other says so.
    pub fn merge(&mut self, other: ValueFlags)
        ensures { self.new.0 ≡ bit_or self.old.0 (bit_and other.0 bit.non_interposable) }
    {
        *self = self.union(other.intersection(ValueFlags::NON_INTERPOSABLE));
    }

    /// The flags for which the symbol needs an entry of its own in the output's tables.
    pub fn resolution_flags(self) -> ValueFlags
        ensures { result.0 ≡ bit_and self.0 bit.resolution }
    {
        self.intersection(ValueFlags::RESOLUTION)
    }

    /// It has such flags.
    pub fn has_resolution(self) -> bool
        ensures { result ≡ not (bit_and self.0 bit.resolution == 0) }
    {
        !self.resolution_flags().is_empty()
    }

    /// The word that keeps the flags.
    pub fn raw(self) -> RawFlags
        ensures { result.0 ≡ self.0 }
    {
        RawFlags(self.0)
    }

    /// The value is a number and not an address (`SHN_ABS`), or there is none.
    pub fn is_absolute(self) -> bool
        ensures { result ≡ has self.0 bit.absolute }
    {
        self.contains(ValueFlags::ABSOLUTE)
    }

    /// The symbol comes from a shared object.
    pub fn is_dynamic(self) -> bool
        ensures { result ≡ has self.0 bit.dynamic }
    {
        self.contains(ValueFlags::DYNAMIC)
    }

    /// The value is the address of a resolver (`STT_GNU_IFUNC`).
    pub fn is_ifunc(self) -> bool
        ensures { result ≡ has self.0 bit.ifunc }
    {
        self.contains(ValueFlags::IFUNC)
    }

    /// It is a function of a shared object.
    pub fn is_function(self) -> bool
        ensures { result ≡ has self.0 bit.dynamic_function }
    {
        self.contains(ValueFlags::DYNAMIC_FUNCTION)
    }

    /// It was made local by its visibility or by a version script.
    pub fn is_downgraded_to_local(self) -> bool
        ensures { result ≡ has self.0 bit.downgrade_to_local }
    {
        self.contains(ValueFlags::DOWNGRADE_TO_LOCAL)
    }

    /// It is a weak reference without a definition.
    pub fn is_undefined_weak(self) -> bool
        ensures { result ≡ has self.0 bit.undefined_weak }
    {
        self.contains(ValueFlags::UNDEFINED_WEAK)
    }

    /// It is local in the output's symbol table: as it came, or since it was made local.
    pub fn is_symtab_local(self, local: bool) -> bool
        ensures { result ≡ (local || has self.0 bit.downgrade_to_local) }
    {
        local || self.is_downgraded_to_local()
    }

    /// Another module's definition may take its place at run time.
    pub fn is_interposable(self) -> bool
        ensures { result ≡ not (has self.0 bit.non_interposable) }
    {
        !self.contains(ValueFlags::NON_INTERPOSABLE)
    }

    /// Its address is known when the output is linked.
    pub fn has_link_time_address(self) -> bool
        ensures { result ≡ (not (has self.0 bit.absolute) && not (has self.0 bit.dynamic) && not (has self.0 bit.ifunc)) }
    {
        !self.is_absolute() && !self.is_dynamic() && !self.is_ifunc()
    }

    /// It is referred to by its address.
    pub fn needs_direct(self) -> bool
        ensures { result ≡ has self.0 bit.direct }
    {
        self.contains(ValueFlags::DIRECT)
    }

    /// It needs an entry in the global offset table.
    pub fn needs_got(self) -> bool
        ensures { result ≡ has self.0 bit.got }
    {
        self.contains(ValueFlags::GOT)
    }

    /// It needs an entry in the procedure linkage table.
    pub fn needs_plt(self) -> bool
        ensures { result ≡ has self.0 bit.plt }
    {
        self.contains(ValueFlags::PLT)
    }

    /// It needs a module and offset pair in the global offset table.
    pub fn needs_got_tls_module(self) -> bool
        ensures { result ≡ has self.0 bit.got_tls_module }
    {
        self.contains(ValueFlags::GOT_TLS_MODULE)
    }

    /// It needs its offset from the thread pointer in the global offset table.
    pub fn needs_got_tls_offset(self) -> bool
        ensures { result ≡ has self.0 bit.got_tls_offset }
    {
        self.contains(ValueFlags::GOT_TLS_OFFSET)
    }

    /// It needs a TLS descriptor in the global offset table.
    pub fn needs_got_tls_descriptor(self) -> bool
        ensures { result ≡ has self.0 bit.got_tls_descriptor }
    {
        self.contains(ValueFlags::GOT_TLS_DESCRIPTOR)
    }

    /// It needs any of the three kinds of TLS entries in the global offset table.
    pub fn needs_tls_got(self) -> bool
        ensures { result ≡ (has self.0 bit.got_tls_module || has self.0 bit.got_tls_offset || has self.0 bit.got_tls_descriptor) }
    {
        self.needs_got_tls_module()
            || self.needs_got_tls_offset()
            || self.needs_got_tls_descriptor()
    }

    /// It needs an entry in the dynamic symbol table.
    pub fn needs_export_dynamic(self) -> bool
        ensures { result ≡ has self.0 bit.export_dynamic }
    {
        self.contains(ValueFlags::EXPORT_DYNAMIC)
    }

    /// Its data must be copied into the executable (`R_*_COPY`).
    pub fn needs_copy_relocation(self) -> bool
        ensures { result ≡ has self.0 bit.copy_relocation }
    {
        self.contains(ValueFlags::COPY_RELOCATION)
    }

    /// Its resolved address is taken, so that it needs an entry for it in the global offset table.
    pub fn needs_ifunc_got_for_address(self) -> bool
        ensures { result ≡ has self.0 bit.ifunc_got_for_address }
    {
        self.contains(ValueFlags::IFUNC_GOT_FOR_ADDRESS)
    }

    /// Its entry in the procedure linkage table stands for its address.
    pub fn needs_canonical_plt(self) -> bool
        ensures { result ≡ has self.0 bit.canonical_plt }
    {
        self.contains(ValueFlags::CANONICAL_PLT)
    }

    /// It needs that, and beside it an entry in the global offset table for the table's entry.
    pub fn needs_canonical_plt_got_for_address(self) -> bool
        ensures { result ≡ (has self.0 bit.canonical_plt && has self.0 bit.got_for_plt_entry) }
    {
        self.needs_canonical_plt() && self.contains(ValueFlags::GOT_FOR_PLT_ENTRY)
    }
}

/// A word that keeps the flags of a symbol. Mirrors Wild's `RawFlags`.
#[derive(Clone, Copy, PartialEq, Eq, Hash, Debug)]
pub struct RawFlags(u32);

impl RawFlags {
    /// The flags that it keeps.
    pub fn get(self) -> ValueFlags
        ensures { result.0 ≡ self.0 }
    {
        ValueFlags(self.0)
    }
}

impl fmt::Display for ValueFlags {
    ghost use Rattle.std.specs.Prelude.{Some};
    ghost use Rattle.link_flags.specs.FlagText.{flags_text};

    ghost output = { λ v. Some (flags_text v.0) };

    fn fmt<W: fmt::Write>(&self, f: &mut fmt::Formatter<W>) -> fmt::Result {
        write_flags(f, ValueFlags::flags(), *self)
    }
}

/// Writes the names of the flags of a table that the set has.
fn write_flags<W: fmt::Write>(
    f: &mut fmt::Formatter<W>,
    rows: &[Flag<ValueFlags>],
    set: ValueFlags,
) -> fmt::Result
    ensures { WritesOnOk W.write_str_gives f.old result (joined (names_of set.0 (map row_of rows.now))) f.new }
{
    let mut first = true;
    for row in rows {
        if set.contains(*row.value()) {
            write_piece(f, row.name(), first)?;
            first = false;
        }
    }
    Ok(())
}

/// Writes a name, after a bar unless it is the first.
fn write_piece<W: fmt::Write>(f: &mut fmt::Formatter<W>, name: &str, first: bool) -> fmt::Result
    ensures { WritesOnOk W.write_str_gives f.old result (piece first name.now) f.new }
{
    if !first {
        f.write_str(" | ")?;
    }
    f.write_str(name)
}
