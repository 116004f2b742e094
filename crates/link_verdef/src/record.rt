//! Version definitions as records of a file.

ghost use Rattle.std.specs.Prelude.{◌≡◌, ◌++◌, ◌+◌, ◌<◌, ◌^◌, List, length, slice_get, Option, Some, OnOk};
ghost use Rattle.std.specs.Int.{to_le_bytes, w16, w32};
ghost use Rattle.link_verdef.specs.Records.{verdaux_bytes, verdef_bytes, verdef_of};

use crate::hash::sysv_hash;
use crate::item::VersionItem;
use std::alloc::AllocError;

/// The bytes of a definition.
pub const VERDEF_LEN: usize = 20;

/// The bytes of one of its names.
pub const VERDAUX_LEN: usize = 8;

/// The version of the format, `VER_DEF_CURRENT`.
const VER_DEF_CURRENT: u16 = 1;

/// The flag of the base, which is the file itself.
const VER_FLG_BASE: u16 = 1;

/// A version definition. Mirrors `Elfxx_Verdef` (LSB Core, "Version Definition Section").
#[derive(Clone, Copy)]
pub struct Verdef {
    pub vd_version: u16,
    pub vd_flags: u16,
    pub vd_ndx: u16,
    pub vd_cnt: u16,
    pub vd_hash: u32,
    pub vd_aux: u32,
    pub vd_next: u32,
}

/// A name of a version definition. Mirrors `Elfxx_Verdaux` (LSB Core, "Version Definition Section").
#[derive(Clone, Copy)]
pub struct Verdaux {
    pub vda_name: u32,
    pub vda_next: u32,
}

/// Adds the bytes of a half word, the lowest first.
fn push_u16(out: &mut Vec<u8>, value: u16) -> Result<(), AllocError>
    ensures { OnOk result (out.new.items ≡ out.old.items ++ to_le_bytes w16 value) }
{
    out.extend_from_slice(&value.to_le_bytes())
}

/// Adds the bytes of a word, the lowest first.
fn push_u32(out: &mut Vec<u8>, value: u32) -> Result<(), AllocError>
    ensures { OnOk result (out.new.items ≡ out.old.items ++ to_le_bytes w32 value) }
{
    out.extend_from_slice(&value.to_le_bytes())
}

impl Verdef {
    /// The definition of the item of this number, of so many items.
    pub fn of(count: usize, number: usize, item: &VersionItem) -> Verdef
        requires { number < 32_767 }
        ensures { result ≡ verdef_of count number item.now }
    {
        let vd_cnt = if item.parent.is_some() { 2 } else { 1 };
        Verdef {
            vd_version: VER_DEF_CURRENT,
            vd_flags: if number == 0 { VER_FLG_BASE } else { 0 },
            vd_ndx: number as u16 + 1,
            vd_cnt,
            vd_hash: sysv_hash(item.name.as_slice()),
            vd_aux: VERDEF_LEN as u32,
            vd_next: if number + 1 < count {
                VERDEF_LEN as u32 + VERDAUX_LEN as u32 * u32::from(vd_cnt)
            } else {
                0
            },
        }
    }

    /// Adds the bytes of the definition.
    pub fn push_to(&self, out: &mut Vec<u8>) -> Result<(), AllocError>
        ensures { OnOk result (out.new.items ≡ out.old.items ++ verdef_bytes self.now) }
    {
        push_u16(out, self.vd_version)?;
        push_u16(out, self.vd_flags)?;
        push_u16(out, self.vd_ndx)?;
        push_u16(out, self.vd_cnt)?;
        push_u32(out, self.vd_hash)?;
        push_u32(out, self.vd_aux)?;
        push_u32(out, self.vd_next)?;
        Ok(())
    }
}

impl Verdaux {
    /// Adds the bytes of the name.
    pub fn push_to(&self, out: &mut Vec<u8>) -> Result<(), AllocError>
        ensures { OnOk result (out.new.items ≡ out.old.items ++ verdaux_bytes self.now) }
    {
        push_u32(out, self.vda_name)?;
        push_u32(out, self.vda_next)
    }
}
