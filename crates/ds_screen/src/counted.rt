//! The search for the attribute before a position, in an index that counts each look.

ghost use Rattle.std.specs.Prelude.{◌≡◌, ◌+◌, ◌<◌, ◌≤◌, ◌^◌, ℕ, List, length};
ghost use Rattle.ds_codec.specs.declared.cell.Cell.{Cell};
ghost use Rattle.ds_screen.specs.Fields.{attribute_before};
ghost use Rattle.ds_screen.specs.Planes.{IsIndex};

use crate::probed::Probed;

/// The position of the attribute at the least distance going back round the buffer, `p` itself first; `None` where
/// there is no attribute. It looks at no more positions of the index than their number has binary digits, and at
/// one more; and at no more blocks of it, or numbers of blocks, than that number has binary digits, and at three more.
#[inline(always)]
pub fn attr_before_counted(probed: &mut Probed<'_>, p: u32) -> Option<u32>
    requires few { probed.old.probes + 64 < 2 ^ 64 }
    ensures nearest { (cells : List Cell) → IsIndex probed.old.positions cells
        → p < length cells → result ≡ attribute_before cells p }
    ensures kept { probed.new.positions ≡ probed.old.positions }
    ensures looks { (digits : ℕ) → 0 < digits → length probed.old.positions < 2 ^ digits
        → probed.new.probes ≤ probed.old.probes + digits + 1 }
    ensures blocks { (digits : ℕ) → length probed.old.positions < 2 ^ digits
        → probed.new.blocks ≤ probed.old.blocks + digits + 3 }
{
    if let Some(q) = probed.last_to(p) {
        return Some(q);
    }
    probed.last()
}
