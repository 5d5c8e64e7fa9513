//! Laws on what records do. These functions do nothing: their contracts are the laws.

ghost use Rattle.ds_screen.specs.Laws.{HasOneEffect, RecordsStaySound, HasEffectExactly, StopsAtLeast, GovernsExactly, OpensExactly, DistanceIsLeast};

/// A record leads from a picture to one picture.
pub fn one_effect()
    ensures { HasOneEffect }
{}

/// A record that some bytes spell leaves a sound picture sound: sizes that a terminal can have, a cell for
/// each position, the cursor at one of them, characters that exist, and an attention identifier.
pub fn records_stay_sound()
    ensures { RecordsStaySound }
{}

/// A record has an effect exactly where its command is no read and no No-operation, its addresses are
/// inside and each attribute that it changes is there.
pub fn each_write_has_an_effect()
    ensures { HasEffectExactly }
{}

/// Orders are refused exactly at the least one at fault, as the orders before it leave the buffer.
pub fn refused_at_the_least()
    ensures { StopsAtLeast }
{}

/// An attribute governs a character exactly where no other attribute is nearer before it, round the
/// buffer.
pub fn nearest_attribute_governs()
    ensures { GovernsExactly }
{}

/// A position is open, so that it may be typed over, exactly where it holds a character and either there is
/// no attribute at all or the one that governs it is unprotected.
pub fn open_is_unprotected()
    ensures { OpensExactly }
{}

/// The distance from a position to another is the least number of steps that lead there, round the buffer.
pub fn distance_is_least()
    ensures { DistanceIsLeast }
{}
