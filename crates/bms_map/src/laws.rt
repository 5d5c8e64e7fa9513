//! Laws on maps. These functions do nothing: their contracts are the laws.

ghost use Rattle.bms_map.specs.Fit.{MapsAreFit, RecordsAreWritten};

/// Each map of whatever source lies on its screen, with its fields; their attributes have six bits, their texts are of characters
/// that a record takes, and their pairs can be written.
pub fn maps_are_fit()
    ensures { MapsAreFit }
{}

/// The record of such a map is written, whatever SEND MAP adds to it, and is read again as its command and its orders.
pub fn records_are_written()
    ensures { RecordsAreWritten }
{}
