//! The attention keys of a manifest.

ghost use Rattle.std.specs.Prelude.{◌≡◌};
ghost use Rattle.cli_applications.specs.Attention.{aid_of};

use crate::fault::ManifestKey;
use ds_codec::Aid;

/// The keys that can lead to a screen, in the order in which they are looked up.
pub(crate) const ATTENTION_KEYS: [ManifestKey; 29] = [
    ManifestKey::Enter,
    ManifestKey::Clear,
    ManifestKey::Pa1,
    ManifestKey::Pa2,
    ManifestKey::Pa3,
    ManifestKey::Pf1,
    ManifestKey::Pf2,
    ManifestKey::Pf3,
    ManifestKey::Pf4,
    ManifestKey::Pf5,
    ManifestKey::Pf6,
    ManifestKey::Pf7,
    ManifestKey::Pf8,
    ManifestKey::Pf9,
    ManifestKey::Pf10,
    ManifestKey::Pf11,
    ManifestKey::Pf12,
    ManifestKey::Pf13,
    ManifestKey::Pf14,
    ManifestKey::Pf15,
    ManifestKey::Pf16,
    ManifestKey::Pf17,
    ManifestKey::Pf18,
    ManifestKey::Pf19,
    ManifestKey::Pf20,
    ManifestKey::Pf21,
    ManifestKey::Pf22,
    ManifestKey::Pf23,
    ManifestKey::Pf24,
];

/// The attention identifier of a key; of one that is none, that no key was pressed.
pub(crate) fn aid_of(key: ManifestKey) -> Aid
    ensures { result ≡ aid_of key }
{
    match key {
        ManifestKey::Enter => Aid::enter(),
        ManifestKey::Clear => Aid::clear(),
        ManifestKey::Pa1 => Aid::pa(1),
        ManifestKey::Pa2 => Aid::pa(2),
        ManifestKey::Pa3 => Aid::pa(3),
        ManifestKey::Pf1 => Aid::pf(1),
        ManifestKey::Pf2 => Aid::pf(2),
        ManifestKey::Pf3 => Aid::pf(3),
        ManifestKey::Pf4 => Aid::pf(4),
        ManifestKey::Pf5 => Aid::pf(5),
        ManifestKey::Pf6 => Aid::pf(6),
        ManifestKey::Pf7 => Aid::pf(7),
        ManifestKey::Pf8 => Aid::pf(8),
        ManifestKey::Pf9 => Aid::pf(9),
        ManifestKey::Pf10 => Aid::pf(10),
        ManifestKey::Pf11 => Aid::pf(11),
        ManifestKey::Pf12 => Aid::pf(12),
        ManifestKey::Pf13 => Aid::pf(13),
        ManifestKey::Pf14 => Aid::pf(14),
        ManifestKey::Pf15 => Aid::pf(15),
        ManifestKey::Pf16 => Aid::pf(16),
        ManifestKey::Pf17 => Aid::pf(17),
        ManifestKey::Pf18 => Aid::pf(18),
        ManifestKey::Pf19 => Aid::pf(19),
        ManifestKey::Pf20 => Aid::pf(20),
        ManifestKey::Pf21 => Aid::pf(21),
        ManifestKey::Pf22 => Aid::pf(22),
        ManifestKey::Pf23 => Aid::pf(23),
        ManifestKey::Pf24 => Aid::pf(24),
        _ => Aid::none(),
    }
}
