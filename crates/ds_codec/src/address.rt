//! Buffer addresses as two bytes (GA23-0059, "Buffer addressing").

ghost use Rattle.std.specs.Prelude.{◌≡◌, ◌<◌, ◌≤◌, ℕ, ◌/◌, ◌%◌, ◌^◌, IfSome, IsNone, ◌↔◌, slice_index, [], ◌∷◌};
ghost use Rattle.ds_codec.specs.Address.{SpellsAddress, IsReserved, address_at, written_address, six_bit_code};
ghost use Rattle.ds_codec.specs.Geometry.{limit_of};

use crate::size::Mode;
use byteorder::{BigEndian, ByteOrder};

/// The bytes that stand for six bits in what is written, from 00 to 3F (GA23-0059, "I/O codes").
const SIX_BIT_CODES: [u8; 64] = [
    0x40, 0xC1, 0xC2, 0xC3, 0xC4, 0xC5, 0xC6, 0xC7, 0xC8, 0xC9, 0x4A, 0x4B, 0x4C, 0x4D, 0x4E, 0x4F, //
    0x50, 0xD1, 0xD2, 0xD3, 0xD4, 0xD5, 0xD6, 0xD7, 0xD8, 0xD9, 0x5A, 0x5B, 0x5C, 0x5D, 0x5E, 0x5F, //
    0x60, 0x61, 0xE2, 0xE3, 0xE4, 0xE5, 0xE6, 0xE7, 0xE8, 0xE9, 0x6A, 0x6B, 0x6C, 0x6D, 0x6E, 0x6F, //
    0xF0, 0xF1, 0xF2, 0xF3, 0xF4, 0xF5, 0xF6, 0xF7, 0xF8, 0xF9, 0x7A, 0x7B, 0x7C, 0x7D, 0x7E, 0x7F, //
];

/// The address that two bytes spell. In the mode of 14 bits: of 14 bits where the first begins with 00, of 12 bits where
/// it begins with 01 or 11; `None` exactly for the reserved form, which begins with 10. In the mode of 16 bits: both bytes.
#[inline(always)]
pub fn decode_address(mode: Mode, first: u8, second: u8) -> Option<u32>
    ensures spelled { IfSome result (λ address. SpellsAddress mode address first second) }
    ensures only { (address : ℕ) → SpellsAddress mode address first second → result ≡ Some address }
    ensures reserved { IsNone result ↔ IsReserved mode first }
    ensures exact { result ≡ address_at mode first second }
{
    match mode {
        Mode::Bits14 => match first >> 6 {
            0 => Some(u32::from(BigEndian::read_u16(&[first, second]))),
            2 => None,
            _ => Some(u32::from(first % 64) * 64 + u32::from(second % 64)),
        },
        Mode::Bits16 => Some(u32::from(BigEndian::read_u16(&[first, second]))),
    }
}

/// The bytes of an address as they are written. In the mode of 14 bits: six-bit codes for a buffer of up to 4,096 cells,
/// else 14 bits. In the mode of 16 bits: 16 bits.
pub fn encode_address(mode: Mode, cells: u32, address: u32) -> [u8; 2]
    requires inside { address < cells }
    requires few { cells ≤ limit_of mode }
    ensures written { result ≡ written_address mode cells address }
    ensures spelled { SpellsAddress mode address (slice_index result 0) (slice_index result 1) }
{
    encoded(mode, cells, address)
}

fn encoded(mode: Mode, cells: u32, address: u32) -> [u8; 2]
    requires inside { address < cells }
    requires few { cells ≤ limit_of mode }
    ensures { result ≡ written_address mode cells address }
{
    match mode {
        Mode::Bits14 => {
            if cells <= 4_096 {
                [
                    to_six_bit_code((address / 64) as u8),
                    to_six_bit_code((address % 64) as u8),
                ]
            } else {
                two_bytes(address)
            }
        }
        Mode::Bits16 => two_bytes(address),
    }
}

fn two_bytes(address: u32) -> [u8; 2]
    requires { address < 2 ^ 16 }
    ensures { result ≡ address / 256 ∷ address % 256 ∷ [] }
{
    let mut bytes = [0; 2];
    BigEndian::write_u16(&mut bytes, address as u16);
    bytes
}

/// The byte that stands for six bits in what is written.
#[tactic(auto, unfolding(crate::specs::Address::six_bit_code))]
pub fn to_six_bit_code(value: u8) -> u8
    requires { value < 64 }
    ensures { result ≡ six_bit_code value }
{
    SIX_BIT_CODES[usize::from(value)]
}
