//! The header of a TN3270E record (RFC 2355, section 8.1).

ghost use Rattle.std.specs.Prelude.{◌≡◌, ◌<◌, ◌≤◌, ◌↔◌, List, ℕ, ◌++◌, length, slice_index, Err};
ghost use Rattle.std.specs.Prelude.{IfOk, IsOkAnd, IfSome, IsSome, IsTrue};
ghost use Rattle.std.specs.Prelude.{Ok, MatchResult};
ghost use Rattle.tn_wire.specs.Header.{type_code, is_type, type_of, header_bytes, header_of, FitsHeader};

use byteorder::{BigEndian, ByteOrder};
use thiserror::Error;

/// The data type of a record (RFC 2355, section 8.1.1).
#[derive(Clone, Copy, Debug, PartialEq, Eq)]
pub enum DataType {
    /// 00, 3270-DATA.
    Data3270,
    /// 01, SCS-DATA.
    ScsData,
    /// 02, RESPONSE.
    Response,
    /// 03, BIND-IMAGE.
    BindImage,
    /// 04, UNBIND.
    Unbind,
    /// 05, NVT-DATA.
    NvtData,
    /// 06, REQUEST.
    Request,
    /// 07, SSCP-LU-DATA.
    SscpLuData,
    /// 08, PRINT-EOJ.
    PrintEoj,
}

impl DataType {
    /// The type of a byte, 00 to 08.
    pub fn from_byte(byte: u8) -> Option<DataType>
        ensures found { IsSome result ↔ IsTrue (is_type byte) }
        ensures code { IfSome result (λ data_type. type_code data_type ≡ byte) }
        ensures exact { result ≡ type_of byte }
    {
        match byte {
            0 => Some(DataType::Data3270),
            1 => Some(DataType::ScsData),
            2 => Some(DataType::Response),
            3 => Some(DataType::BindImage),
            4 => Some(DataType::Unbind),
            5 => Some(DataType::NvtData),
            6 => Some(DataType::Request),
            7 => Some(DataType::SscpLuData),
            8 => Some(DataType::PrintEoj),
            _ => None,
        }
    }

    /// The type's byte, 00 to 08.
    pub fn byte(self) -> u8
        ensures { result ≡ type_code self }
    {
        match self {
            DataType::Data3270 => 0,
            DataType::ScsData => 1,
            DataType::Response => 2,
            DataType::BindImage => 3,
            DataType::Unbind => 4,
            DataType::NvtData => 5,
            DataType::Request => 6,
            DataType::SscpLuData => 7,
            DataType::PrintEoj => 8,
        }
    }
}

/// Why a record has no header.
#[derive(Clone, Copy, Debug, PartialEq, Eq, Error)]
pub enum HeaderFault {
    /// Fewer than five bytes.
    #[error("H1 ShortHeader")]
    ShortHeader,
    /// A data type that is none of the nine.
    #[error("H2 UnknownType")]
    UnknownType,
}

/// A record's header: five bytes on the line (RFC 2355, section 8.1).
#[derive(Clone, Copy, Debug, PartialEq, Eq)]
pub struct Header {
    /// What the record holds.
    pub data_type: DataType,
    /// The request flag, any byte: its meaning goes with the data type (section 8.1.2).
    pub request: u8,
    /// The response flag, any byte. On data 00 asks for no response, 01 for one to errors, 02 for one always; on a
    /// RESPONSE 00 is positive, 01 negative (section 8.1.3).
    pub response: u8,
    /// The sequence number, high byte first on the line (section 8.1.4).
    pub seq: u16,
}

impl Header {
    /// The header at the front of a record, and the bytes after it.
    ///
    /// A record of fewer than five bytes is refused first, whatever its first byte; then a first byte above 08.
    #[tactic(auto, unfolding(crate::specs::Header::header_of))]
    pub fn read(bytes: &[u8]) -> Result<(Header, &[u8]), HeaderFault>
        ensures found { IfOk result (λ read. bytes.now ≡ header_bytes read.0 ++ read.1.now) }
        ensures only { (header : Header) (rest : List ℕ) → FitsHeader header
            → bytes.now ≡ header_bytes header ++ rest
            → IsOkAnd result (λ read. (read.0 ≡ header) × (read.1.now ≡ rest)) }
        ensures short { (result ≡ Err HeaderFault.ShortHeader) ↔ (length bytes.now < 5) }
        ensures unknown { (result ≡ Err HeaderFault.UnknownType)
            ↔ ((5 ≤ length bytes.now) × (8 < slice_index bytes.now 0)) }
        ensures exact { MatchResult result
            (λ read. header_of bytes.now ≡ Ok (record { header = read.0; rest = read.1.now }))
            (λ fault. header_of bytes.now ≡ Err fault) }
    {
        if bytes.len() < 5 {
            return Err(HeaderFault::ShortHeader);
        }
        let (front, rest) = bytes.split_at(5);
        match DataType::from_byte(front[0]) {
            None => Err(HeaderFault::UnknownType),
            Some(data_type) => {
                let seq = BigEndian::read_u16(&front[3..]);
                let header = Header {
                    data_type,
                    request: front[1],
                    response: front[2],
                    seq,
                };
                Ok((header, rest))
            }
        }
    }

    /// The header's five bytes.
    pub fn bytes(self) -> [u8; 5]
        ensures { result ≡ header_bytes self }
    {
        let mut bytes = [self.data_type.byte(), self.request, self.response, 0, 0];
        BigEndian::write_u16(&mut bytes[3..], self.seq);
        bytes
    }
}
