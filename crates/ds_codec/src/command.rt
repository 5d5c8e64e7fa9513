//! Commands, and their two forms of code (GA23-0059, "Commands").

ghost use Rattle.std.specs.Prelude.{◌≡◌};

use crate::write_control::WriteControlCharacter;

/// What a record tells the terminal to do. The three writes carry a write control character.
#[derive(Clone, Copy, Debug, PartialEq, Eq)]
pub enum Command {
    Write(WriteControlCharacter),
    EraseWrite(WriteControlCharacter),
    EraseWriteAlternate(WriteControlCharacter),
    EraseAllUnprotected,
    ReadBuffer,
    ReadModified,
    ReadModifiedAll,
    NoOperation,
}

/// What the first byte of a record can be.
#[derive(Clone, Copy, Debug, PartialEq, Eq)]
pub enum CommandCode {
    Write,
    EraseWrite,
    EraseWriteAlternate,
    EraseAllUnprotected,
    ReadBuffer,
    ReadModified,
    ReadModifiedAll,
    WriteStructuredField,
    NoOperation,
}

impl Command {
    ghost use Rattle.ds_codec.specs.Command.{command_code_of, wcc_of};

    /// Which command it is.
    pub fn code(&self) -> CommandCode
        ensures { result ≡ command_code_of self.now }
    {
        match self {
            Command::Write(_) => CommandCode::Write,
            Command::EraseWrite(_) => CommandCode::EraseWrite,
            Command::EraseWriteAlternate(_) => CommandCode::EraseWriteAlternate,
            Command::EraseAllUnprotected => CommandCode::EraseAllUnprotected,
            Command::ReadBuffer => CommandCode::ReadBuffer,
            Command::ReadModified => CommandCode::ReadModified,
            Command::ReadModifiedAll => CommandCode::ReadModifiedAll,
            Command::NoOperation => CommandCode::NoOperation,
        }
    }

    /// The write control character of the three writes (GA23-0059, "Write control character").
    pub fn wcc(&self) -> Option<WriteControlCharacter>
        ensures { result ≡ wcc_of self.now }
    {
        match self {
            Command::Write(wcc) | Command::EraseWrite(wcc) | Command::EraseWriteAlternate(wcc) =>
                Some(*wcc),
            _ => None,
        }
    }
}

impl CommandCode {
    ghost use Rattle.ds_codec.specs.Command.{command_code_at, written_code};

    /// The code that is written, of SNA's form; No-operation has one form.
    pub fn byte(self) -> u8
        ensures { result ≡ written_code self }
    {
        match self {
            CommandCode::Write => 0xF1,
            CommandCode::EraseWrite => 0xF5,
            CommandCode::EraseWriteAlternate => 0x7E,
            CommandCode::EraseAllUnprotected => 0x6F,
            CommandCode::ReadBuffer => 0xF2,
            CommandCode::ReadModified => 0xF6,
            CommandCode::ReadModifiedAll => 0x6E,
            CommandCode::WriteStructuredField => 0xF3,
            CommandCode::NoOperation => 0x03,
        }
    }

    /// The command of a code, in the channel's form or in SNA's.
    #[tactic(auto, unfolding(crate::specs::Command::command_code_at))]
    pub fn from_byte(byte: u8) -> Option<CommandCode>
        ensures { result ≡ command_code_at byte }
    {
        match byte {
            0x01 | 0xF1 => Some(CommandCode::Write),
            0x05 | 0xF5 => Some(CommandCode::EraseWrite),
            0x0D | 0x7E => Some(CommandCode::EraseWriteAlternate),
            0x0F | 0x6F => Some(CommandCode::EraseAllUnprotected),
            0x02 | 0xF2 => Some(CommandCode::ReadBuffer),
            0x06 | 0xF6 => Some(CommandCode::ReadModified),
            0x0E | 0x6E => Some(CommandCode::ReadModifiedAll),
            0x11 | 0xF3 => Some(CommandCode::WriteStructuredField),
            0x03 => Some(CommandCode::NoOperation),
            _ => None,
        }
    }
}
