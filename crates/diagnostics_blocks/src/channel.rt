// Channel-based diagnostics: what the three bytes of a channel block say. Promise: `channel_of` in specs/Channel.antt.
ghost use Rattle.std.specs.Prelude.{◌≡◌, ◌*◌, ◌/◌, ◌%◌};
ghost use Rattle.diagnostics_blocks.specs.Channel.{channel_of, error_of, error_number, type_of};
ghost use Rattle.diagnostics_blocks.specs.Shown.{shown_channel, shown_error, shown_type};

// Data type for a channel of a module.
#[derive(Clone, Copy, Debug, PartialEq, Eq)]
pub enum ChannelDataType {
    Bit = 1,
    Bit2 = 2,
    Bit4 = 3,
    Byte = 4,
    Word = 5,
    DWord = 6,
    Invalid = 7,
}

impl ChannelDataType {
    // The type that the third byte of a channel block names. (This and the next are profirust's calls: no `From` in their place.)
    #[tactic(auto, unfolding(crate::specs::Channel::type_of))]
    pub fn from_diag_byte2(b: u8) -> Self
        ensures { shown_type result ≡ type_of (b / 32) }
    {
        match b / 32 {
            0b001 => ChannelDataType::Bit,
            0b010 => ChannelDataType::Bit2,
            0b011 => ChannelDataType::Bit4,
            0b100 => ChannelDataType::Byte,
            0b101 => ChannelDataType::Word,
            0b110 => ChannelDataType::DWord,
            _ => ChannelDataType::Invalid,
        }
    }

    // The type's part of the third byte; `Invalid` is 7 there, never 0.
    pub fn into_diag_byte2(self) -> u8
        ensures { result ≡ 32 * shown_type self }
    {
        32 * self as u8
    }
}

// Error diagnosed at a channel of a module.
#[derive(Clone, Copy, Debug, PartialEq, Eq)]
pub enum ChannelError {
    ShortCircuit,
    UnderVoltage,
    OverVoltage,
    OverLoad,
    OverTemperature,
    LineBreak,
    UpperLimitOvershoot,
    LowerLimitUndershoot,
    Error,
    Reserved(u8),
    Vendor(u8),
}

impl ChannelError {
    // The error that the third byte of a channel block names. (This and the next are profirust's calls: no `From` in their place.)
    #[tactic(auto, unfolding(crate::specs::Channel::error_of))]
    pub fn from_diag_byte2(b: u8) -> Self
        ensures { shown_error result ≡ error_of (b % 32) }
    {
        let error = b % 32;
        match error {
            1 => ChannelError::ShortCircuit,
            2 => ChannelError::UnderVoltage,
            3 => ChannelError::OverVoltage,
            4 => ChannelError::OverLoad,
            5 => ChannelError::OverTemperature,
            6 => ChannelError::LineBreak,
            7 => ChannelError::UpperLimitOvershoot,
            8 => ChannelError::LowerLimitUndershoot,
            9 => ChannelError::Error,
            16..=31 => ChannelError::Vendor(error),
            _ => ChannelError::Reserved(error),
        }
    }

    // The error's number: its part of the third byte.
    pub fn into_diag_byte2(self) -> u8
        ensures { result ≡ error_number (shown_error self) }
    {
        match self {
            ChannelError::ShortCircuit => 1,
            ChannelError::UnderVoltage => 2,
            ChannelError::OverVoltage => 3,
            ChannelError::OverLoad => 4,
            ChannelError::OverTemperature => 5,
            ChannelError::LineBreak => 6,
            ChannelError::UpperLimitOvershoot => 7,
            ChannelError::LowerLimitUndershoot => 8,
            ChannelError::Error => 9,
            ChannelError::Vendor(n) | ChannelError::Reserved(n) => n,
        }
    }
}

// Diagnostic information for a module channel.
#[derive(Clone, Copy, Debug, PartialEq, Eq)]
pub struct ChannelDiagnostics {
    // Module where the problem was reported: its index in the configuration telegram.
    pub module: u8,
    // Channel of the module where the problem occurred.
    pub channel: u8,
    // Whether the channel is an input.
    pub input: bool,
    // Whether the channel is an output.
    pub output: bool,
    // Data type of the channel.
    pub dtype: ChannelDataType,
    // Error diagnosed at this channel.
    pub error: ChannelError,
}

impl ChannelDiagnostics {
    // What the three bytes of a channel block say.
    pub fn from_diag_bytes(b0: u8, b1: u8, b2: u8) -> Self
        ensures { shown_channel result ≡ channel_of b0 b1 b2 }
    {
        ChannelDiagnostics {
            module: b0 % 64,
            channel: b1 % 64,
            input: b1 / 64 % 2 == 1,
            output: b1 / 128 == 1,
            dtype: ChannelDataType::from_diag_byte2(b2),
            error: ChannelError::from_diag_byte2(b2),
        }
    }
}
