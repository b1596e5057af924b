// The header of a network message: its fields and their bytes, the lowest byte of each number
// first.
ghost use Rattle.std.specs.Prelude.{◌≡◌, ◌≤◌, length};
ghost use Rattle.xpnet_frame.specs.Header.{header_of, header_bytes};

use byteorder::{ByteOrder, LittleEndian};

/// How many bytes the header has.
pub const MESSAGE_HEADER_BYTES: usize = 22;
/// The version of a message.
pub const MESSAGE_VERSION: u16 = 1;
/// The bytes `XNET` as a number, the lowest first.
pub const MESSAGE_MAGIC: u32 = 1_413_828_184;

/// The header of a message, in the driver the fields of `struct xpnet_message` before its data.
#[derive(Clone, Copy)]
pub struct Header {
    pub version: u16,
    /// How many bytes of data stand behind the header, 0 where the frame stands in a buffer.
    pub embedded: u16,
    pub magic: u32,
    /// The place of the buffer's first word among the sender's words, 0 where there is none.
    pub place: u64,
    /// How many bytes of data or of the buffer belong to the message.
    pub size: u32,
    /// How many bytes of the buffer stand before the frame.
    pub lead_in: u8,
    /// How many bytes of the buffer's last word stand behind the frame.
    pub tail_out: u8,
}

impl Header {
    /// The header in the first bytes of a message.
    pub fn of_bytes(bytes: &[u8]) -> Header
        requires { MESSAGE_HEADER_BYTES ≤ length bytes.now }
        ensures { result ≡ header_of bytes.now }
    {
        Header {
            version: LittleEndian::read_u16(bytes),
            embedded: LittleEndian::read_u16(&bytes[2..]),
            magic: LittleEndian::read_u32(&bytes[4..]),
            place: LittleEndian::read_u64(&bytes[8..]),
            size: LittleEndian::read_u32(&bytes[16..]),
            lead_in: bytes[20],
            tail_out: bytes[21],
        }
    }

    /// The bytes of the header.
    pub fn to_bytes(&self) -> [u8; MESSAGE_HEADER_BYTES]
        ensures { result ≡ header_bytes self.now }
    {
        let mut bytes = [0u8; MESSAGE_HEADER_BYTES];
        LittleEndian::write_u16(&mut bytes[..2], self.version);
        LittleEndian::write_u16(&mut bytes[2..4], self.embedded);
        LittleEndian::write_u32(&mut bytes[4..8], self.magic);
        LittleEndian::write_u64(&mut bytes[8..16], self.place);
        LittleEndian::write_u32(&mut bytes[16..20], self.size);
        bytes[20] = self.lead_in;
        bytes[21] = self.tail_out;
        bytes
    }
}
