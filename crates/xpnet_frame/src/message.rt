// Messages, their bytes, and the way back.
ghost use Rattle.std.specs.Prelude.{◌≡◌, ◌<◌, ◌≤◌, ◌+◌, ◌-◌, ◌++◌, take, length, Ok, IfOk, IsTrue, ◌↔◌};
ghost use Rattle.xpnet_frame.specs.declared.message.NetMessage.{NetMessage as Message};
ghost use Rattle.xpnet_frame.specs.Message.{IsMessage, message_bytes, header_for, data_of, decoded, embedded_message, buffered_message, tail_for, is_buffer as is_buffer_place, message_of as message_with, is_embedded, is_buffered};

use crate::header::{Header, MESSAGE_HEADER_BYTES, MESSAGE_MAGIC, MESSAGE_VERSION};
use xp_base::body::{Body, LINE_BYTES};
use xp_base::frame::{FRAME_BYTES, HEADER_BYTES};
use xp_base::layout::{BUFFER_WORDS, PART_WORDS, POOL_AT};

/// How many bytes a frame has at most that a message carries itself.
pub const EMBEDDED_FRAME: usize = LINE_BYTES - MESSAGE_HEADER_BYTES;
/// How many bytes stand before a frame in its buffer, so that what follows its Ethernet header is
/// aligned.
pub const LEAD_IN: u8 = 2;
/// How many bytes of a word stand at most behind a frame in its buffer.
pub const MOST_TAIL_OUT: u8 = 7;

/// A message of the network channel.
#[derive(Drop)]
pub enum NetMessage {
    /// The frame itself.
    Embedded { frame: Body },
    /// The place of the first word of the buffer in which the frame stands, from its byte `LEAD_IN`
    /// on, and the frame's length in bytes.
    Buffered { place: u32, length: u16 },
}

/// Why bytes are no message: the first test that fails.
#[derive(Clone, Copy, Debug, PartialEq, Eq)]
pub enum NetFault {
    Version,
    Magic,
    /// The header isn't whole; or a buffer is named, and the sizes and the length of the message
    /// don't fit it.
    Size,
    /// There are embedded bytes, and the message isn't of their form.
    Embedded,
    /// There are no embedded bytes, and the place isn't that of a buffer.
    Address,
}

// How many bytes fill the last word of a buffer behind a frame.
fn tail_out(length: u16) -> u8
    requires { length ≤ FRAME_BYTES }
    ensures value { result ≡ tail_for length }
    ensures few { result ≤ MOST_TAIL_OUT }
{
    MOST_TAIL_OUT - ((LEAD_IN as u16 + length - 1) % 8) as u8
}

fn header(message: &NetMessage) -> Header
    requires { IsMessage message.now }
    ensures { result ≡ header_for message.now }
{
    match message {
        NetMessage::Embedded { frame } => {
            let length = frame.bytes().len();
            Header {
                version: MESSAGE_VERSION,
                embedded: length as u16,
                magic: MESSAGE_MAGIC,
                place: 0,
                size: length as u32,
                lead_in: 0,
                tail_out: 0,
            }
        }
        NetMessage::Buffered { place, length } => {
            let tail_out = tail_out(*length);
            Header {
                version: MESSAGE_VERSION,
                embedded: 0,
                magic: MESSAGE_MAGIC,
                place: *place as u64,
                size: LEAD_IN as u32 + *length as u32 + tail_out as u32,
                lead_in: LEAD_IN,
                tail_out,
            }
        }
    }
}

// The bytes behind the header.
fn payload(message: &NetMessage) -> &[u8]
    ensures { result.now ≡ data_of message.now }
{
    match message {
        NetMessage::Embedded { frame } => frame.bytes(),
        NetMessage::Buffered { .. } => &[],
    }
}

// The body of bytes that fit a line.
fn whole(bytes: &[u8]) -> Body
    requires { length bytes.now ≤ LINE_BYTES }
    ensures { result ≡ bytes.now }
{
    match Body::new(bytes) {
        Some(body) => body,
        None => unreachable!(),
    }
}

// Puts some bytes at a place; those before it stay.
fn put(bytes: &mut [u8], at: usize, part: &[u8])
    requires { at + length part.now ≤ length bytes.old }
    ensures { take (at + length part.now) bytes.new ≡ take at bytes.old ++ part.now }
{
    let end = at + part.len();
    bytes[at..end].copy_from_slice(part);
}

// A header and the bytes behind it, as one body.
fn joined(header: &[u8; MESSAGE_HEADER_BYTES], payload: &[u8]) -> Body
    requires { length payload.now ≤ EMBEDDED_FRAME }
    ensures { result ≡ header.now ++ payload.now }
{
    let mut bytes = [0u8; LINE_BYTES];
    put(&mut bytes, 0, header);
    put(&mut bytes, MESSAGE_HEADER_BYTES, payload);
    whole(&bytes[..MESSAGE_HEADER_BYTES + payload.len()])
}

/// The bytes of a message: an embedded frame has 14 to 90 bytes, a buffered one 91 to 1,514.
pub fn encode(message: &NetMessage) -> Body
    requires { IsMessage message.now }
    ensures { result ≡ message_bytes message.now }
{
    joined(&header(message).to_bytes(), payload(message))
}

fn is_buffer(place: u64) -> bool
    ensures { result ≡ is_buffer_place place }
{
    (POOL_AT as u64) <= place
        && place < (PART_WORDS as u64)
        && (place - POOL_AT as u64) % BUFFER_WORDS as u64 == 0
}

// Whether the header of a message with embedded bytes fits so many bytes of data.
fn has_embedded_form(header: &Header, length: usize) -> bool
    ensures { result ≡ is_embedded header.now length }
{
    HEADER_BYTES <= length
        && length <= EMBEDDED_FRAME
        && header.embedded as usize == length
        && header.size as usize == length
        && header.place == 0
        && header.lead_in == 0
        && header.tail_out == 0
}

// Whether the header of a message that names a buffer has sizes that fit, and no data behind it.
fn has_buffered_form(header: &Header, length: usize) -> bool
    ensures { result ≡ is_buffered header.now length }
{
    let around = LEAD_IN as u64 + header.tail_out as u64;
    length == 0
        && header.lead_in == LEAD_IN
        && header.tail_out <= MOST_TAIL_OUT
        && header.size % 8 == 0
        && (around + EMBEDDED_FRAME as u64) < header.size as u64
        && (header.size as u64) <= around + FRAME_BYTES as u64
}

fn embedded(header: &Header, payload: &[u8]) -> Result<NetMessage, NetFault>
    ensures { result ≡ embedded_message header.now payload.now }
{
    if has_embedded_form(header, payload.len()) {
        Ok(NetMessage::Embedded {
            frame: whole(payload),
        })
    } else {
        Err(NetFault::Embedded)
    }
}

fn buffered(header: &Header, length: usize) -> Result<NetMessage, NetFault>
    ensures { result ≡ buffered_message header.now length }
{
    if !is_buffer(header.place) {
        Err(NetFault::Address)
    } else if has_buffered_form(header, length) {
        Ok(NetMessage::Buffered {
            place: header.place as u32,
            length: (header.size - LEAD_IN as u32 - header.tail_out as u32) as u16,
        })
    } else {
        Err(NetFault::Size)
    }
}

// The message of a header and the bytes behind it.
fn message_of(header: &Header, payload: &[u8]) -> Result<NetMessage, NetFault>
    ensures { result ≡ message_with header.now payload.now }
{
    if header.version != MESSAGE_VERSION {
        Err(NetFault::Version)
    } else if header.magic != MESSAGE_MAGIC {
        Err(NetFault::Magic)
    } else if header.embedded != 0 {
        embedded(header, payload)
    } else {
        buffered(header, payload.len())
    }
}

/// The message that some bytes are. Else the first of these that fails: the header is whole,
/// version, magic, the form of a message with embedded bytes, the place of the buffer, the sizes of
/// a message that names a buffer.
pub fn decode(body: &[u8]) -> Result<NetMessage, NetFault>
    ensures message { IfOk result (λ m. IsMessage m × (body.now ≡ message_bytes m)) }
    ensures back { (m : Message) → IsMessage m → body.now ≡ message_bytes m → result ≡ Ok m }
    ensures order { result ≡ decoded body.now }
{
    if body.len() < MESSAGE_HEADER_BYTES {
        return Err(NetFault::Size);
    }
    message_of(&Header::of_bytes(body), &body[MESSAGE_HEADER_BYTES..])
}
