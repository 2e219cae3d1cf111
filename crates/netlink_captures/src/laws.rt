//! Properties of borrowed packets, `==` and `clone`, and of the definitions of a capture. Those
//! without parameters are proof only: the contracts state the properties.

ghost use Rattle.std.specs.Prelude.{◌≡◌, ◌↔◌, ◌<◌, ℕ, List, ◌∷◌, Some, IsTrue, IsOk, IfOk};
ghost use Rattle.std.specs.Prelude.{Option, slice_index};
ghost use Rattle.netlink_captures.specs.Capture.{CapturedPacket, IsFileHeader, IsFileHeaderError};
ghost use Rattle.netlink_captures.specs.Capture.{IsPacketRecord, IsPacketStop, stopped_input};
ghost use Rattle.netlink_captures.specs.Cooked.{AreEqualPackets};
ghost use Rattle.netlink_captures.specs.declared.captures.CaptureError.{CaptureError};
ghost use Rattle.netlink_captures.specs.declared.captures.CaptureError.TheVariants as errors;
ghost use Rattle.netlink_captures.specs.declared.captures.FileHeader.{FileHeader};

use crate::captures::Packet;
use std::alloc::AllocError;

/// Compares two packets by `==`, which is true if and only if they are of one kind and, if they
/// have datagrams, these are equal.
pub fn equal_packets(packet: &Packet<'_>, other: &Packet<'_>) -> bool
    // `AreEqualPackets packet other`: they are of one kind, and any datagrams are equal.
    ensures { IsTrue result ↔ AreEqualPackets packet.now other.now }
{
    packet == other
}

/// Copies a packet by `clone`, which never fails and returns an equal value.
pub fn copied_packet<'a>(packet: &Packet<'a>) -> Result<Packet<'a>, AllocError>
    ensures ok { IsOk result }
    ensures same { IfOk result (λ copy. copy ≡ packet.now) }
{
    packet.clone()
}

/// Bytes begin with at most one file header, and then they are not rejected.
pub fn one_file_header()
    // The premise `slice_index bytes index < 256`: the numbers are bytes. `IsFileHeader bytes h`:
    // the bytes begin with the file header `h`.
    ensures one_value { (bytes : List ℕ) (h other : FileHeader)
        → ((index : ℕ) → slice_index bytes index < 256)
        → IsFileHeader bytes h → IsFileHeader bytes other → h ≡ other }
    // `IsFileHeaderError bytes e`: they do not begin with a file header, and `e` is their error.
    ensures is_exclusive { (bytes : List ℕ) (h : FileHeader) (e : CaptureError)
        → ((index : ℕ) → slice_index bytes index < 256)
        → IsFileHeader bytes h → IsFileHeaderError bytes e → ⊥ }
{}

/// States which reasons to stop exclude each other, for an input of which no read failed.
///
/// - `header`: a packet header is neither the beginning of another capture, nor of a packet that is
///   too long;
/// - `truncated`: no packet is truncated before the input is at its end.
pub fn stops_have_their_reasons()
    // `IsPacketRecord file header packet`: these 16 bytes are the header of the packet.
    // `stopped_input left failed part`: an input that has the bytes `left`, at which reading
    // stopped after the bytes `part`. `IsPacketStop file input e`: `e` is the reason.
    ensures header { (file : FileHeader) (header : List ℕ) (packet : CapturedPacket)
        (left : Option (List ℕ)) → IsPacketRecord file header packet
        → ¬ IsPacketStop file (stopped_input left (λ _. ⊥) header) errors.AnotherCapture
        × ((count : ℕ)
        → ¬ IsPacketStop file (stopped_input left (λ _. ⊥) header) (errors.PacketTooLong count)) }
    ensures truncated { (file : FileHeader) (part : List ℕ) (byte : ℕ) (later : List ℕ)
        → ¬ IsPacketStop file (stopped_input (Some (byte ∷ later)) (λ _. ⊥) part)
        errors.Truncated }
{}
