//! Laws of the five records: their equivalence, stated on bytes, and their sizes.
//!
//! Two byte strings are equivalent if both are accepted and parse as equal values. In the contracts
//! `EqualUnder masks b c` says that `b` and `c` have the same bits under the masks, one for each
//! byte from the first on: a bit that is 1 in the mask is significant, a bit that is 0 is ignored.
//! `unix_request_masks` are the masks of a `UnixRequest`, and so on. Bytes after the last mask are
//! not compared. `IsInetFamily` says that a number is `AF_INET` (2) or `AF_INET6` (10). The byte
//! strings are any lists `b` and `c` of numbers, so that each contract has the premise that these
//! are bytes: `IsBytes` says that each number of a list is below 256. The equivalence of a record
//! is the member `equivalent` of its codec; its parameter is the family for a [`SocketId`], and
//! `tt` for the other records, which have none.
//!
//! Proof only: the contracts state the property.

ghost use Rattle.std.specs.Prelude.{◌≡◌, ◌↔◌, ◌≤◌, ℕ, List, length};
ghost use Rattle.netlink_core.specs.Bytes.{IsBytes};
ghost use Rattle.netlink_core.specs.SignificantBits.{EqualUnder};
ghost use Rattle.sock_diag_records.specs.InetRequest.{inet_request};
ghost use Rattle.sock_diag_records.specs.InetResponse.{inet_response_header};
ghost use Rattle.sock_diag_records.specs.SignificantBits.{inet_request_masks, IsInetFamily};
ghost use Rattle.sock_diag_records.specs.SignificantBits.{inet_response_header_masks};
ghost use Rattle.sock_diag_records.specs.SignificantBits.{HaveSameTimerClass, socket_id_masks};
ghost use Rattle.sock_diag_records.specs.SignificantBits.{family_byte, timer_byte};
ghost use Rattle.sock_diag_records.specs.SignificantBits.{unix_request_masks};
ghost use Rattle.sock_diag_records.specs.SignificantBits.{unix_response_header_masks};
ghost use Rattle.sock_diag_records.specs.SocketId.{socket_id};
ghost use Rattle.sock_diag_records.specs.UnixRequest.{unix_request};
ghost use Rattle.sock_diag_records.specs.UnixResponseHeader.{unix_response_header};

use crate::inet::{
    INET_REQUEST_LEN, INET_RESPONSE_HEADER_LEN, InetRequest, InetResponseHeader, SOCKET_ID_LEN,
    SocketId,
};
use crate::unix::{UNIX_REQUEST_LEN, UNIX_RESPONSE_HEADER_LEN, UnixRequest, UnixResponseHeader};
use netlink_core::HasCodec;

/// States, for each family, that two byte strings are equivalent as [`SocketId`] of this family if
/// and only if three conditions hold. Both have at least 48 bytes. The family is `AF_INET` or
/// `AF_INET6`. And the bytes that are significant for the family are equal: the ports, the first 4
/// bytes (`AF_INET`) or all 16 bytes (`AF_INET6`) of both address fields, the interface and the
/// cookie. The family is the parameter of the parser, and not in the bytes.
pub fn equivalent_socket_ids()
    ensures { (family : ℕ) (b c : List ℕ) → IsBytes b → IsBytes c
        → ⟦<SocketId as HasCodec>⟧.codec.equivalent family b c
        ↔ ((SOCKET_ID_LEN ≤ length b) × (SOCKET_ID_LEN ≤ length c) × IsInetFamily family
        × EqualUnder (socket_id_masks family) b c) }
{}

/// States that two byte strings `b` and `c` are equivalent as [`InetRequest`] if and only if three
/// conditions hold. Both have at least 56 bytes. The first byte of `b` (`family_byte`) is `AF_INET`
/// or `AF_INET6`. And the bits that are significant for this family are equal: the family, the
/// protocol, the byte of extensions, the state bits 1 to 11, the ports, the address bytes of the
/// family, the interface and the cookie. The first byte is significant, so `c` has the same family.
pub fn equivalent_inet_requests()
    ensures { (b c : List ℕ) → IsBytes b → IsBytes c
        → ⟦<InetRequest as HasCodec>⟧.codec.equivalent tt b c
        ↔ ((INET_REQUEST_LEN ≤ length b) × (INET_REQUEST_LEN ≤ length c)
        × IsInetFamily (family_byte b) × EqualUnder (inet_request_masks (family_byte b)) b c) }
{}

/// States that two byte strings `b` and `c` are equivalent as [`InetResponseHeader`] if and only if
/// four conditions hold. Both have at least 72 bytes. The first byte of `b` (`family_byte`) is
/// `AF_INET` or `AF_INET6`. The bytes at offset 2 (`timer_byte`) have the same class: 1, 2, 3, 4,
/// or any other number. And the bytes that are significant for the family and the timer of `b` are
/// equal: the family, the state, the bytes of the socket id as in [`equivalent_socket_ids`], the
/// two queues, the user id and the inode; `idiag_retrans` only for timer 1, and `idiag_expires`
/// only for the timers 1, 2 and 4. The first byte is significant, so `c` has the same family.
pub fn equivalent_inet_response_headers()
    ensures { (b c : List ℕ) → IsBytes b → IsBytes c
        → ⟦<InetResponseHeader as HasCodec>⟧.codec.equivalent tt b c
        ↔ ((INET_RESPONSE_HEADER_LEN ≤ length b) × (INET_RESPONSE_HEADER_LEN ≤ length c)
        × (IsInetFamily (family_byte b) × HaveSameTimerClass (timer_byte b) (timer_byte c))
        × EqualUnder (inet_response_header_masks (family_byte b) (timer_byte b)) b c) }
{}

/// States that two byte strings are equivalent as [`UnixRequest`] if and only if both have at least
/// 24 bytes, and their significant bits are equal: the two named state flags, the inode, the six
/// named show flags and the cookie. The first four bytes, with the family, are ignored.
pub fn equivalent_unix_requests()
    ensures { (b c : List ℕ) → IsBytes b → IsBytes c
        → ⟦<UnixRequest as HasCodec>⟧.codec.equivalent tt b c
        ↔ ((UNIX_REQUEST_LEN ≤ length b) × (UNIX_REQUEST_LEN ≤ length c)
        × EqualUnder unix_request_masks b c) }
{}

/// States that two byte strings are equivalent as [`UnixResponseHeader`] if and only if both have
/// at least 16 bytes, and their significant bytes are equal: the type, the state, the inode and the
/// cookie. The bytes at offsets 0, the family, and 3 are ignored.
pub fn equivalent_unix_response_headers()
    ensures { (b c : List ℕ) → IsBytes b → IsBytes c
        → ⟦<UnixResponseHeader as HasCodec>⟧.codec.equivalent tt b c
        ↔ ((UNIX_RESPONSE_HEADER_LEN ≤ length b) × (UNIX_RESPONSE_HEADER_LEN ≤ length c)
        × EqualUnder unix_response_header_masks b c) }
{}

/// States that each constant is the fewest bytes that its record is parsed from (`least` of its
/// layout).
pub fn sizes_are_those_of_layouts()
    ensures inet_request { INET_REQUEST_LEN ≡ inet_request.least }
    ensures inet_response_header { INET_RESPONSE_HEADER_LEN ≡ inet_response_header.least }
    ensures socket_id { SOCKET_ID_LEN ≡ socket_id.least }
    ensures unix_request { UNIX_REQUEST_LEN ≡ unix_request.least }
    ensures unix_response_header { UNIX_RESPONSE_HEADER_LEN ≡ unix_response_header.least }
{}
