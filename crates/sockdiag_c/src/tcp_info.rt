//! The value of `INET_DIAG_INFO`: the state of a connection of TCP or MPTCP. In the contracts
//! `attributes` are the attributes up to the end or to a framing error.

ghost use Rattle.std.specs.Prelude.{◌≡◌, List};
ghost use Rattle.netlink_core.specs.Attribute.{Attribute};
ghost use Rattle.sockdiag_c.specs.Answers.{CopiesValue};
ghost use Rattle.sockdiag_c.specs.TcpInfo.{AreAttributesIn, AreInetReplyAttributes};
ghost use Rattle.sockdiag_c.specs.TcpInfo.{first_bytes_of_kind};

use crate::results::{END, OK, copy_padded};
use crate::walks::bytes_from;
use netlink_core::NlasIterator;
use netlink_packet_sock_diag::constants::INET_DIAG_INFO;
use netlink_packet_sock_diag::inet::INET_RESPONSE_HEADER_LEN;

/// Copies the TCP connection of a reply about an IPv4 or IPv6 socket: the value of the first
/// `INET_DIAG_INFO`. `info_size` is `sizeof *info`: at most as many bytes are copied, and the
/// remaining ones are set to 0. Stores the length of the value in bytes. Returns `SOCKDIAG_END` if
/// the reply has no value, or one of length 0; then nothing is stored.
///
/// Each kernel sends the struct in its own length, which may also be longer: `SOCKDIAG_HAS` tests
/// whether the value contains a field. A value of any length above 0 is accepted, also one that
/// `sockdiag_inet_get_details` rejects. Attributes after a framing error are not found.
///
/// A time that the kernel has not measured has its first value: `rtt` of a socket that listens is
/// 0, and in the state `TCP_SYN_SENT` `rtt` is 0, `rttvar` 250000 and `min_rtt` 4294967295.
///
/// If the protocol that was requested is not TCP, the value is another struct, `struct mptcp_info`
/// or `struct sctp_info`.
#[unsafe(no_mangle)]
pub extern "C" fn sockdiag_inet_get_tcp_info(
    payload: &[u8],
    info: &mut [u8],
    value_length: &mut usize,
) -> u32
    ensures { (attributes : List Attribute)
        → AreInetReplyAttributes payload.now attributes
        → CopiesValue (first_bytes_of_kind INET_DIAG_INFO attributes) record {
          old = (info.old, value_length.old);
          new = (info.new, value_length.new);
          returned = result;
        } }
{
    copy_info(payload, info, value_length)
}

/// Copies the MPTCP connection of a reply to a request for MPTCP, as `sockdiag_inet_get_tcp_info`
/// copies that of TCP. All fields of a socket that listens are 0, except `subflows_max` of Linux
/// 6.1.
#[unsafe(no_mangle)]
pub extern "C" fn sockdiag_inet_get_mptcp_info(
    payload: &[u8],
    info: &mut [u8],
    value_length: &mut usize,
) -> u32
    ensures { (attributes : List Attribute)
        → AreInetReplyAttributes payload.now attributes
        → CopiesValue (first_bytes_of_kind INET_DIAG_INFO attributes) record {
          old = (info.old, value_length.old);
          new = (info.new, value_length.new);
          returned = result;
        } }
{
    copy_info(payload, info, value_length)
}

// Copies the value of the first `INET_DIAG_INFO` after the header of a reply to `info`, truncated
// to its length or followed by zeros, and stores the length of the whole value.
fn copy_info(payload: &[u8], info: &mut [u8], value_length: &mut usize) -> u32
    ensures { (attributes : List Attribute)
        → AreInetReplyAttributes payload.now attributes
        → CopiesValue (first_bytes_of_kind INET_DIAG_INFO attributes) record {
          old = (info.old, value_length.old);
          new = (info.new, value_length.new);
          returned = result;
        } }
{
    let value = first_value(
        bytes_from(payload, INET_RESPONSE_HEADER_LEN),
        INET_DIAG_INFO,
    );
    if value.is_empty() {
        return END;
    }
    copy_padded(value, info);
    *value_length = value.len();
    OK
}

// Returns the value of the first attribute of the kind, or no bytes if there is none before the end
// or a framing error.
fn first_value(bytes: &[u8], kind: u16) -> &[u8]
    ensures { (attributes : List Attribute) → AreAttributesIn bytes.entry.now attributes
        → result.now ≡ first_bytes_of_kind kind attributes }
{
    for item in NlasIterator::new(bytes) {
        match item {
            Ok(nla) if nla.kind() == kind => return nla.value(),
            Ok(_) => {}
            Err(_) => return &[],
        }
    }
    &[]
}
