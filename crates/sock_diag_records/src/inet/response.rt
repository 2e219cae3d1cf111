//! The header of a reply about an IPv4 or IPv6 socket.

ghost use Rattle.std.proofs.Common.{rules};
ghost use Rattle.std.specs.Prelude.{ℕ, ◌≡◌, ◌≢◌, IfErr};
ghost use Rattle.netlink_core.specs.declared.error.DecodeError.TheVariants.{Memory};
ghost use Rattle.netlink_core.specs.Layout.{parse_record};
ghost use Rattle.netlink_core.proofs.LayoutLaws.{record_laws};
ghost use Rattle.sock_diag_records.specs.IpVersions.{IpVersions};
ghost use Rattle.sock_diag_records.specs.InetResponse.{inet_response_header};
ghost use Rattle.sock_diag_records.specs.inverse.InetResponse.{timer_of};
ghost use Rattle.sock_diag_records.specs.Timer.{class_of, expires_of, retransmits_of, timer_class};
ghost use Rattle.sock_diag_records.specs.Timer.{u32_milliseconds};
ghost use Rattle.sock_diag_records.specs.laws.InetResponse.{inet_response_header_sound};
ghost use Rattle.sock_diag_records.specs.laws.InetResponse.{inet_response_header_has_fixed_length};

use super::{SOCKET_ID_LEN, SocketId};
use netlink_core::fields::{u32s_at, write_bytes, write_u32s};
use netlink_core::{DecodeError, Exact, Fills, Record, RecordBuffer, RecordName, read_record};
use std::time::Duration;

/// The active timer of a TCP socket (`idiag_timer` of sock_diag(7)), with the time until it expires
/// (`idiag_expires`).
///
/// The time is parsed as milliseconds, and serialized as whole milliseconds modulo 2^32. Only timer
/// 1 has the number of retransmits (`idiag_retrans`). sock_diag(7) documents it for timers 2 and 4
/// too, where it is ignored.
#[derive(Clone, Debug, Drop, PartialEq, Eq)]
pub enum Timer {
    /// 1: the retransmission timer, with the number of retransmits (`idiag_retrans`).
    Retransmit(Duration, u8),
    /// 2: the keepalive timer.
    KeepAlive(Duration),
    /// 3: the TIME_WAIT timer. Its time is ignored, and serialized as 0.
    TimeWait,
    /// 4: the zero-window probe timer.
    Probe(Duration),
}

/// Size of `struct inet_diag_msg` in bytes.
pub const INET_RESPONSE_HEADER_LEN: usize = 72;

/// The header of a reply about an IPv4 or IPv6 socket: `struct inet_diag_msg` (sock_diag(7)), 72
/// bytes.
#[derive(Clone, Debug, Drop, PartialEq, Eq)]
pub struct InetResponseHeader {
    /// Address family (`idiag_family`), `AF_INET` (2) or `AF_INET6` (10), at offset 0.
    pub family: u8,
    /// State (`idiag_state`), at offset 1: `TCP_ESTABLISHED` to `TCP_CLOSING`, also for UDP and raw
    /// sockets. The state of an SCTP association is a number of SCTP.
    pub state: u8,
    /// Timer: `idiag_timer` at offset 2, `idiag_retrans` at offset 3, and `idiag_expires`,
    /// little-endian, at offset 52. A timer byte other than 1, 2, 3 and 4 is parsed as `None`, also
    /// 5, a delayed acknowledgement since Linux 7.2. `None` is serialized as 0. A field that the
    /// timer does not have is ignored, and serialized as 0.
    pub timer: Option<Timer>,
    /// Id of the socket (`id`), at offset 4. In a parsed header, the addresses are of the family's
    /// IP version.
    pub socket_id: SocketId,
    /// For a listening TCP or MPTCP socket, and for an SCTP socket that is no association, the
    /// number of pending connections; for other TCP sockets, the bytes that are not yet read; for
    /// UDP and raw sockets, other MPTCP sockets and SCTP associations, the memory in use by the
    /// receive queue in bytes, which exceeds the data (`idiag_rqueue`), little-endian, at offset
    /// 56. A FIN of TCP counts as one byte.
    pub recv_queue: u32,
    /// For a listening TCP or MPTCP socket, and for an SCTP socket that is no association, the
    /// backlog limit; for other TCP sockets, the bytes that are not yet acknowledged; for UDP and
    /// raw sockets, other MPTCP sockets and SCTP associations, the memory in use by packets that
    /// are being sent, in bytes (`idiag_wqueue`), little-endian, at offset 60. A SYN and a FIN of
    /// TCP count as one byte each. sock_diag(7) describes the memory available for sending, which
    /// is not what the kernel writes.
    pub send_queue: u32,
    /// User id of the socket's owner (`idiag_uid`), little-endian, at offset 64.
    pub uid: u32,
    /// Inode number of the socket (`idiag_inode`), little-endian, at offset 68.
    pub inode: u32,
}

/// The 72 bytes of an [`InetResponseHeader`], including the ignored ones.
pub type InetResponseBuffer = RecordBuffer<InetResponseHeader, INET_RESPONSE_HEADER_LEN>;

impl Exact for Timer {
    ghost exact = { Prim.search rules };
}

impl Record for InetResponseHeader {
    type Param = ();

    // The tag is the IP versions of both addresses, and the class of the timer.
    ghost Tag = { IpVersions × ℕ };

    ghost layout = { inet_response_header };

    #[tactic(auto, unfolding(crate::specs::InetResponse::inet_response_header))]
    fn name_and_least() -> (RecordName, usize) {
        (RecordName::InetResponseHeader, INET_RESPONSE_HEADER_LEN)
    }

    #[tactic(auto, unfolding(crate::specs::InetResponse::inet_response_header))]
    fn size(&self) -> usize {
        INET_RESPONSE_HEADER_LEN
    }

    /// Parses the first 72 bytes, and ignores the bytes after them. A family other than AF_INET and
    /// AF_INET6 is [`DecodeError::UnsupportedFamily`]. There have to be 72 bytes: the caller checks
    /// this first, and reports [`DecodeError::BufferTooSmall`].
    #[tactic(auto, unfolding(crate::specs::InetResponse::inet_response_header))]
    #[inline(always)]
    fn from_fields(payload: &[u8], _param: ()) -> Result<Self, DecodeError> {
        let family = payload[0];
        let socket_id = SocketId::from_fields(&payload[4..], family)?;
        let [expires, recv_queue, send_queue, uid, inode] = u32s_at::<5>(payload, 52);
        Ok(InetResponseHeader {
            family,
            state: payload[1],
            timer: timer_from(payload[2], payload[3], expires),
            socket_id,
            recv_queue,
            send_queue,
            uid,
            inode,
        })
    }

    #[tactic(auto, unfolding(crate::specs::InetResponse::inet_response_header))]
    fn write_fields(&self, buffer: &mut [u8]) {
        let (timer, retransmits, expires) = timer_fields(&self.timer);
        let (start, rest) = buffer.split_at_mut(4);
        let (socket_id, after_socket_id) = rest.split_at_mut(SOCKET_ID_LEN);
        write_bytes(&[self.family, self.state, timer, retransmits], start);
        self.socket_id.write_fields(socket_id);
        let u32s = [
            expires,
            self.recv_queue,
            self.send_queue,
            self.uid,
            self.inode,
        ];
        write_u32s(&u32s, after_socket_id);
    }

    ghost laws = { record_laws inet_response_header inet_response_header_sound };
}

impl Fills<INET_RESPONSE_HEADER_LEN> for InetResponseHeader {
    ghost fills = { inet_response_header_has_fixed_length };
}

impl InetResponseHeader {
    /// Parses the first 72 bytes, and ignores the bytes after them. The first byte is the family,
    /// which selects the IP version of both addresses. Fails with [`DecodeError::BufferTooSmall`]
    /// if there are fewer bytes, else with [`DecodeError::UnsupportedFamily`] if the family is
    /// neither AF_INET (2) nor AF_INET6 (10). It does not allocate, so the error is never
    /// [`DecodeError::Memory`].
    #[inline(always)]
    pub fn from_prefix(payload: &[u8]) -> Result<Self, DecodeError>
        ensures value { result ≡ parse_record inet_response_header tt payload.now }
        ensures not_memory { IfErr result (λ error. error ≢ Memory) }
    {
        read_record(payload, ())
    }
}

// Returns the whole milliseconds of a duration, modulo 2^32 (`u32_milliseconds`).
fn wrapped_milliseconds(time: Duration) -> u32
    ensures { result ≡ u32_milliseconds time }
{
    (time.as_millis() % 0x1_0000_0000) as u32
}

/// Returns the fields `idiag_timer`, `idiag_retrans` and `idiag_expires` of `struct inet_diag_msg`,
/// the last in whole milliseconds modulo 2^32, with 0 for each that the timer does not have.
pub fn timer_fields(timer: &Option<Timer>) -> (u8, u8, u32)
    ensures class { result.0 ≡ class_of timer.now }
    ensures retransmits { result.1 ≡ retransmits_of timer.now }
    ensures expires { result.2 ≡ u32_milliseconds (expires_of timer.now) }
{
    match timer {
        Some(Timer::Retransmit(expires, retransmits)) => {
            (1, *retransmits, wrapped_milliseconds(*expires))
        }
        Some(Timer::KeepAlive(expires)) => (2, 0, wrapped_milliseconds(*expires)),
        Some(Timer::TimeWait) => (3, 0, 0),
        Some(Timer::Probe(expires)) => (4, 0, wrapped_milliseconds(*expires)),
        None => (0, 0, 0),
    }
}

// Returns the timer with these fields `idiag_timer`, `idiag_retrans` and `idiag_expires`, or `None`
// if `timer` is none of 1, 2, 3 and 4. A number that the timer does not have is ignored.
fn timer_from(timer: u8, retransmits: u8, milliseconds: u32) -> Option<Timer>
    ensures { result ≡ timer_of (timer_class timer) retransmits milliseconds }
{
    let expires = Duration::from_millis(u64::from(milliseconds));
    match timer {
        1 => Some(Timer::Retransmit(expires, retransmits)),
        2 => Some(Timer::KeepAlive(expires)),
        3 => Some(Timer::TimeWait),
        4 => Some(Timer::Probe(expires)),
        _ => None,
    }
}
