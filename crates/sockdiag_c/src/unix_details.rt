//! The contents of a reply about a UNIX socket, as a C struct.

ghost use Rattle.std.specs.Prelude.{◌≡◌, ◌≢◌, Err, Some};
ghost use Rattle.std.specs.Option.{option_or};
ghost use Rattle.netlink_core.specs.Errors.{map_ok};
ghost use Rattle.netlink_core.specs.Walk.{buffered_attribute};
ghost use Rattle.sock_diag_attributes.specs.UnixAttributes.{unix_attribute_set};
ghost use Rattle.sock_diag_any.specs.AnyNla.{any_model, read_any};
ghost use Rattle.sock_diag_any.specs.declared.nla.Sockets.TheVariants.{Unix};
ghost use Rattle.sockdiag_c.specs.CheckedKinds.{read_checked};
ghost use Rattle.sockdiag_c.specs.Details.{text_parts};
ghost use Rattle.sockdiag_c.specs.Family.{StoresDetails};
ghost use Rattle.sockdiag_c.specs.UnixDetails.{unix_family};

use crate::details::{ABSTRACT, Number, ReplyDetails, TEXT, Text, store_details};
use crate::family_values::{Memory, split_header};
use crate::headers::UnixHeader;
use netlink_core::{DecodeError, NlaBuffer};
use netlink_packet_sock_diag::unix::UnixResponseHeader;
use netlink_packet_sock_diag::unix::nlas::NameView;
use sock_diag_any::{AnyNla, Sockets};
use sock_diag_attributes::unix::nlas::NlaView as UnixNlaView;

/// Everything that a reply contains about a UNIX socket, except the connections that wait to be
/// accepted.
#[repr(C)]
#[derive(Clone, Copy, Default)]
pub struct UnixDetails<'a> {
    /// The header.
    pub header: UnixHeader,
    /// Name that the socket is bound to (`UNIX_DIAG_NAME`).
    pub name: Text<'a>,
    /// Inode of the file that the socket is bound to (`udiag_vfs_ino` of `UNIX_DIAG_VFS`).
    pub file_inode: Number,
    /// Device of that file, `major << 20 | minor` (`udiag_vfs_dev` of `UNIX_DIAG_VFS`). It is not
    /// the `st_dev` of stat(2), which combines them in another way: compare `major(st_dev)` and
    /// `minor(st_dev)`.
    pub file_device: Number,
    /// Inode of the peer (`UNIX_DIAG_PEER`).
    pub peer: Number,
    /// Number of connections that wait to be accepted on a listening socket, else number of bytes
    /// that have not been read (`udiag_rqueue` of `UNIX_DIAG_RQLEN`). For a datagram socket, it is
    /// the length of the first datagram in the queue.
    pub recv_queue: Number,
    /// Limit of these connections for a listening socket, else bytes of memory in use by data that
    /// was sent and has not been read (`udiag_wqueue` of `UNIX_DIAG_RQLEN`).
    pub send_queue: Number,
    /// Socket memory (`UNIX_DIAG_MEMINFO`). Linux counts sent data that was not yet read in
    /// `bottom_send_queues`, and `send_queue` is 0.
    pub memory: Memory,
    /// Directions that are shut down: 1 for receiving, 2 for sending, 3 for both
    /// (`UNIX_DIAG_SHUTDOWN`).
    pub shutdown: Number,
    /// User id of the owner (`UNIX_DIAG_UID`). It is not set if the value does not have 4 bytes.
    pub owner: Number,
}

const _: () = prove!(std::mem::size_of::<UnixDetails<'static>>() == 168);

/// Parses a reply about a UNIX socket.
#[unsafe(no_mangle)]
pub extern "C" fn sockdiag_unix_fill_details<'a>(
    payload: &'a [u8],
    details: &mut UnixDetails<'a>,
    later: &mut [u8],
) -> u32
    ensures { StoresDetails unix_family payload.entry.now record {
      old = (details.old, later.old);
      new = (details.new, later.new);
      returned = result;
    } }
{
    store_details(payload, details, later)
}

impl<'a> ReplyDetails<'a> for UnixDetails<'a> {
    type Nla = AnyNla<'a>;

    ghost family = { unix_family };

    ghost model = { any_model };

    #[inline(always)]
    fn parse_header(payload: &'a [u8]) -> Result<(Self, &'a [u8]), DecodeError> {
        let (header, attributes) = split_header::<UnixResponseHeader>(payload)?;
        let mut details = UnixDetails::default();
        details.header = UnixHeader::from(header);
        Ok((details, attributes))
    }

    #[inline(always)]
    fn read(nla: &NlaBuffer<'a>) -> Result<AnyNla<'a>, DecodeError> {
        match AnyNla::read(Sockets::Unix, nla) {
            Ok(value) => Ok(value),
            Err(_) => reject_if_checked(nla),
        }
    }

    #[inline(always)]
    fn set(&mut self, nla: AnyNla<'a>) {
        match nla {
            AnyNla::Name(name) => match name {
                NameView::Pathname(path) => self.set_name(TEXT, path),
                NameView::Abstract(address) => self.set_name(ABSTRACT, address),
            },
            AnyNla::Vfs(file) => {
                self.file_inode.set(file.inode());
                self.file_device.set(file.device());
            }
            AnyNla::Peer(inode) => self.peer.set(inode),
            AnyNla::QueueLengths(receive, send) => {
                self.recv_queue.set(receive);
                self.send_queue.set(send);
            }
            AnyNla::Memory(memory) => self.memory.set(memory),
            AnyNla::Shutdown(directions) => self.shutdown.set(u32::from(directions)),
            AnyNla::Owner(user) => self.owner.set(user),
            // These have no field: `sockdiag_next_attribute` returns them.
            _ => {}
        }
    }

    fn clear_values(&mut self) {
        let header = self.header;
        *self = UnixDetails::default();
        self.header = header;
    }
}

impl<'a> UnixDetails<'a> {
    // Sets the name, unless it is set already. This is a call that may change any field, so that
    // the loop over attributes does not hold the fields `is_set` on the stack, which takes more
    // instructions.
    #[inline(never)]
    fn set_name(&mut self, kind: u32, bytes: &'a [u8])
        requires { kind ≢ 0 }
        ensures others { self.new ≡ record self.old { name = self.new.name } }
        ensures name { text_parts self.new.name
            ≡ option_or (text_parts self.old.name) (Some (kind, bytes.entry.now)) }
    {
        self.name.set(kind, bytes);
    }
}

// Returns the error of an attribute with an invalid value. If the checks do not know its kind,
// returns `AnyNla::Unknown`, and no error.
#[inline(always)]
fn reject_if_checked<'a>(nla: &NlaBuffer<'a>) -> Result<AnyNla<'a>, DecodeError>
    // An attribute with a valid value is not passed.
    ensures { let a = buffered_attribute nla.now in (e : DecodeError) → read_any Unix a ≡ Err e
        → map_ok any_model result ≡ read_checked unix_attribute_set Unix a }
{
    match UnixNlaView::parse(nla) {
        Ok(_) => Ok(AnyNla::Unknown(*nla)),
        Err(error) => Err(error),
    }
}
