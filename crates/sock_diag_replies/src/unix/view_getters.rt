//! Getters for the attributes of a borrowed reply about a UNIX socket.
//!
//! In the contracts `first_content_of (value_of_kind unix_attribute_set kind) attributes` is the
//! value of the first of the decoded attributes that is of this kind, or `None` if there is none.
//! `unix_response_view_model` is the model of the reply: its header, and its decoded attributes
//! `nlas`.

ghost use Rattle.std.specs.Prelude.{◌≡◌, None, IsSome, option_map};
ghost use Rattle.sock_diag_attributes.specs.NameModel.{socket_name_model};
ghost use Rattle.sock_diag_attributes.specs.NumbersModel.{numbers_view_model};
ghost use Rattle.sock_diag_records.specs.declared.constants.TheConstants.{UNIX_DIAG_ICONS};
ghost use Rattle.sock_diag_records.specs.declared.constants.TheConstants.{UNIX_DIAG_MEMINFO};
ghost use Rattle.sock_diag_records.specs.declared.constants.TheConstants.{UNIX_DIAG_NAME};
ghost use Rattle.sock_diag_records.specs.declared.constants.TheConstants.{UNIX_DIAG_PEER};
ghost use Rattle.sock_diag_records.specs.declared.constants.TheConstants.{UNIX_DIAG_RQLEN};
ghost use Rattle.sock_diag_records.specs.declared.constants.TheConstants.{UNIX_DIAG_SHUTDOWN};
ghost use Rattle.sock_diag_replies.specs.UnixGetters.{first_content_of};
ghost use Rattle.netlink_core.specs.AttributeSet.{value_of_kind};
ghost use Rattle.sock_diag_attributes.specs.UnixAttributes.{unix_attribute_set};

use crate::unix::UnixResponseView;
use crate::unix::nlas::{MemInfo, NameView, NlaView, NumbersView};
use sock_diag_records::constants::TCP_LISTEN;

impl<'a> UnixResponseView<'a> {
    ghost use Rattle.sock_diag_replies.specs.ViewModel.{
      view_model as
          unix_response_view_model,
    };

    /// Returns the inode of the peer: the value of the first `Peer` (`UNIX_DIAG_PEER`). Returns
    /// `None` if there is no such attribute.
    pub fn peer(&self) -> Option<u32>
        ensures { result
            ≡ first_content_of (value_of_kind unix_attribute_set UNIX_DIAG_PEER)
            (unix_response_view_model self.now).nlas }
    {
        self.attributes().find_map(|nla| match nla {
            NlaView::Peer(inode) => Some(inode),
            _ => None,
        })
    }

    /// Returns the name of the socket: the value of the first `Name` (`UNIX_DIAG_NAME`). Returns
    /// `None` if there is no such attribute.
    pub fn name(&self) -> Option<NameView<'a>>
        ensures { option_map (socket_name_model (λ b. b.now)) result
            ≡ first_content_of (value_of_kind unix_attribute_set UNIX_DIAG_NAME)
            (unix_response_view_model self.now).nlas }
    {
        self.attributes().find_map(|nla| match nla {
            NlaView::Name(name) => Some(name),
            _ => None,
        })
    }

    /// Returns the inodes of the sockets that connected, one for each connection that waits to be
    /// accepted, or 0 if that socket was closed: the value of the first `PendingConnections`
    /// (`UNIX_DIAG_ICONS`). Returns `None` if there is no such attribute.
    pub fn pending_connections(&self) -> Option<NumbersView<'a>>
        ensures { option_map numbers_view_model result
            ≡ first_content_of (value_of_kind unix_attribute_set UNIX_DIAG_ICONS)
            (unix_response_view_model self.now).nlas }
    {
        self.attributes().find_map(|nla| match nla {
            NlaView::PendingConnections(inodes) => Some(inodes),
            _ => None,
        })
    }

    /// Returns the directions that are shut down (0 for none, 1 for receiving, 2 for sending, 3 for
    /// both): the value of the first `Shutdown` (`UNIX_DIAG_SHUTDOWN`). Returns `None` if there is
    /// no such attribute.
    pub fn shutdown_state(&self) -> Option<u8>
        ensures { result
            ≡ first_content_of (value_of_kind unix_attribute_set UNIX_DIAG_SHUTDOWN)
            (unix_response_view_model self.now).nlas }
    {
        self.attributes().find_map(|nla| match nla {
            NlaView::Shutdown(state) => Some(state),
            _ => None,
        })
    }
}

impl<'a> UnixResponseView<'a> {
    ghost use Rattle.sock_diag_replies.specs.ViewModel.{
      view_model as
          unix_response_view_model,
    };
    ghost use Rattle.sock_diag_replies.specs.UnixGetters.{listening_queue_of};
    ghost use Rattle.sock_diag_replies.specs.UnixGetters.{nonlistening_queue_of};
    ghost use Rattle.sock_diag_replies.specs.UnixGetters.{udiag_rqueue, udiag_wqueue};

    /// Returns the number of connections that wait to be accepted: the first number of the first
    /// `ReceiveQueueLength` (`udiag_rqueue` of `unix_diag_rqlen`). Returns `None` if the socket
    /// does not listen (its state is not `TCP_LISTEN`), or if there is no such attribute.
    ///
    /// If the result is a `Some`, [`receive_queue_size`](Self::receive_queue_size) and
    /// [`send_queue_size`](Self::send_queue_size) return `None`.
    pub fn number_of_pending_connection(&self) -> Option<u32>
        ensures value { result ≡ option_map udiag_rqueue
            (listening_queue_of (unix_response_view_model self.now)) }
        ensures alone { IsSome result → nonlistening_queue_of (unix_response_view_model self.now)
            ≡ None }
    {
        let (waiting, _) = self.listening_queue()?;
        Some(waiting)
    }

    /// Returns the limit on the connections that wait to be accepted: the second number of the
    /// first `ReceiveQueueLength` (`udiag_wqueue` of `unix_diag_rqlen`). Returns `None` if the
    /// socket does not listen (its state is not `TCP_LISTEN`), or if there is no such attribute.
    pub fn max_number_of_pending_connection(&self) -> Option<u32>
        ensures { result ≡ option_map udiag_wqueue
            (listening_queue_of (unix_response_view_model self.now)) }
    {
        let (_, limit) = self.listening_queue()?;
        Some(limit)
    }

    // Returns both numbers of the first `ReceiveQueueLength` (`UNIX_DIAG_RQLEN`), or `None` if
    // there is no such attribute.
    fn queue(&self) -> Option<(u32, u32)>
        ensures { result
            ≡ first_content_of (value_of_kind unix_attribute_set UNIX_DIAG_RQLEN)
            (unix_response_view_model self.now).nlas }
    {
        self.attributes().find_map(|nla| match nla {
            NlaView::ReceiveQueueLength(rqueue, wqueue) => Some((rqueue, wqueue)),
            _ => None,
        })
    }

    // Returns both numbers of the first `ReceiveQueueLength` if the socket listens. Returns `None`
    // if it does not, or if there is no such attribute.
    fn listening_queue(&self) -> Option<(u32, u32)>
        ensures { result ≡ listening_queue_of (unix_response_view_model self.now) }
    {
        if self.header().state == TCP_LISTEN {
            self.queue()
        } else {
            None
        }
    }

    // Returns both numbers of the first `ReceiveQueueLength` if the socket does not listen. Returns
    // `None` if it does, or if there is no such attribute.
    fn nonlistening_queue(&self) -> Option<(u32, u32)>
        ensures { result ≡ nonlistening_queue_of (unix_response_view_model self.now) }
    {
        if self.header().state == TCP_LISTEN {
            None
        } else {
            self.queue()
        }
    }

    /// Returns the number of bytes that wait to be read, of a datagram socket only those of the
    /// first datagram: the first number of the first `ReceiveQueueLength` (`udiag_rqueue` of
    /// `unix_diag_rqlen`). Returns `None` if the socket listens (its state is `TCP_LISTEN`), or if
    /// there is no such attribute.
    pub fn receive_queue_size(&self) -> Option<u32>
        ensures { result ≡ option_map udiag_rqueue
            (nonlistening_queue_of (unix_response_view_model self.now)) }
    {
        let (received, _) = self.nonlistening_queue()?;
        Some(received)
    }

    /// Returns the memory in bytes of sent data that was not read yet: the second number of the
    /// first `ReceiveQueueLength` (`udiag_wqueue` of `unix_diag_rqlen`). Returns `None` if the
    /// socket listens (its state is `TCP_LISTEN`), or if there is no such attribute.
    pub fn send_queue_size(&self) -> Option<u32>
        ensures { result ≡ option_map udiag_wqueue
            (nonlistening_queue_of (unix_response_view_model self.now)) }
    {
        let (_, sent) = self.nonlistening_queue()?;
        Some(sent)
    }
}

impl<'a> UnixResponseView<'a> {
    ghost use Rattle.sock_diag_replies.specs.ViewModel.{
      view_model as
          unix_response_view_model,
    };

    /// Returns the size of the send buffer in bytes, which limits the size of a datagram: the field
    /// `max_datagram_size` of the first `MemInfo` (`SK_MEMINFO_SNDBUF` of `UNIX_DIAG_MEMINFO`).
    /// Returns `None` if there is no such attribute.
    pub fn max_datagram_size(&self) -> Option<u32>
        ensures { result ≡ option_map (λ info. info.max_datagram_size)
            (first_content_of (value_of_kind unix_attribute_set UNIX_DIAG_MEMINFO)
            (unix_response_view_model self.now).nlas) }
    {
        Some(self.memory()?.max_datagram_size)
    }

    /// Returns the field `alloc` of the first `MemInfo` (`SK_MEMINFO_WMEM_QUEUED` of
    /// `UNIX_DIAG_MEMINFO`): the memory of the data that is queued to be sent, in bytes. Linux
    /// reports 0 here for a UNIX socket. Returns `None` if there is no such attribute.
    pub fn memory_used_for_outgoing_data(&self) -> Option<u32>
        ensures { result ≡ option_map (λ info. info.alloc)
            (first_content_of (value_of_kind unix_attribute_set UNIX_DIAG_MEMINFO)
            (unix_response_view_model self.now).nlas) }
    {
        Some(self.memory()?.alloc)
    }

    // Returns the value of the first `MemInfo` (`UNIX_DIAG_MEMINFO`), or `None` if there is no such
    // attribute.
    fn memory(&self) -> Option<MemInfo>
        ensures { result
            ≡ first_content_of (value_of_kind unix_attribute_set UNIX_DIAG_MEMINFO)
            (unix_response_view_model self.now).nlas }
    {
        self.attributes().find_map(|nla| match nla {
            NlaView::MemInfo(info) => Some(info),
            _ => None,
        })
    }
}
