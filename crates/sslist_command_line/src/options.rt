//! Selection of the sockets that are listed, and of the details that are shown for each.

ghost use Rattle.std.specs.Prelude.{◌≡◌, Some};
ghost use Rattle.sslist_command_line.specs.Options.{has_conditions, selects_state};
ghost use Rattle.sslist_command_line.specs.Options.{selects_family, selects_detail};
ghost use Rattle.sslist_command_line.specs.Options.{lists_family, lists_state};
ghost use Rattle.sslist_command_line.specs.Options.{lists_protocol, lists_unix};
ghost use Rattle.sslist_command_line.specs.Options.{lists_version, selects_inet_protocol};
ghost use Rattle.sslist_command_line.specs.Options.{selects_other_family, selects_protocol};
ghost use Rattle.sslist_command_line.specs.Options.{selects_sockets, shows_detail};

use sock_diag_filters::ParsedFilter;
use sock_diag_records::constants::{self, TCP_CLOSE, TCP_LISTEN};

/// The number of TCP in a request, `IPPROTO_TCP` of linux/in.h.
pub const IPPROTO_TCP: u32 = constants::IPPROTO_TCP as u32;

/// The number of UDP in a request, `IPPROTO_UDP` of linux/in.h.
pub const IPPROTO_UDP: u32 = constants::IPPROTO_UDP as u32;

/// The number of MPTCP in a request, `IPPROTO_MPTCP` of linux/in.h. It does not fit a byte, so it
/// is in the attribute `INET_DIAG_REQ_PROTOCOL`.
pub const IPPROTO_MPTCP: u32 = 262;

/// The options of a command line.
///
/// If none of `timer`, `extended`, `memory` and `connection` is set, all details are shown. If none
/// of `tcp`, `udp`, `mptcp`, `unix`, `netlink`, `packet`, `vsock`, `xdp`, `inet` and `inet6` is
/// set, sockets of all families are listed.
#[derive(Clone, Copy, Debug, Default)]
pub struct Options<'a> {
    /// `-o`: show the timer.
    pub timer: bool,
    /// `-e`: show the cookie, and all details that `-o`, `-m` and `-i` do not show.
    pub extended: bool,
    /// `-m`: show the memory.
    pub memory: bool,
    /// `-i`: show the information about the TCP connection (`INET_DIAG_INFO`), the name and
    /// measurements of its congestion control, its MD5 keys and its upper layer protocol, and the
    /// addresses of an SCTP association.
    pub connection: bool,
    /// `-O`: write the details on the same line as the columns.
    pub one_line: bool,
    /// `-t`: list TCP sockets.
    pub tcp: bool,
    /// `-u`: list UDP sockets.
    pub udp: bool,
    /// `-M`: list MPTCP sockets.
    pub mptcp: bool,
    /// `-x`, `-f unix`: list UNIX sockets.
    pub unix: bool,
    /// `-f netlink`: list netlink sockets.
    pub netlink: bool,
    /// `-0`, `-f link`: list packet sockets.
    pub packet: bool,
    /// `--vsock`, `-f vsock`: list vsock sockets.
    pub vsock: bool,
    /// `--xdp`, `-f xdp`: list XDP sockets.
    pub xdp: bool,
    /// `-4`, `-f inet`: list IPv4 sockets, and IPv6 sockets only if `inet6` is set.
    pub inet: bool,
    /// `-6`, `-f inet6`: list IPv6 sockets, and IPv4 sockets only if `inet` is set.
    pub inet6: bool,
    /// `-l`: list only sockets in the states `LISTEN` and `UNCONN`.
    pub listening: bool,
    /// `-H`: write neither the heading, nor a caption, nor the lines between two lists.
    pub no_heading: bool,
    /// `--utf8`: show letters of names that are valid UTF-8.
    pub utf8: bool,
    /// `--requests`: write a line with the time of each request.
    pub requests: bool,
    /// `--json`: write a JSON object for each socket, and no other line.
    pub json: bool,
    /// The filter that selects the sockets, if there is one. [`Options::with_filter`] sets it.
    pub filter: Option<&'a ParsedFilter>,
}

/// A group of details that an option selects.
#[derive(Clone, Copy, PartialEq, Eq)]
pub enum Detail {
    /// Timer (`-o`).
    Timer,
    /// Cookie, and all details of no other group (`-e`).
    Extended,
    /// Memory (`-m`).
    Memory,
    /// Information about the TCP connection (`INET_DIAG_INFO`), the name and measurements of its
    /// congestion control, its MD5 keys and its upper layer protocol, and the addresses of an SCTP
    /// association (`-i`).
    Connection,
}

/// A family of sockets other than UNIX, IPv4 and IPv6.
#[derive(Clone, Copy, PartialEq, Eq)]
pub enum Family {
    /// Netlink sockets.
    Netlink,
    /// Packet sockets.
    Packet,
    /// Vsock sockets.
    Vsock,
    /// XDP sockets.
    Xdp,
}

/// A family of sockets that an option selects.
#[derive(Clone, Copy)]
pub(crate) enum AnyFamily {
    Inet,
    Inet6,
    Unix,
    Netlink,
    Packet,
    Vsock,
    Xdp,
}

impl Options<'_> {
    /// Returns the same options with this filter.
    pub fn with_filter<'b>(self, filter: &'b ParsedFilter) -> Options<'b>
        ensures { result ≡ record self.entry { filter = Some filter.entry } }
    {
        Options {
            timer: self.timer,
            extended: self.extended,
            memory: self.memory,
            connection: self.connection,
            one_line: self.one_line,
            tcp: self.tcp,
            udp: self.udp,
            mptcp: self.mptcp,
            unix: self.unix,
            netlink: self.netlink,
            packet: self.packet,
            vsock: self.vsock,
            xdp: self.xdp,
            inet: self.inet,
            inet6: self.inet6,
            listening: self.listening,
            no_heading: self.no_heading,
            utf8: self.utf8,
            requests: self.requests,
            json: self.json,
            filter: Some(filter),
        }
    }

    /// Returns whether a group of details is shown: if its option is set, or if none of `timer`,
    /// `extended`, `memory` and `connection` is set.
    pub fn shows(self, detail: Detail) -> bool
        ensures { result ≡ shows_detail self.entry detail }
    {
        self.selects_detail(detail)
            || !(self.timer || self.extended || self.memory || self.connection)
    }

    /// Returns whether the option of a group of details is set.
    fn selects_detail(self, detail: Detail) -> bool
        ensures { result ≡ selects_detail self.entry detail }
    {
        match detail {
            Detail::Timer => self.timer,
            Detail::Extended => self.extended,
            Detail::Memory => self.memory,
            Detail::Connection => self.connection,
        }
    }

    /// Returns whether a UNIX socket in this state is listed. Three conditions must hold: `-x` is
    /// set, or no option that selects sockets is; sockets in this state are listed; and the filter
    /// has no conditions, which only IPv4 and IPv6 sockets meet.
    pub fn lists_unix(self, state: u8) -> bool
        ensures { result ≡ lists_unix self.entry state }
    {
        (self.unix || !self.selects_sockets()) && self.lists_state(state) && !self.has_conditions()
    }

    /// Returns whether IPv4 and IPv6 sockets of this protocol, a number `IPPROTO_..`, may be
    /// listed. They may if the option of the protocol is set. They also may if the option of no
    /// protocol is set, and if `-4` or `-6` is set or the option of no other family is set. If the
    /// protocol is not known (`None`), any of the options of TCP, UDP and MPTCP counts.
    pub fn lists_protocol(self, protocol: Option<u32>) -> bool
        ensures { result ≡ lists_protocol self.entry protocol }
    {
        self.selects_protocol(protocol)
            || (!self.selects_inet_protocol()
                && (self.inet || self.inet6 || !self.selects_other_family()))
    }

    /// Returns whether the option of a protocol is set, or, if the protocol is not known (`None`),
    /// any of the options of TCP, UDP and MPTCP.
    fn selects_protocol(self, protocol: Option<u32>) -> bool
        ensures { result ≡ selects_protocol self.entry protocol }
    {
        match protocol {
            Some(IPPROTO_TCP) => self.tcp,
            Some(IPPROTO_UDP) => self.udp,
            Some(IPPROTO_MPTCP) => self.mptcp,
            Some(_) => false,
            None => self.tcp || self.udp || self.mptcp,
        }
    }

    /// Returns whether IPv6 sockets, or IPv4 sockets if `is_ipv6` is false, may be listed: the
    /// option of this version is set, or that of the other one is not.
    pub fn lists_version(self, is_ipv6: bool) -> bool
        ensures { result ≡ lists_version self.entry is_ipv6 }
    {
        if is_ipv6 {
            self.inet6 || !self.inet
        } else {
            self.inet || !self.inet6
        }
    }

    /// Returns whether sockets in this state may be listed. If the filter names states, the state
    /// has to be one of these; else with `-l` `TCP_LISTEN` or `TCP_CLOSE` (`UNCONN`).
    pub fn lists_state(self, state: u8) -> bool
        ensures { result ≡ lists_state self.entry state }
    {
        match self.selects_state(state) {
            Some(is_selected) => is_selected,
            None => !self.listening || state == TCP_LISTEN || state == TCP_CLOSE,
        }
    }

    /// Returns whether a socket of a family in this state is listed. Three conditions must hold:
    /// the option of the family is set, or no option that selects sockets is; sockets in this state
    /// are listed; and the filter has no conditions, which only IPv4 and IPv6 sockets meet.
    pub fn lists_family(self, family: Family, state: u8) -> bool
        ensures { result ≡ lists_family self.entry family state }
    {
        (self.selects_family(family) || !self.selects_sockets())
            && self.lists_state(state)
            && !self.has_conditions()
    }

    /// Returns whether the filter has conditions.
    fn has_conditions(self) -> bool
        ensures { result ≡ has_conditions self.entry }
    {
        match self.filter {
            Some(filter) => !filter.parts.is_empty(),
            None => false,
        }
    }

    /// Returns whether the filter selects sockets in a state, or `None` if it names no state.
    fn selects_state(self, state: u8) -> Option<bool>
        ensures { result ≡ selects_state self.entry state }
    {
        self.filter?.selects_state(state)
    }

    /// Returns whether the option of a family is set.
    fn selects_family(self, family: Family) -> bool
        ensures { result ≡ selects_family self.entry family }
    {
        match family {
            Family::Netlink => self.netlink,
            Family::Packet => self.packet,
            Family::Vsock => self.vsock,
            Family::Xdp => self.xdp,
        }
    }

    /// Returns whether an option that selects sockets is set, by protocol or by family.
    fn selects_sockets(self) -> bool
        ensures { result ≡ selects_sockets self.entry }
    {
        self.selects_inet_protocol() || self.inet || self.inet6 || self.selects_other_family()
    }

    /// Returns whether the option of a protocol of IPv4 and IPv6 sockets is set: `-t`, `-u` or
    /// `-M`.
    fn selects_inet_protocol(self) -> bool
        ensures { result ≡ selects_inet_protocol self.entry }
    {
        self.tcp || self.udp || self.mptcp
    }

    /// Returns whether the option of a family other than IPv4 and IPv6 is set.
    fn selects_other_family(self) -> bool
        ensures { result ≡ selects_other_family self.entry }
    {
        self.unix || self.netlink || self.packet || self.vsock || self.xdp
    }
}
