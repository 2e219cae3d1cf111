//! The command line of `sslist`: the options, by which it selects sockets and details, the names of
//! the captures, and the words of a filter.
#![tactic(auto)]

mod arguments;
mod choice;
mod equality;
mod files;
pub mod laws;
mod options;

pub use choice::{Choice, Rejection, choose};
pub use files::{ListCapture, filter_text, list_captures, names_several};
pub use options::{Detail, Family, IPPROTO_MPTCP, IPPROTO_TCP, IPPROTO_UDP, Options};

/// The text that `sslist --help` prints.
pub const HELP: &str = "\
Usage: sslist [OPTION ..] [FILE ..] [-- FILTER]

Lists the sockets in captures of netlink traffic: in each FILE, or in standard
input if there is none, or if FILE is -. A capture is in pcap or pcapng format,
as written by tcpdump -i nlmon0 -w -, or by sockdump, which records the sockets
of this machine: sockdump | sslist.

Select sockets (several options add up):
  -t, --tcp              TCP sockets
  -u, --udp              UDP sockets
  -M, --mptcp            MPTCP sockets
  -4, --ipv4             IPv4 sockets; with -t, -u or -M only these protocols
  -6, --ipv6             IPv6 sockets; with -t, -u or -M only these protocols
  -x, --unix             UNIX sockets
  -0, --packet           packet sockets
      --vsock            vsock sockets
      --xdp              XDP sockets
  -f, --family=FAMILY    sockets of inet, inet6, unix, link (packet), netlink,
                         vsock or xdp
  -l, --listening        only listening sockets: states LISTEN and UNCONN
  -a, --all              sockets in all states (default)

Filter sockets (by the words of ss(8), after --):
  sslist FILE -- state established '( dport = :443 or src 10.0.0.0/8 )'
  state STATE, exclude STATE  the states, first of all; they replace -l and -a
  sport, dport                a port: 443 or :443, after =, !=, <, >, <= or >=
  src, dst                    an address, /LENGTH and :PORT may follow it
  dev, fwmark, cgroup         an index, a mark or MARK/MASK, an id; after = or !=
  not, and, or, ( )           and a group begins and ends with a word of its own
  STATE is established (or estab), syn-sent, syn-recv (or syn-rcv), fin-wait-1,
  fin-wait-2, time-wait, closed (or close, unconnected, unconn), close-wait,
  last-ack, listening (or listen) or closing; or a group: all, connected (all
  but closed and listening), synchronized (connected but not syn-sent), bucket
  (syn-recv and time-wait), big (all but bucket). Case does not matter. Only
  IPv4 and IPv6 sockets meet other words. Only numbers, no names.

Select details (all by default; several options add up):
  -o, --options          the timer
  -m, --memory           the memory
  -i, --info             the TCP connection
  -e, --extended         the cookie and all other details

Format:
  -H, --no-header        no heading
  -O, --oneline          one line per socket
  -n, --numeric          ignored: service names are never resolved
      --utf8             in names that are valid UTF-8, show letters instead of
                         escaped bytes
      --requests         also a line for each request, with its time
      --json             a JSON object for each socket, one per line

  -h, --help             print this text and exit
  -V, --version          print the version and exit

Other options of ss(8), such as -p, -s, -r, -w and -A, are rejected.

Exit status:
  0: each capture was read to its end, and standard error has nothing but notes,
     which say that the kernel has no sockets of a kind or cannot list them.
     Sockets that the options leave out do not change the status.
  1: anything else, which standard error names, except for a closed output pipe.
  2: an argument is wrong, and nothing was listed.";
