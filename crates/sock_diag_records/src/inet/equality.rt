//! `Exact` for the records that contain other records: `==` compares and `clone` copies each field.

ghost use Rattle.std.proofs.Common.{rules};
ghost use Rattle.sock_diag_records.specs.laws.EqualRecord.{inet_request_equal};
ghost use Rattle.sock_diag_records.specs.laws.EqualRecord.{inet_response_header_equal};
ghost use Rattle.sock_diag_records.specs.contracts.inet.socket_id.SocketIdExact.TheImpl.Laws.{
  exact-law as exact_socket,
};
ghost use Rattle.sock_diag_records.specs.contracts.inet.response.TimerExact.TheImpl.Laws.{
  exact-law as exact_timer,
};

use super::{InetRequest, InetResponseHeader};
use netlink_core::Exact;

impl Exact for InetRequest {
    ghost exact = { (
      inet_request_equal _ exact_socket.0,
      Prim.search rules,
      Prim.search rules depth 12,
    ) };
}

impl Exact for InetResponseHeader {
    ghost exact = { (
      inet_response_header_equal _ exact_socket.0 _ exact_timer.0,
      Prim.search rules,
      Prim.search rules,
    ) };
}
