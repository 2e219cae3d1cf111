//! Which fields the rows of [`crate::tcp`] are about.

ghost use Rattle.std.specs.Prelude.{◌≡◌, [], ◌∷◌, ◌++◌, map};
ghost use Rattle.sock_diag_extras.specs.MptcpFields.{mptcp_fields, mptcp_span_of};
ghost use Rattle.sock_diag_extras.specs.TcpFields.{tcp_span_of};
ghost use Rattle.sslist_facts.specs.TcpRows.{spans_of_rows, tcp_number_fields, tcp_rows};
ghost use Rattle.sslist_facts.specs.declared.tcp.TheConstants.{MPTCP_ROWS};

/// States that the rows of each struct are about all of its numbers, in order, at their offsets and
/// with their widths. A byte of bit fields counts as one number: which of its bits the rows are
/// about is not stated. Of the last number of `struct tcp_info` only the first byte counts.
pub fn rows_are_fields()
    // The last rows of `struct tcp_info` are about the byte at 276, before `tcpi_options2`.
    ensures tcp { spans_of_rows tcp_rows ≡ map tcp_span_of tcp_number_fields ++ (276, 1) ∷ [] }
    ensures mptcp { spans_of_rows MPTCP_ROWS ≡ map mptcp_span_of mptcp_fields }
{}
