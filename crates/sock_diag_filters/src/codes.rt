//! Codes of the operations of a program: `code` of `struct inet_diag_bc_op` of `linux/inet_diag.h`.

/// Length of `struct inet_diag_bc_op` in bytes, with which each operation begins.
pub(crate) const OPERATION_HEADER_LEN: usize = 4;

/// Greatest distance of a jump in bytes: it fits the 16 bits of `no`.
pub(crate) const MAX_DISTANCE: usize = 65_535;

/// Does not test anything.
pub const INET_DIAG_BC_NOP: u8 = 0;

/// Jumps unconditionally.
pub const INET_DIAG_BC_JMP: u8 = 1;

/// Tests that the source port is at least a given port.
pub const INET_DIAG_BC_S_GE: u8 = 2;

/// Tests that the source port is at most a given port.
pub const INET_DIAG_BC_S_LE: u8 = 3;

/// Tests that the destination port is at least a given port.
pub const INET_DIAG_BC_D_GE: u8 = 4;

/// Tests that the destination port is at most a given port.
pub const INET_DIAG_BC_D_LE: u8 = 5;

/// Tests that the socket itself was not bound to its source port: the kernel chose the port, or a
/// listening socket accepted the socket. Each socket in TIME_WAIT passes too.
pub const INET_DIAG_BC_AUTO: u8 = 6;

/// Tests the source address by a prefix, and optionally the source port:
/// `struct inet_diag_hostcond`.
pub const INET_DIAG_BC_S_COND: u8 = 7;

/// Tests the destination address by a prefix, and optionally the destination port:
/// `struct inet_diag_hostcond`.
pub const INET_DIAG_BC_D_COND: u8 = 8;

/// Tests that the socket is bound to a given interface.
pub const INET_DIAG_BC_DEV_COND: u8 = 9;

/// Tests that the socket's mark, under a mask, has a given value: `struct inet_diag_markcond`.
pub const INET_DIAG_BC_MARK_COND: u8 = 10;

/// Tests that the source port is a given port.
pub const INET_DIAG_BC_S_EQ: u8 = 11;

/// Tests that the destination port is a given port.
pub const INET_DIAG_BC_D_EQ: u8 = 12;

/// Tests that the socket's control group has a given id.
pub const INET_DIAG_BC_CGROUP_COND: u8 = 13;
