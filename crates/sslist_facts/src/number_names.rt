//! Names of what TLS and MPTCP report of a TCP socket, and of the modes of fanout groups, and the
//! directions of a shutdown state. If a function of this module fails, an allocation failed, and
//! the content of the text is not specified.

ghost use Rattle.std.specs.Prelude.{◌≡◌, ◌++◌, OnOk, flat_map, map, option_map};
ghost use Rattle.sslist_facts.specs.Rows.{numbered_row};
ghost use Rattle.sslist_facts.specs.NumberNames.{directions, fanout_mode_name, flag_letter};
ghost use Rattle.sslist_facts.specs.NumberNames.{flag_letters, name_in, tls_cipher_name};
ghost use Rattle.sslist_facts.specs.NumberNames.{tls_mode_name, tls_version_name};

use std::alloc::AllocError;

/// Bit of a shutdown state (`sk_shutdown` of the kernel): receiving is shut down.
const RCV_SHUTDOWN: u64 = 1;

/// Bit of a shutdown state: sending is shut down.
const SEND_SHUTDOWN: u64 = 2;

/// Versions of TLS and their names: `TLS_1_2_VERSION` and `TLS_1_3_VERSION` of linux/tls.h.
static TLS_VERSIONS: [(u64, &[u8]); 2] = [(0x303, b"1.2"), (0x304, b"1.3")];

/// Ciphers of TLS and their names, if ss(8) has one: `TLS_CIPHER_AES_GCM_128` and
/// `TLS_CIPHER_AES_GCM_256` of linux/tls.h.
static TLS_CIPHERS: [(u64, &[u8]); 2] = [(51, b"aes-gcm-128"), (52, b"aes-gcm-256")];

/// Names of how data is encrypted or decrypted: `TLS_CONF_BASE` (not in the kernel), `TLS_CONF_SW`,
/// `TLS_CONF_HW` and `TLS_CONF_HW_RECORD` (in hardware that also makes the records) of linux/tls.h.
static TLS_MODES: [(u64, &[u8]); 4] = [(1, b"none"), (2, b"sw"), (3, b"hw"), (4, b"hw-record")];

/// Modes of a fanout group (`PACKET_FANOUT_..` of linux/if_packet.h) and their names, if ss(8) has
/// one.
static FANOUT_MODES: [(u64, &[u8]); 6] = [
    (0, b"hash"),
    (1, b"lb"),
    (2, b"cpu"),
    (3, b"roll"),
    (4, b"random"),
    (5, b"qm"),
];

/// Flags of a subflow and their letters. In this order: the bits `MPTCP_SUBFLOW_FLAG_MCAP_REM`,
/// `MCAP_LOC`, `JOIN_REM`, `JOIN_LOC`, `BKUP_REM`, `BKUP_LOC`, `FULLY_ESTABLISHED`, `CONNECTED` and
/// `MAPVALID` of linux/mptcp.h.
static SUBFLOW_FLAGS: [(u64, u8); 9] = [
    (1, b'M'),
    (2, b'm'),
    (4, b'J'),
    (8, b'j'),
    (16, b'B'),
    (32, b'b'),
    (64, b'e'),
    (128, b'c'),
    (256, b'v'),
];

/// Returns the name of a version of TLS, if it has one.
pub(crate) fn name_of_version(number: u64) -> Option<&'static [u8]>
    ensures { option_map (λ name. name.now) result ≡ tls_version_name number }
{
    name_in(&TLS_VERSIONS, number)
}

/// Returns the name of a cipher of TLS, if it has one.
pub(crate) fn name_of_cipher(number: u64) -> Option<&'static [u8]>
    ensures { option_map (λ name. name.now) result ≡ tls_cipher_name number }
{
    name_in(&TLS_CIPHERS, number)
}

/// Returns the name of how data is encrypted or decrypted, if it has one.
pub(crate) fn name_of_mode(number: u64) -> Option<&'static [u8]>
    ensures { option_map (λ name. name.now) result ≡ tls_mode_name number }
{
    name_in(&TLS_MODES, number)
}

/// Returns the name of the mode of a fanout group, if it has one.
pub(crate) fn name_of_fanout_mode(number: u64) -> Option<&'static [u8]>
    ensures { option_map (λ name. name.now) result ≡ fanout_mode_name number }
{
    name_in(&FANOUT_MODES, number)
}

/// Returns the name in the first row of a number, or `None` if there is none.
fn name_in(rows: &[(u64, &'static [u8])], number: u64) -> Option<&'static [u8]>
    ensures { option_map (λ name. name.now) result ≡ name_in (map numbered_row rows.now) number }
{
    for &(other, name) in rows {
        if number == other {
            return Some(name);
        }
    }
    None
}

/// Appends the letter of each flag of a subflow that is set in a number.
pub(crate) fn push_flag_letters(text: &mut Vec<u8>, flags: u64) -> Result<(), AllocError>
    ensures { OnOk result (text.new.items ≡ text.old.items ++ flag_letters flags) }
{
    push_letters(text, flags, &SUBFLOW_FLAGS)
}

/// Appends the letter of each of these bits that is set in a number.
fn push_letters(text: &mut Vec<u8>, number: u64, rows: &[(u64, u8)]) -> Result<(), AllocError>
    ensures { OnOk result (text.new.items ≡ text.old.items
        ++ flat_map (flag_letter number) rows.now) }
{
    for &(bit, letter) in rows {
        if number & bit != 0 {
            text.push(letter)?;
        }
    }
    Ok(())
}

/// Appends a space and the directions that are not shut down, as ss(8) does: `<->` if none is shut
/// down. `<` is `-` if `state` has the bit [`RCV_SHUTDOWN`], and `>` is `-` if it has the bit
/// [`SEND_SHUTDOWN`].
pub(crate) fn push_directions(text: &mut Vec<u8>, state: u64) -> Result<(), AllocError>
    ensures { OnOk result (text.new.items ≡ text.old.items ++ directions state) }
{
    text.push(b' ')?;
    text.push(if state & RCV_SHUTDOWN == 0 {
        b'<'
    } else {
        b'-'
    })?;
    text.push(b'-')?;
    Ok(text.push(if state & SEND_SHUTDOWN == 0 {
        b'>'
    } else {
        b'-'
    })?)
}
