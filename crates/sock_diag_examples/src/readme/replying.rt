//! Building a reply.

ghost use Rattle.std.specs.Prelude.{◌≡◌, [], ◌∷◌, replicate, IfOk};
ghost use Rattle.netlink_core.specs.AttributeSet.{value_as_decoded};
ghost use Rattle.sock_diag_attributes.specs.declared.unix.name.SocketName.TheVariants.{Pathname};
ghost use Rattle.sock_diag_examples.specs.UnixResponseModel.{unix_response_model};
ghost use Rattle.sock_diag_attributes.specs.UnixAttributes.{unix_attribute_set};
ghost use Rattle.sock_diag_records.specs.declared.constants.TheConstants.{UNIX_DIAG_NAME};

use netlink_packet_sock_diag::constants::{SOCK_STREAM, TCP_LISTEN};
use netlink_packet_sock_diag::unix::nlas::{Nla, UnixDiagName};
use netlink_packet_sock_diag::unix::{UnixResponse, UnixResponseHeader};
use smallvec::SmallVec;
use std::alloc::{AllocError, Global};

/// Returns a reply about a stream socket that listens at a path. Its cookie is zeros, and its only
/// attribute is `UNIX_DIAG_NAME`. The path is not checked: the reply is in normal form only if the
/// path is not empty and contains no NUL. Fails only if an allocation fails.
pub fn listener(alloc: Global, inode: u32, path: &[u8]) -> Result<UnixResponse, AllocError>
    ensures header { IfOk result
        (λ reply. reply.header ≡ record {
          kind = SOCK_STREAM;
          state = TCP_LISTEN;
          inode = inode;
          cookie = replicate 8 0;
        }) }
    // The reply has exactly one attribute.
    ensures name { IfOk result
        (λ reply. (unix_response_model reply).nlas
        ≡ value_as_decoded unix_attribute_set UNIX_DIAG_NAME
        (Pathname path.now) ∷ []) }
{
    let mut nlas = SmallVec::new(alloc);
    let name = UnixDiagName::Pathname(Vec::from_slice(alloc, path)?);
    nlas.push(Nla::Name(name))?;
    Ok(UnixResponse {
        header: UnixResponseHeader {
            kind: SOCK_STREAM,
            state: TCP_LISTEN,
            inode,
            cookie: [0; 8],
        },
        nlas,
    })
}
