//! The name in a reply about a UNIX socket, with `sock_diag_replies`.

ghost use Rattle.std.specs.Prelude.{◌≡◌, ◌↔◌, Some, IsTrue, IfOk, IfErr};
ghost use Rattle.netlink_core.specs.AttributeSet.{value_of_kind};
ghost use Rattle.netlink_core.specs.Response.{response_codec, ReplyValue};
ghost use Rattle.sock_diag_attributes.specs.declared.unix.name.SocketName.TheVariants.{Pathname};
ghost use Rattle.sock_diag_attributes.specs.UnixAttributes.{unix_attribute_set};
ghost use Rattle.sock_diag_records.specs.declared.constants.TheConstants.{UNIX_DIAG_NAME};
ghost use Rattle.sock_diag_replies.specs.UnixGetters.{first_content_of};
ghost use Rattle.sock_diag_replies.specs.UnixResponseSpec.{unix_response_spec};

use netlink_core::DecodeError;
use sock_diag_replies::unix::UnixResponseView;
use sock_diag_replies::unix::nlas::NameView;

/// Returns whether the first `UNIX_DIAG_NAME` of a reply about a UNIX socket is this pathname.
/// Returns `false` if there is no such attribute, or if it is an abstract name. Returns the first
/// decode error if the reply is invalid.
pub fn is_bound_to(reply: &[u8], path: &[u8]) -> Result<bool, DecodeError>
    // `v`: the value that the reply parses as; its codec has no parameter (`tt`).
    // `first_content_of (value_of_kind set kind) v.nlas`: the value of the first attribute of this
    // kind, or `None`. `Pathname path`: a name that is this pathname.
    ensures value { IfOk result (λ bound.
        (v : ReplyValue unix_response_spec)
        × (response_codec unix_response_spec).parses reply.now tt v
        × (IsTrue bound
        ↔ (first_content_of (value_of_kind unix_attribute_set UNIX_DIAG_NAME) v.nlas
        ≡ Some (Pathname path.now)))) }
    ensures error { IfErr result ((response_codec unix_response_spec).rejects reply.now tt) }
{
    let view = UnixResponseView::parse(reply)?;
    Ok(view.name() == Some(NameView::Pathname(path)))
}
