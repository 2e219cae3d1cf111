//! Properties of iterations and of lenient calls. Proof only: each contract states a property.
//! `step` has the arguments and the results of a call.

ghost use Rattle.std.specs.Prelude.{◌≡◌, ℕ, List, [], ◌∷◌, Option, Some, None};
ghost use Rattle.netlink_core.specs.Attribute.{Attribute, SplitsIntoAttributes};
ghost use Rattle.netlink_core.specs.Bytes.{IsBytes};
ghost use Rattle.netlink_core.specs.Datagram.{SplitsIntoMessages};
ghost use Rattle.netlink_core.specs.declared.error.DecodeError.{DecodeError};
ghost use Rattle.netlink_core.specs.Errors.{error_code};
ghost use Rattle.sock_diag_replies.specs.InetResponseSpec.{inet_response_spec};
ghost use Rattle.sock_diag_replies.specs.UnixResponseSpec.{unix_response_spec};
ghost use Rattle.sockdiag_c.specs.Family.{AgreesWithCodec, CallsAgree, EveryRejectedKindHasCode};
ghost use Rattle.sockdiag_c.specs.InetDetails.{inet_family};
ghost use Rattle.sockdiag_c.specs.NetlinkDetails.{netlink_family};
ghost use Rattle.sockdiag_c.specs.PacketDetails.{packet_family};
ghost use Rattle.sockdiag_c.specs.UnixDetails.{unix_family};
ghost use Rattle.sockdiag_c.specs.VsockDetails.{vsock_family};
ghost use Rattle.sockdiag_c.specs.XdpDetails.{xdp_family};
ghost use Rattle.sockdiag_c.specs.declared.results.TheConstants.{END, ITEM};
ghost use Rattle.sockdiag_c.specs.declared.walks.AttributeRange.{AttributeRange};
ghost use Rattle.sockdiag_c.specs.declared.walks.MessageRange.{MessageRange};
ghost use Rattle.sockdiag_c.specs.Walks.{IterationStep, StepsOverAttribute, StepsOverMessage};
ghost use Rattle.sockdiag_c.specs.Walks.{StoresCheckedMessage, attribute_in, bytes_after_step};
ghost use Rattle.sockdiag_c.specs.Walks.{bytes_before_step};

/// States that a call of `sockdiag_next_attribute` returns the first of the attributes left, and
/// leaves the others (`next`); and that it returns END if none is left (`end`). The bytes left have
/// to be a sequence of attributes, as those after the header of an accepted reply are.
pub fn a_step_passes_the_first_attribute()
    ensures next { (step : IterationStep AttributeRange)
        (first : Attribute) (later : List Attribute)
        → SplitsIntoAttributes (bytes_before_step step) (first ∷ later) []
        → StepsOverAttribute step
        → (step.returned ≡ ITEM) × (attribute_in step.bytes step.new_item ≡ first)
        × SplitsIntoAttributes (bytes_after_step step) later [] }
    ensures end { (step : IterationStep AttributeRange)
        → SplitsIntoAttributes (bytes_before_step step) [] []
        → StepsOverAttribute step → step.returned ≡ END }
{}

/// States that a call of `sockdiag_next_message` stores the first message of the bytes left, and
/// leaves the others (`next`); that it returns END if no bytes are left (`end`); and that it
/// returns the code of the framing error if bytes are left that do not begin with a message
/// (`error`).
pub fn a_step_passes_the_first_message()
    ensures next { (step : IterationStep MessageRange)
        (message : List ℕ) (later : List (List ℕ)) (end : Option DecodeError)
        → IsBytes (bytes_before_step step)
        → SplitsIntoMessages (bytes_before_step step) (message ∷ later) end
        → StepsOverMessage step
        → StoresCheckedMessage step × SplitsIntoMessages (bytes_after_step step) later end }
    ensures end { (step : IterationStep MessageRange)
        → IsBytes (bytes_before_step step)
        → SplitsIntoMessages (bytes_before_step step) [] None
        → StepsOverMessage step → step.returned ≡ END }
    ensures error { (step : IterationStep MessageRange) (e : DecodeError)
        → IsBytes (bytes_before_step step)
        → SplitsIntoMessages (bytes_before_step step) [] (Some e)
        → StepsOverMessage step
        → (step.returned ≡ error_code e) × (bytes_after_step step ≡ []) }
{}

/// States that a lenient call, `sockdiag_.._get_lenient_details`, agrees with the strict call,
/// `sockdiag_.._get_details`, for each family: if the field `first` of the rejections is 0, the
/// details are those of the strict call. Otherwise it is the code of the error that the strict call
/// returns.
pub fn lenient_calls_agree_with_strict_calls()
    ensures unix { CallsAgree unix_family }
    ensures inet { CallsAgree inet_family }
    ensures netlink { CallsAgree netlink_family }
    ensures packet { CallsAgree packet_family }
    ensures vsock { CallsAgree vsock_family }
    ensures xdp { CallsAgree xdp_family }
{}

/// States that `sockdiag_unix_get_details` and `sockdiag_inet_get_details` accept and reject the
/// replies that `sockdiag_check_unix_reply` and `sockdiag_check_inet_reply` do, with the same
/// errors. These are the replies and errors of the codecs of `unix_response_spec` and
/// `inet_response_spec`.
pub fn strict_calls_agree_with_checks()
    ensures unix { AgreesWithCodec unix_family unix_response_spec }
    ensures inet { AgreesWithCodec inet_family inet_response_spec }
{}

/// States that each kind of attribute that can be rejected has an element in `errors` of
/// `struct sockdiag_rejections`.
pub fn every_rejected_kind_has_a_code()
    ensures unix { EveryRejectedKindHasCode unix_family }
    ensures inet { EveryRejectedKindHasCode inet_family }
    ensures netlink { EveryRejectedKindHasCode netlink_family }
    ensures packet { EveryRejectedKindHasCode packet_family }
    ensures vsock { EveryRejectedKindHasCode vsock_family }
    ensures xdp { EveryRejectedKindHasCode xdp_family }
{}
