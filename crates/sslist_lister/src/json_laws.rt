//! A property of names in lines of JSON.

ghost use Rattle.std.specs.Prelude.{◌≡◌};
ghost use Rattle.hex.specs.Hex.{IsBytes};
ghost use Rattle.sock_diag_attributes.specs.NameModel.{name_view_model};
ghost use Rattle.sslist_texts.specs.JsonData.{json_text, object_of};
ghost use Rattle.sslist_lister.specs.AttributeFacts.{name_bytes_facts};
ghost use Rattle.sslist_lister.specs.private.JsonNames.{bytes_of_name};

use sock_diag_attributes::unix::nlas::NameView;

/// Proof only: the contract states that two different names never have the same JSON text. If the
/// texts are equal, then the names are.
pub fn different_names_have_different_texts(v: NameView<'_>, w: NameView<'_>)
    ensures { json_text (object_of (name_bytes_facts (name_view_model v.entry)).members)
        ≡ json_text (object_of (name_bytes_facts (name_view_model w.entry)).members)
        → name_view_model v.entry ≡ name_view_model w.entry }
{
    prove_in_range(v);
    prove_in_range(w);
}

/// Proof only: puts the range of each byte of a name in scope. The texts determine the names only
/// if each byte is below 256, since names that are not UTF-8 are in hexadecimal digits. No run-time
/// effect.
fn prove_in_range(name: NameView<'_>)
    ensures { IsBytes (bytes_of_name (name_view_model name.entry)) }
{
    match name {
        NameView::Pathname(path) => prove_bytes_in_range(path),
        NameView::Abstract(address) => prove_bytes_in_range(address),
    }
}

/// Proof only: states that each byte is below 256, which [`prove_in_range`] needs. No run-time
/// effect.
fn prove_bytes_in_range(bytes: &[u8])
    ensures { IsBytes bytes.now }
{
    // The call shows the prover that these are the bytes of a slice.
    let _length = bytes.len();
}
