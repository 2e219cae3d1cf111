//! Records that are parsed without an error: parsing returns `None` if there are too few bytes.

ghost use Rattle.std.specs.Prelude.{◌≡◌, ◌≤◌, ◌++◌, drop, length, SomeIff};
ghost use Rattle.std.specs.Result.{result_ok};
ghost use Rattle.netlink_core.specs.Codec.{RecordLaws};
ghost use Rattle.netlink_core.specs.Layout.{parse_record};
ghost use Rattle.netlink_core.specs.declared.error.RecordName.{RecordName};
ghost use Rattle.sock_diag_extras.specs.RecordTable.{RecordTable, bytes_by_table, layout_with_name};
ghost use Rattle.sock_diag_extras.specs.RecordTable.{parse_by_table};

/// A record in the value of an attribute that the port leaves undecoded.
pub trait AttributeRecord: Sized {
    // The layout of the record's fields.
    ghost layout: { RecordTable Self };

    /// Returns the size of the record in bytes.
    fn size() -> usize
        ensures { result ≡ layout.size };

    /// Parses the record at the start of the bytes, of which there must be at least `size()`. The
    /// bytes after the record are ignored.
    fn from_fields(bytes: &[u8]) -> Self
        requires { layout.size ≤ length bytes.now }
        ensures { result ≡ parse_by_table layout bytes.now };

    /// Serializes the record to a buffer of `size()` bytes. The previous content of the buffer does
    /// not matter.
    fn write_fields(&self, buffer: &mut [u8])
        requires { length buffer.old ≡ layout.size }
        ensures { buffer.new ≡ bytes_by_table layout self.now };

    // Proof only: the layout keeps the laws of records, whatever name its errors have.
    ghost laws: { (name : RecordName) → RecordLaws (layout_with_name layout name) };
}

/// Parses the record at the start of the bytes. Returns `None` if there are fewer bytes than the
/// record has. The bytes that follow are ignored.
#[inline(always)]
pub fn read_attribute_record<T: AttributeRecord>(value: &[u8]) -> Option<T>
    ensures value { SomeIff result (T.layout.size ≤ length value.now)
        (parse_by_table T.layout value.now) }
    // The result is what `parse_record` of `netlink_core` returns for this layout, with `None` in
    // place of its error. A layout there has a name, which only the error contains, so this holds
    // for any name.
    ensures by_layout { (name : RecordName)
        → result ≡ result_ok (parse_record (layout_with_name T.layout name) tt value.now) }
{
    if value.len() < T::size() {
        return None;
    }
    Some(T::from_fields(value))
}

/// Serializes the record to the start of the buffer, which must be at least as long as the record.
/// The bytes after it are unchanged.
pub fn write_attribute_record<T: AttributeRecord>(value: &T, buffer: &mut [u8])
    requires { T.layout.size ≤ length buffer.old }
    ensures { buffer.new ≡ bytes_by_table T.layout value.now ++ drop T.layout.size buffer.old }
{
    value.write_fields(&mut buffer[..T::size()]);
}
