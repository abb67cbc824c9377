// The part of a coder file that holds the entries.
ghost use Rattle.std.specs.Prelude.{◌≡◌, ◌+◌, ◌≤◌, length};
ghost use Rattle.coder.specs.File.{entries_of};

// The entries: the part of the file from byte 6 on.
pub fn entries(file: &[u8]) -> &[u8]
    requires { 6 ≤ length file.now }
    ensures result_value { result.now ≡ entries_of file.now }
    ensures ref_ptr_value { (result.ref_ptr.0 ≡ file.entry.ref_ptr.0) × (result.ref_ptr.1 ≡ file.entry.ref_ptr.1 + 6) }
{
    &file[6..]
}
