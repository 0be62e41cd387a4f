//! The names of records.
ghost use Rattle.std.specs.Prelude.{◌≡◌, ◌++◌, ◌<◌, List, ℕ, OnOk, OnErr};
ghost use Rattle.record_pack.specs.Records.{record_name};

use addr_bits::Bytes;
use itoa::Buffer;
use std::alloc::AllocError;

/// Appends the name of the record of this number, which is not 0: the label, the number, a dot and the domain. Where
/// there is no memory, the text stays as it was.
pub fn push_name(
    text: &mut Bytes,
    domain: &[u8],
    label: &[u8],
    index: u64,
) -> Result<(), AllocError>
    requires { 0 < index }
    ensures ok { OnOk result (text.new ≡ text.old ++ record_name domain.now label.now index) }
    ensures err { OnErr result (text.new ≡ text.old) }
{
    let len = text.len();
    let pushed = push_parts(text, domain, label, index);
    if pushed.is_err() {
        text.truncate(len);
    }
    pushed
}

// Appends the parts of the name, or the first of them.
fn push_parts(text: &mut Bytes, domain: &[u8], label: &[u8], index: u64) -> Result<(), AllocError>
    requires { 0 < index }
    ensures ok { OnOk result (text.new ≡ text.old ++ record_name domain.now label.now index) }
    ensures err { OnErr result ((more : List ℕ) × (text.new ≡ text.old ++ more)) }
{
    text.extend_from_slice(label)?;
    text.extend_from_slice(Buffer::new().format(index).as_bytes())?;
    text.push(b'.')?;
    text.extend_from_slice(domain)
}
