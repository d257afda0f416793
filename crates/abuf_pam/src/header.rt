// The header of an image.
ghost use Rattle.std.specs.Prelude.{◌≡◌, ◌++◌, codes, decimal, OnOk};
ghost use Rattle.abuf_pam.specs.Image.{field, header};

use abuf_num::NoMemory;
use itoa::Buffer;

/// Puts a header line with a number last.
fn push_field(out: &mut Vec<u8>, name: &[u8], number: u32) -> Result<(), NoMemory>
    ensures { OnOk result (out.new.items ≡ out.old.items ++ field name.now number) }
{
    let mut buffer = Buffer::new();
    out.extend_from_slice(name)?;
    out.extend_from_slice(buffer.format(number).as_bytes())?;
    out.push(b'\n')?;
    Ok(())
}

/// Puts the header last.
pub(crate) fn push_header(
    out: &mut Vec<u8>,
    width: u32,
    height: u32,
    maxval: u32,
) -> Result<(), NoMemory>
    ensures { OnOk result (out.new.items ≡ out.old.items ++ header width height maxval) }
{
    out.extend_from_slice(b"P7\n")?;
    push_field(out, b"WIDTH ", width)?;
    push_field(out, b"HEIGHT ", height)?;
    out.extend_from_slice(b"DEPTH 3\n")?;
    push_field(out, b"MAXVAL ", maxval)?;
    out.extend_from_slice(b"TUPLTYPE RGB\nENDHDR\n")?;
    Ok(())
}
