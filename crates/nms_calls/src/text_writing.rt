//! A text for a caller's buffer, with a closing zero: `specs/Written`.
ghost use Rattle.std.specs.Prelude.{◌≡◌, OnErr, OnOk};
ghost use Rattle.std.specs.Result.{result_err};
ghost use Rattle.nms_calls.specs.Written.{IsWritten, text_fault};

use crate::call_fault::CallFault;

/// Writes a text and a closing zero to the front of a buffer, and the text's length. `NoRoom` if they do not fit.
pub(crate) fn put_text(text: &[u8], out: &mut [u8], bytes: &mut usize) -> Result<(), CallFault>
    ensures answer { result_err result ≡ text_fault text.now out.old }
    ensures written { OnOk result (IsWritten text.now out.old out.new bytes.new) }
    ensures unwritten { OnErr result ((out.new ≡ out.old) × (bytes.new ≡ bytes.old)) }
{
    let end = text.len();
    if end >= out.len() {
        return Err(CallFault::NoRoom);
    }
    out[..end].copy_from_slice(text);
    out[end] = 0;
    *bytes = end;
    Ok(())
}
