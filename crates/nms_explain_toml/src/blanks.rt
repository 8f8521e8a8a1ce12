//! A text without the white space around it (`specs/Blanks`).
ghost use Rattle.std.specs.Prelude.{◌≡◌, ◌≤◌, length};
ghost use Rattle.nms_explain_toml.specs.Blanks.{trim, trim_end, trim_start};

/// A text without the white space at its start.
pub(crate) fn trim_start(text: &[u8]) -> &[u8]
    ensures value { result.now ≡ trim_start text.now }
    ensures within { length result.now ≤ length text.now }
{
    text.trim_ascii_start()
}

/// A text without the white space at its end.
pub(crate) fn trim_end(text: &[u8]) -> &[u8]
    ensures value { result.now ≡ trim_end text.now }
    ensures within { length result.now ≤ length text.now }
{
    text.trim_ascii_end()
}

/// A text without the white space around it.
pub(crate) fn trim(text: &[u8]) -> &[u8]
    ensures { result.now ≡ trim text.now }
{
    trim_end(trim_start(text))
}
