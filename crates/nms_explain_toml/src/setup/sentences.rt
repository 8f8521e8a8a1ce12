//! The sentence for each fault of a setup.
ghost use Rattle.std.specs.Prelude.{◌≡◌, true};
ghost use Rattle.nms_show.specs.Plain.{is_plain};

use nms_fees::SetupFault;

/// A fault, in words.
pub(crate) fn sentence_of(fault: SetupFault) -> &'static str
    ensures { is_plain result.now ≡ true }
{
    match fault {
        SetupFault::NotToml => "the text is no TOML document",
        SetupFault::Missing => "a required key is absent",
        SetupFault::UnknownKey => "no such key may stand here",
        SetupFault::BadName => "a name that is not of its form",
        SetupFault::WrongType => "a value of another kind",
        SetupFault::OutOfRange => "a value out of its range",
        SetupFault::OverCap => "a charge over its cap",
        SetupFault::TooMany => "too many tables",
        SetupFault::NoMemory => "out of memory",
    }
}
