//! The exceptions that an execution claims.
use nms_quote::PartSet;

/// The exceptions that an execution claims by its flags. No claim is checked.
#[derive(Clone, Copy)]
pub struct Claims {
    /// `H=N/P`: the participants against which self-help was declared (242.611(b)(1)).
    pub self_help: PartSet,
    /// `C`: the contract was not regular way ((b)(2)).
    pub not_regular: bool,
    /// `O`: a single-priced opening, reopening or closing ((b)(3)).
    pub single_priced: bool,
    /// `I`: an intermarket sweep order ((b)(5)).
    pub sweep: bool,
    /// `J`: the trading center sent intermarket sweep orders at the same time ((b)(6)).
    pub swept: bool,
    /// `K`: a benchmark price ((b)(7)).
    pub benchmark: bool,
    /// `P`: a stopped order ((b)(9)).
    pub stopped: bool,
    /// `Q`: a qualified contingent trade.
    pub contingent: bool,
    /// `E`: marked exempt, without a reason.
    pub exempt: bool,
    /// `T`: outside regular trading hours.
    pub outside_hours: bool,
    /// `Z`: out of sequence, so that its version says little.
    pub out_of_sequence: bool,
}

impl Claims {
    /// No claim.
    pub(crate) fn none() -> Claims {
        Claims {
            self_help: PartSet::none(),
            not_regular: false,
            single_priced: false,
            sweep: false,
            swept: false,
            benchmark: false,
            stopped: false,
            contingent: false,
            exempt: false,
            outside_hours: false,
            out_of_sequence: false,
        }
    }
}
