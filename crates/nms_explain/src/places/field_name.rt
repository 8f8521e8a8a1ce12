//! The names of the fields of records: `specs/FieldNames`.
ghost use Rattle.std.specs.Prelude.{◌≡◌};
ghost use Rattle.nms_explain.specs.FieldNames.{text_of};

/// A field of a record, by the name that the pages on the layouts give it.
#[derive(Clone, Copy)]
pub(crate) enum FieldName {
    /// The first field of each record: its kind, or the first word of a plan's record.
    Kind,
    /// A participant.
    Participant,
    /// A symbol.
    Symbol,
    /// The state of a quotation.
    State,
    /// The price of the bid.
    Bid,
    /// The shares of the bid.
    BidShares,
    /// The price of the offer.
    Offer,
    /// The shares of the offer.
    OfferShares,
    /// A round lot.
    Lot,
    /// The word `AVG` before an average closing price.
    Average,
    /// A price: of a trade, of a leg, of a cut, or an average.
    Price,
    /// A desk.
    Desk,
    /// The side of an order.
    Side,
    /// The shares of an order, or of a leg.
    Shares,
    /// The limit of an order.
    Limit,
    /// The flag that allows manual quotations.
    Flag,
    /// The participants named under self-help (17 CFR 242.611(b)(1)).
    Names,
    /// The version that a plan was made on.
    Version,
    /// The shares that a plan fills.
    Filled,
    /// What a plan costs.
    Cost,
    /// What a cut claims about its price: `TOOMUCH`, `TOOLITTLE` or `MARGINAL`.
    Says,
    /// The money that a cut gives after `MARGINAL`.
    Value,
    /// The name of an execution.
    Id,
    /// The version or the time of an execution.
    When,
    /// The flags of an execution, which claim exceptions.
    Flags,
}

impl FieldName {
    /// The name of the field as the documentation writes it, for example `bidshares`.
    pub(crate) fn text(self) -> &'static str
        ensures { result.now ≡ text_of self }
    {
        match self {
            FieldName::Kind => "kind",
            FieldName::Participant => "part",
            FieldName::Symbol => "sym",
            FieldName::State => "state",
            FieldName::Bid => "bid",
            FieldName::BidShares => "bidshares",
            FieldName::Offer => "offer",
            FieldName::OfferShares => "offershares",
            FieldName::Lot => "lot",
            FieldName::Average => "AVG",
            FieldName::Price => "price",
            FieldName::Desk => "desk",
            FieldName::Side => "side",
            FieldName::Shares => "shares",
            FieldName::Limit => "limit",
            FieldName::Flag => "flag",
            FieldName::Names => "names",
            FieldName::Version => "version",
            FieldName::Filled => "filled",
            FieldName::Cost => "cost",
            FieldName::Says => "kind of cut",
            FieldName::Value => "value",
            FieldName::Id => "id",
            FieldName::When => "when",
            FieldName::Flags => "flags",
        }
    }
}
