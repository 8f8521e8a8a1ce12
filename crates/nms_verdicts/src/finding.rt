//! The finding at the place of a doubt, what was expected, and the words for it.
use crate::names::name_of;
use crate::plan_places::{BreachPlace, CutPlace, CutSums, DoubtPlace, LegPlace, PassedOver};
use crate::verdict::Verdict;
use nms_quote::{CutKind, Order, Plan, Roster};
use nms_show::Item;

/// The place of a doubt, what was found there, what was expected, and the lines about it.
#[derive(Clone, Copy)]
pub(crate) struct Finding<'a> {
    /// The line that names the doubtful leg or cut. It is empty for a doubt about the complete plan.
    pub(crate) place: &'static str,
    /// The line that says what is doubtful at that leg or cut.
    pub(crate) words: &'static str,
    /// The number of the doubtful leg, counted from 1.
    pub(crate) leg: Item<'static>,
    /// The number of the doubtful cut, counted from 1.
    pub(crate) cut: Item<'static>,
    /// The number of shares of the doubtful leg.
    pub(crate) sent: Item<'static>,
    /// The participant to which the leg goes.
    pub(crate) participant: Item<'a>,
    /// The price of the doubtful leg or cut.
    pub(crate) price: Item<'static>,
    /// The value that was found, such as a price, a number of shares or a cost.
    pub(crate) found: Item<'static>,
    /// The value that was expected in place of the found one.
    pub(crate) expected: Item<'static>,
    /// A second leg, cut or participant that the line about the doubt names.
    pub(crate) other: Item<'a>,
}

/// What the verdict on a plan reports: the place of its doubt, the found value and the expected value.
pub(crate) fn finding_of<'a>(verdict: &Verdict, roster: &'a Roster, plan: &Plan) -> Finding<'a> {
    match verdict {
        Verdict::Confirmed => of_plan("", Item::Absent, Item::Absent),
        Verdict::Beyond { changes } => of_plan(
            "      the plan is of version |found|; there are |expected| changes",
            Item::Number(plan.version),
            Item::Number(*changes),
        ),
        Verdict::Doubted { place, .. } => of_doubt(place, roster, &plan.order),
    }
}

/// Describes a doubt about a plan or its certificate: its place, the found value and the expected value.
fn of_doubt<'a>(place: &DoubtPlace, roster: &'a Roster, order: &Order) -> Finding<'a> {
    match place {
        DoubtPlace::Breach(place) => of_breach(place, roster, order),
        DoubtPlace::NotMost { found, expected } => of_plan(
            "      it fills |found| shares; |expected| can be filled",
            Item::Number(u64::from(*found)),
            Item::Number(*expected),
        ),
        DoubtPlace::CutMissing(row) => with_other(
            of_plan(
                "      no cut is at |expected|, the price of a usable |contra| of |other|",
                Item::Absent,
                Item::of_price(row.price),
            ),
            name_of(roster, row.part),
        ),
        DoubtPlace::CutExtra(cut) => of_cut(
            cut,
            "      no usable |contra| is at that price",
            Item::of_price(cut.cut.price),
            Item::Absent,
        ),
        DoubtPlace::OutOfOrder { cut, later } => with_other(
            of_cut(
                cut,
                "      it does not stand at a better price than cut |other| after it, at |expected|",
                Item::of_price(cut.cut.price),
                Item::of_price(later.cut.price),
            ),
            number_of(later.number),
        ),
        DoubtPlace::WrongKind { cut, sums } => of_kind(cut, sums),
        DoubtPlace::MarginalRange(cut) => of_cut(
            cut,
            "      its marginal, |found|, is not within -1000000000.000000000 and 1000000000.000000000",
            marginal_of(cut.cut.kind),
            Item::Absent,
        ),
        DoubtPlace::BoundFails { cut, bound, cost } => of_cut(
            cut,
            "      the plan costs |found|; by this cut it should not exceed |expected|",
            Item::of_money(*cost),
            Item::of_money(*bound),
        ),
    }
}

/// Describes a cut whose claim contradicts the shares to be swept or taken at its price.
fn of_kind(cut: &CutPlace, sums: &CutSums) -> Finding<'static> {
    let (words, found) = match cut.cut.kind {
        CutKind::TooMuch => (
            "      it says TOOMUCH; |found| shares have to be swept first, no more than the |expected| that can be filled",
            Item::Number(sums.swept),
        ),
        CutKind::TooLittle => (
            "      it says TOOLITTLE; |found| shares have to be swept or may be taken, no less than the |expected| that can be filled",
            reached_by(sums),
        ),
        CutKind::Marginal(_) => (
            "      it says MARGINAL; |found| shares have to be swept first, more than the |expected| that can be filled",
            Item::Number(sums.swept),
        ),
    };
    of_cut(cut, words, found, Item::Number(sums.most))
}

/// The number of shares that have to be swept or may be taken at a cut's price. It is absent if it exceeds 2^64 - 1.
fn reached_by(sums: &CutSums) -> Item<'static> {
    match sums.swept.checked_add(sums.pool) {
        Some(shares) => Item::Number(shares),
        None => Item::Absent,
    }
}

/// Describes a breach of a rule by a plan: its place, the found value and the expected value.
fn of_breach<'a>(place: &BreachPlace, roster: &'a Roster, order: &Order) -> Finding<'a> {
    match place {
        BreachPlace::OtherVersion { found, expected } => of_plan(
            "      it is of version |found|, and judged on version |expected|",
            Item::Number(*found),
            Item::Number(*expected),
        ),
        BreachPlace::OtherOrder { .. } => of_plan(
            "      it is for another order than the one given",
            Item::Absent,
            Item::Absent,
        ),
        BreachPlace::OverAsked { found, expected } => of_plan(
            "      its legs have |found| shares; |expected| are asked for",
            Item::Number(*found),
            Item::Number(u64::from(*expected)),
        ),
        BreachPlace::FilledWrong { found, expected } => of_plan(
            "      it says that |found| shares are filled; its legs have |expected|",
            Item::Number(u64::from(*found)),
            Item::Number(*expected),
        ),
        BreachPlace::CostWrong { found, expected } => of_plan(
            "      it says that it costs |found|; its legs cost, with fees, |expected|",
            Item::of_money(*found),
            Item::of_money(*expected),
        ),
        BreachPlace::NoSuchQuotation(leg) => {
            of_leg(
                roster,
                leg,
                why_none(order, leg),
                leg_price(leg),
                Item::Absent,
            )
        }
        BreachPlace::PriceDiffers(leg) => of_leg(
            roster,
            leg,
            "      its |contra| stands at |expected|",
            leg_price(leg),
            quoted_price(leg),
        ),
        BreachPlace::ZeroLeg(leg) => of_leg(
            roster,
            leg,
            "      it sends no share; its |contra| displays |expected|",
            shares_in(leg),
            displayed(leg),
        ),
        BreachPlace::OverSize(leg) => of_leg(
            roster,
            leg,
            "      its |contra| displays |expected| shares",
            shares_in(leg),
            displayed(leg),
        ),
        BreachPlace::BeyondLimit { leg, limit } => of_leg(
            roster,
            leg,
            "      the limit is |expected|",
            leg_price(leg),
            Item::of_price(*limit),
        ),
        BreachPlace::Repeated { first, again } => with_other(
            of_leg(
                roster,
                again,
                "      leg |other| goes there too",
                shares_in(again),
                Item::Absent,
            ),
            number_of(first.number),
        ),
        BreachPlace::TradedThrough { worst, passed } => {
            let expected = first_price(passed.as_slice());
            of_leg(roster, worst, "", leg_price(worst), expected)
        }
    }
}

/// Why an order may not trade with the quotation to which a leg goes.
fn why_none(order: &Order, leg: &LegPlace) -> &'static str {
    match &leg.quotation {
        None => "      no |contra| of that participant stands there",
        Some(row) if order.self_help.has(row.part) => {
            "      its |contra| is passed over: the order names its participant under self-help"
        }
        Some(_) => "      its |contra| is manual, and the order does not allow manual ones",
    }
}

/// The price of the first quotation that is traded through.
fn first_price(passed: &[PassedOver]) -> Item<'static> {
    match passed.first() {
        Some(first) => Item::of_price(first.row.price),
        None => Item::Absent,
    }
}

/// A leg's price.
fn leg_price(place: &LegPlace) -> Item<'static> {
    Item::of_price(place.leg.price)
}

/// A leg's shares.
fn shares_in(place: &LegPlace) -> Item<'static> {
    Item::Number(u64::from(place.leg.shares.get()))
}

/// The price of the quotation to which a leg goes.
fn quoted_price(place: &LegPlace) -> Item<'static> {
    match &place.quotation {
        Some(row) => Item::of_price(row.price),
        None => Item::Absent,
    }
}

/// The displayed size of the quotation to which a leg goes.
fn displayed(place: &LegPlace) -> Item<'static> {
    match &place.quotation {
        Some(row) => Item::Number(u64::from(row.size)),
        None => Item::Absent,
    }
}

/// The marginal of a cut that has one.
pub(crate) fn marginal_of(kind: CutKind) -> Item<'static> {
    match kind {
        CutKind::Marginal(marginal) => Item::of_money(marginal),
        CutKind::TooMuch | CutKind::TooLittle => Item::Absent,
    }
}

/// A number of a leg or of a cut, counted from 1.
fn number_of(place: u8) -> Item<'static> {
    Item::Number(u64::from(place) + 1)
}

/// Describes a doubt about the complete plan, without a leg or a cut.
fn of_plan(words: &'static str, found: Item<'static>, expected: Item<'static>) -> Finding<'static> {
    Finding {
        place: "",
        words,
        leg: Item::Absent,
        cut: Item::Absent,
        sent: Item::Absent,
        participant: Item::Absent,
        price: Item::Absent,
        found,
        expected,
        other: Item::Absent,
    }
}

/// Describes a doubt about a leg of the plan.
fn of_leg<'a>(
    roster: &'a Roster,
    place: &LegPlace,
    words: &'static str,
    found: Item<'static>,
    expected: Item<'static>,
) -> Finding<'a> {
    Finding {
        place: "      leg |leg|, |sent| to |participant| at |price|",
        words,
        leg: number_of(place.number),
        cut: Item::Absent,
        sent: shares_in(place),
        participant: name_of(roster, place.leg.part),
        price: leg_price(place),
        found,
        expected,
        other: Item::Absent,
    }
}

/// Describes a doubt about a cut of the certificate.
fn of_cut(
    place: &CutPlace,
    words: &'static str,
    found: Item<'static>,
    expected: Item<'static>,
) -> Finding<'static> {
    Finding {
        place: "      cut |cut| at |price|:",
        words,
        leg: Item::Absent,
        cut: number_of(place.number),
        sent: Item::Absent,
        participant: Item::Absent,
        price: Item::of_price(place.cut.price),
        found,
        expected,
        other: Item::Absent,
    }
}

/// Adds a second leg, cut or participant to the description of a doubt.
fn with_other<'a>(finding: Finding<'a>, other: Item<'a>) -> Finding<'a> {
    Finding { other, ..finding }
}
