//! A plain slow planner, written from the rules. For each price at which an order could trade, it takes the protected
//! quotations at better prices in full. The rest comes from the pool by the cost of a share, then the better price, then the
//! lower place. Of these prices it takes the one of least cost, and if several have it, the best. Quotations of participants
//! that the order names under self-help are as if they were not there. It keeps no sums and sorts nothing: for each row it
//! counts again what comes before.
use arrayvec::ArrayVec;
use nms_board::View;
use nms_fees::FeeBook;
use nms_quote::{Certificate, Cut, CutKind, Leg, Order, OrderSide, Part, Plan, Side};
use nms_units::{Money, Price, Shares};

/// A quotation that the order may trade with, and what a share costs there with its fee, in nanodollars.
#[derive(Clone, Copy)]
struct Offered {
    part: Part,
    price: Price,
    size: u64,
    protected: bool,
    cost: i128,
}

/// An empty quotation, which fills the unused places of a list.
impl Default for Offered {
    fn default() -> Self {
        Offered {
            part: Part::new(0).unwrap(),
            price: Price::new(1).unwrap(),
            size: 0,
            protected: false,
            cost: 0,
        }
    }
}

/// The quotations that are offered for an order, and how many shares of it can be filled.
#[derive(Drop)]
struct Market {
    side: OrderSide,
    rows: ArrayVec<Offered, 32>,
    most: u64,
}

impl Market {
    /// Whether one price is better for the order than another.
    fn is_better(&self, price: Price, other: Price) -> bool {
        match self.side {
            OrderSide::Buy => price < other,
            OrderSide::Sell => other < price,
        }
    }

    /// Whether a row has to be swept before the order may trade at a price (17 CFR 242.600, "intermarket sweep order").
    fn is_swept(&self, row: &Offered, price: Price) -> bool {
        row.protected && self.is_better(row.price, price)
    }

    /// Whether a row is in the pool at a price: the order may trade with it there, and does not have to sweep it.
    fn is_in_pool(&self, row: &Offered, price: Price) -> bool {
        !self.is_better(price, row.price) && !self.is_swept(row, price)
    }

    /// Whether a row is taken before another one of the pool.
    fn is_taken_before(&self, row: &Offered, other: &Offered) -> bool {
        if row.cost != other.cost {
            row.cost < other.cost
        } else if row.price != other.price {
            self.is_better(row.price, other.price)
        } else {
            row.part < other.part
        }
    }

    /// How many shares the order has to sweep before it may trade at a price.
    fn swept(&self, price: Price) -> u64 {
        let mut shares = 0u64;
        for row in self.rows.as_slice() {
            if self.is_swept(row, price) {
                shares = shares.wrapping_add(row.size);
            }
        }
        shares
    }

    /// How many shares the pool has at a price, which the order may trade with but does not have to sweep.
    fn pool(&self, price: Price) -> u64 {
        let mut shares = 0u64;
        for row in self.rows.as_slice() {
            if self.is_in_pool(row, price) {
                shares = shares.wrapping_add(row.size);
            }
        }
        shares
    }

    /// How many shares of the pool are taken before those of a row.
    fn taken_before(&self, row: &Offered, price: Price) -> u64 {
        let mut shares = 0u64;
        for other in self.rows.as_slice() {
            if self.is_in_pool(other, price) && self.is_taken_before(other, row) {
                shares = shares.wrapping_add(other.size);
            }
        }
        shares
    }

    /// How many shares a row receives if a given price is the worst one of the plan.
    fn given(&self, row: &Offered, price: Price) -> u64 {
        if self.is_swept(row, price) {
            row.size
        } else if self.is_in_pool(row, price) {
            let rest = self.most.saturating_sub(self.swept(price));
            rest.saturating_sub(self.taken_before(row, price))
                .min(row.size)
        } else {
            0
        }
    }

    /// The cost of all shares if a given price is the worst one of the plan, in nanodollars.
    fn cost(&self, price: Price) -> i128 {
        let mut cost = 0i128;
        for row in self.rows.as_slice() {
            let shares = i128::from(self.given(row, price));
            cost = cost.wrapping_add(row.cost.wrapping_mul(shares));
        }
        cost
    }

    /// The cost of the last share that is taken from the pool, in nanodollars. If none is taken, the cost of the pool's cheapest
    /// share.
    fn last_cost(&self, price: Price) -> i128 {
        let number = self.most.saturating_sub(self.swept(price)).max(1);
        for row in self.rows.as_slice() {
            let before = self.taken_before(row, price);
            if self.is_in_pool(row, price)
                && before < number
                && number <= before.wrapping_add(row.size)
            {
                return row.cost;
            }
        }
        0
    }

    /// The kind of the certificate's statement about a price.
    fn kind(&self, price: Price) -> CutKind {
        let swept = self.swept(price);
        if self.most < swept {
            CutKind::TooMuch
        } else if swept.wrapping_add(self.pool(price)) < self.most {
            CutKind::TooLittle
        } else {
            CutKind::Marginal(Money::new(self.last_cost(price)))
        }
    }

    /// The best price that is worse than a given one; the best of all if none is given. `None` if there is no such price.
    fn price_behind(&self, last: Option<Price>) -> Option<Price> {
        let mut found: Option<Price> = None;
        for row in self.rows.as_slice() {
            let behind = match last {
                Some(last) => self.is_better(last, row.price),
                None => true,
            };
            let better = match found {
                Some(found) => self.is_better(row.price, found),
                None => true,
            };
            if behind && better {
                found = Some(row.price);
            }
        }
        found
    }

    /// The certificate: a statement about each price at which the order could trade, the best price first.
    fn cuts(&self) -> Certificate {
        let mut cuts = ArrayVec::new_in(());
        let mut last = None;
        for _ in 0..32u8 {
            last = self.price_behind(last);
            let Some(price) = last else {
                return cuts;
            };
            let kind = self.kind(price);
            let _ = cuts.try_push(Cut { price, kind });
        }
        cuts
    }

    /// The worst price of the plan with the least cost. If several plans cost the same, it is the best of their worst prices.
    fn chosen(&self, cuts: &Certificate) -> Option<Price> {
        let mut best: Option<Price> = None;
        for cut in cuts.as_slice() {
            let cheaper = match best {
                Some(best) => self.cost(cut.price) < self.cost(best),
                None => true,
            };
            if let CutKind::Marginal(_) = cut.kind
                && cheaper
            {
                best = Some(cut.price);
            }
        }
        best
    }

    /// The legs of the plan whose worst price is the chosen one, in order of price, the best first, then of place.
    fn legs(&self, cuts: &Certificate, chosen: Price) -> Option<ArrayVec<Leg, 32>> {
        let mut legs = ArrayVec::new_in(());
        for cut in cuts.as_slice() {
            for row in self.rows.as_slice() {
                let shares = self.given(row, chosen);
                if row.price == cut.price && shares > 0 {
                    let shares = Shares::new(u32::try_from(shares).ok()?)?;
                    let _ = legs.try_push(Leg {
                        part: row.part,
                        price: row.price,
                        shares,
                    });
                }
            }
        }
        Some(legs)
    }
}

/// The quotations that are offered for an order on a view, by place.
fn market_for(view: &View, order: &Order, fees: &FeeBook) -> Market {
    let side = match order.side {
        OrderSide::Buy => Side::Offer,
        OrderSide::Sell => Side::Bid,
    };
    let mut market = Market {
        side: order.side,
        rows: ArrayVec::new_in(()),
        most: 0,
    };
    for row in view.rows(side) {
        if !order.self_help.has(row.part)
            && (row.protected || order.manual)
            && !market.is_better(order.limit, row.price)
        {
            let size = u64::from(row.size);
            market.most = market.most.wrapping_add(size);
            let _ = market.rows.try_push(Offered {
                part: row.part,
                price: row.price,
                size,
                protected: row.protected,
                cost: fees.unit_cost(row.part, order.side, row.price).get(),
            });
        }
    }
    market.most = market.most.min(u64::from(order.shares.get()));
    market
}

/// The plan for an order and its certificate; `None` if a leg has more shares than an order may ask for.
pub(crate) fn plain_plan(
    view: &View,
    order: &Order,
    fees: &FeeBook,
) -> Option<(Plan, Certificate)> {
    let market = market_for(view, order, fees);
    let cuts = market.cuts();
    let (legs, cost) = match market.chosen(&cuts) {
        Some(price) => (market.legs(&cuts, price)?, market.cost(price)),
        None => (ArrayVec::new_in(()), 0),
    };
    let plan = Plan {
        version: view.version(),
        order: *order,
        legs,
        filled: u32::try_from(market.most).ok()?,
        cost: Money::new(cost),
    };
    Some((plan, cuts))
}
