//! The cost of a share with the access fees of all participants: `specs/Fees`.
ghost use Rattle.std.specs.Prelude.{◌≡◌, pos, negsuc, ◌≤ℤ◌};
ghost use Rattle.nms_fee_book.specs.Fees.{fee_at, schedule_at, price_on, unit_cost_of, IsCapped, AreCapped};

use crate::caps::Caps;
use crate::fee_schedule::FeeSchedule;
use nms_quote::{OrderSide, Part};
use nms_units::{Money, Price};
use std::marker::Model;

/// One dollar, in 1/10,000 dollar.
const ONE_DOLLAR: u64 = 10_000;
/// How many nanodollars 1/10,000 dollar has.
const NANODOLLARS: u64 = 100_000;

/// The access fees of all participants, by place. None of them is over the caps that the book keeps.
#[derive(Drop)]
pub struct FeeBook {
    caps: Caps,
    schedules: Vec<FeeSchedule>,
}

impl Model for FeeBook {
    ghost use Rattle.nms_fee_book.specs.Fees.{Charges, AreCapped};

    ghost Value = { Charges };

    ghost view = { λ b. record { caps = b.caps; schedules = b.schedules.items } };

    ghost invariant = { λ b. AreCapped b.caps b.schedules.items };
}

impl FeeBook {
    /// What a share costs at a participant's quotation, with its fee, in nanodollars. A sale has a negative cost. A charge raises
    /// a buyer's cost, and lowers what a seller receives.
    ///
    /// A place without a participant has no fee.
    pub fn unit_cost(&self, part: Part, side: OrderSide, price: Price) -> Money
        ensures cost { result ≡ unit_cost_of self.now part side price }
        ensures low { negsuc 10000000009999999 ≤ℤ result }
        ensures high { result ≤ℤ pos 10000000010000000 }
    {
        let fee = self.fee(part, price).get();
        Money::new(price_for(side, price).get() + fee)
    }

    /// A book of the access fees of all participants, by place. No fee may exceed the caps. It takes no memory.
    pub fn new(caps: Caps, schedules: Vec<FeeSchedule>) -> Self
        requires { AreCapped caps schedules.items }
        ensures { result ≡ record { caps = caps; schedules = schedules.items } }
    {
        FeeBook { caps, schedules }
    }

    /// The caps that no fee of the book exceeds.
    pub fn caps(&self) -> Caps
        ensures { result ≡ self.now.caps }
    {
        self.caps
    }

    /// The fee for a share at a participant's quotation, in nanodollars.
    fn fee(&self, part: Part, price: Price) -> Money
        ensures fee { result ≡ fee_at (schedule_at self.now part) price }
        ensures low { negsuc 9999999 ≤ℤ result }
        ensures high { result ≤ℤ pos 10000000 }
    {
        let schedule = self.schedule(part);
        if price.get() >= ONE_DOLLAR {
            Money::new(i128::from(schedule.fee))
        } else {
            Money::new(i128::from(schedule.rate)).times(price.get())
        }
    }

    /// The access fees of a participant. They are 0 for a place without a participant.
    fn schedule(&self, part: Part) -> FeeSchedule
        ensures value { result ≡ schedule_at self.now part }
        ensures capped { IsCapped self.now.caps result }
    {
        match self.schedules.get(usize::from(part.get())) {
            Some(schedule) => *schedule,
            None => FeeSchedule { fee: 0, rate: 0 },
        }
    }
}

/// What a share costs before fees, in nanodollars: the price for a buyer, less than 0 for a seller.
fn price_for(side: OrderSide, price: Price) -> Money
    ensures price { result ≡ price_on side price }
    ensures low { negsuc 9999999999999999 ≤ℤ result }
    ensures high { result ≤ℤ pos 10000000000000000 }
{
    let nanodollars = i128::from(price.get() * NANODOLLARS);
    match side {
        OrderSide::Buy => Money::new(nanodollars),
        OrderSide::Sell => Money::new(-nanodollars),
    }
}
