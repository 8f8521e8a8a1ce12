//! A plan and its certificate as numbers, as they pass between the library and another language.

/// An order that goes to one participant.
#[repr(C)]
#[derive(Clone, Copy)]
pub struct NmsLeg {
    /// The price, in 1/10,000 dollar.
    pub price: u64,
    /// How many shares are sent to the participant.
    pub shares: u32,
    /// The participant's place on the roster, counted from 0.
    pub part: u8,
    /// Always 0.
    pub spare_a: u8,
    /// Always 0.
    pub spare_b: u16,
}

/// What a certificate says about one price.
#[repr(C)]
#[derive(Clone, Copy)]
pub struct NmsCut {
    /// The price, in 1/10,000 dollar.
    pub price: u64,
    /// What one more share costs at this price, in nanodollars. It is 0 unless the kind is 2.
    pub marginal: i64,
    /// The kind of the statement: 0 too many shares must be swept first, 1 too few shares can be had, 2 a marginal cost.
    pub kind: u32,
    /// Always 0.
    pub spare: u32,
}

/// A plan with its certificate.
#[repr(C)]
#[derive(Clone, Copy)]
pub struct NmsPlan {
    /// The version of the board on which the plan was made: how many changes had been applied by then.
    pub version: u64,
    /// The lower half of the plan's cost. The cost is `cost_high` * 2^64 + `cost_low` nanodollars, fees included.
    pub cost_low: u64,
    /// The upper half of the plan's cost. It is negative if more is received than paid.
    pub cost_high: i64,
    /// How many shares all legs have together.
    pub filled: u32,
    /// How many legs there are, at most 32.
    pub legs: u32,
    /// How many cuts there are, at most 32.
    pub cuts: u32,
    /// Always 0.
    pub spare: u32,
    /// The legs. The places after the last are 0.
    pub leg: [NmsLeg; 32],
    /// The cuts. The places after the last are 0.
    pub cut: [NmsCut; 32],
}

impl NmsLeg {
    /// The numbers of a place without a leg.
    pub(crate) const NONE: NmsLeg = NmsLeg {
        price: 0,
        shares: 0,
        part: 0,
        spare_a: 0,
        spare_b: 0,
    };
}

impl NmsCut {
    /// The numbers of a place without a cut.
    pub(crate) const NONE: NmsCut = NmsCut {
        price: 0,
        marginal: 0,
        kind: 0,
        spare: 0,
    };
}
