//! An execution.
use crate::claims::Claims;
use arrayvec::ArrayVec;
use nms_quote::{Part, Sym};
use nms_times::TimeOfDay;
use nms_units::Shares;

/// The most bytes of an execution's name.
pub(crate) const MOST_NAME: usize = 32;

/// Whether an execution bought or sold. That is not judged, because a trade is both.
#[derive(Clone, Copy)]
pub enum Deal {
    /// The execution bought, which a record writes as `B`.
    Bought,
    /// The execution sold, which a record writes as `S`.
    Sold,
}

/// An execution, as a record gives it.
#[derive(Drop)]
pub struct Execution {
    /// The number of its record, counted from 1.
    pub number: u64,
    /// The name that the record gives it.
    pub name: ArrayVec<u8, MOST_NAME>,
    /// The symbol that was traded.
    pub sym: Sym,
    /// The price in 1/1,000,000 dollar, at least 1.
    pub millionths: u64,
    /// The shares, at least 1.
    pub shares: Shares,
    /// Whether it bought or sold, if the record says so.
    pub deal: Option<Deal>,
    /// The version of the changes that was in force.
    pub version: u64,
    /// The first version of its window; `version` if it has no window.
    pub first: u64,
    /// The last version of its window; `version` if it has no window.
    pub last: u64,
    /// The version that was in force one second before; `version` if the time is not known.
    pub second_before: u64,
    /// The time of day, if the record has one.
    pub time: Option<TimeOfDay>,
    /// Whether another shard has the changes of the execution's symbol at its time, and so judges the execution.
    pub other: bool,
    /// The exchange on which it was executed; `None` off an exchange.
    pub part: Option<Part>,
    /// The exceptions that it claims.
    pub claims: Claims,
}
