//! The answer to an order.
use crate::certificate::Certificate;
use crate::plan::Plan;

/// The plan that a desk made for an order, and why no lawful plan is better.
#[derive(Drop)]
pub struct Answer {
    /// The desk that planned the order.
    pub desk: u8,
    /// The order's place among all orders, counted from 0.
    pub number: usize,
    /// The plan, with the version on which it was made.
    pub plan: Plan,
    /// The certificate that no lawful plan fills more shares, or as many for less, fees included.
    pub certificate: Certificate,
}
