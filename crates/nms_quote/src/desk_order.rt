//! An order and the desk that plans it.
use crate::order::Order;

/// An order and the desk that plans it.
#[derive(Clone, Copy)]
pub struct DeskOrder {
    /// The desk, which is below the setup's number of desks.
    pub desk: u8,
    /// The order.
    pub order: Order,
}
