//! The orders of each desk (specs/Answering).
ghost use Rattle.std.specs.Prelude.{◌≡◌, ◌≢◌, ℕ, ◌<◌, ◌++◌, ◌∷◌, [], All, length, slice_index_or, true, IfSome};
ghost use Rattle.nms_live.specs.Answering.{AreOwn};
ghost use Rattle.nms_live.specs.declared.own_orders.OwnOrders.{OwnOrders};

use nms_quote::DeskOrder;
use std::alloc::Global;

/// The orders of a desk, each with its number among those of all desks.
#[derive(Drop)]
pub struct OwnOrders {
    pub(crate) orders: Vec<(usize, DeskOrder)>,
}

/// Parts the orders by desk. The orders of each desk stay in order of their numbers. `None` if out of memory.
pub(crate) fn part_by_desk(alloc: Global, desks: u8, orders: &[DeskOrder]) -> Option<Vec<OwnOrders>>
    requires desks { All (λ order. order.desk < desks) orders.now }
    ensures all { IfSome result (λ rows. length rows.items ≡ desks) }
    ensures own { IfSome result (λ rows. AreOwn orders.now rows.items) }
{
    let mut rows = no_orders(alloc, desks)?;
    for (place, wanted) in orders.iter().enumerate() {
        if !put_behind(&mut rows, place, wanted) {
            return None;
        }
    }
    Some(rows)
}

/// An empty list of orders for each desk. `None` if out of memory.
fn no_orders(alloc: Global, desks: u8) -> Option<Vec<OwnOrders>>
    ensures all { IfSome result (λ rows. length rows.items ≡ desks) }
    ensures own { IfSome result (λ rows. AreOwn [] rows.items) }
{
    let mut rows = Vec::new(alloc);
    for _ in 0..desks {
        let row = OwnOrders {
            orders: Vec::new(alloc),
        };
        match rows.push(row) {
            Ok(()) => {}
            Err(_) => return None,
        }
    }
    Some(rows)
}

/// Adds an order with its number after the earlier orders of its desk, and reports whether there was memory for it.
fn put_behind(rows: &mut Vec<OwnOrders>, number: usize, wanted: &DeskOrder) -> bool
    requires place { wanted.now.desk < length rows.old.items }
    ensures len { length rows.new.items ≡ length rows.old.items }
    ensures others { (k : ℕ) (d : OwnOrders) → k < length rows.old.items → k ≢ wanted.now.desk → slice_index_or rows.new.items k d ≡ slice_index_or rows.old.items k d }
    ensures own { result ≡ true → (d : OwnOrders)
        → (slice_index_or rows.new.items wanted.now.desk d).orders.items ≡ (slice_index_or rows.old.items wanted.now.desk d).orders.items ++ (number, wanted.now) ∷ [] }
{
    let row = &mut rows[usize::from(wanted.desk)];
    match row.orders.push((number, *wanted)) {
        Ok(()) => true,
        Err(_) => false,
    }
}
