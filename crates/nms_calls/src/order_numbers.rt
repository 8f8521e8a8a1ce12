//! An order as numbers, as a caller in another language gives it to the library.

/// An order to buy or to sell, for which a plan can be made.
#[repr(C)]
#[derive(Clone, Copy)]
pub struct NmsOrder {
    /// The worst price that is accepted, in 1/10,000 dollar.
    pub limit: u64,
    /// How many shares are to be traded, 1 to 999,999,999.
    pub shares: u32,
    /// The participants against whom self-help is declared (17 CFR 242.611(b)(1)). Each has one bit, by its place.
    pub self_help: u32,
    /// The symbol's place on the roster, counted from 0.
    pub sym: u16,
    /// The side of the order: 0 buys, 1 sells.
    pub side: u8,
    /// 1 if manual quotations may be traded with, else 0.
    pub manual: u8,
    /// The library ignores this number. It only fills the structure to its size.
    pub spare: u32,
}
