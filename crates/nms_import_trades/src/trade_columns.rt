//! The columns of a file of trades: `specs/TradeRow`.
ghost use Rattle.std.specs.Prelude.{◌≡◌};
ghost use Rattle.csv.specs.Records.{fields_of};
ghost use Rattle.nms_import_trades.specs.TradeRow.{has_name};

use csv::ByteRecord;
use nms_import::Column;
use nms_trades::is_name;
use std::alloc::Global;

/// The columns that a mapping reads, in one file.
pub struct TradeColumns {
    /// How many columns a row needs: one more than the greatest place, counted from 0, of a column that is read.
    pub width: usize,
    /// The name of the execution; `None` if the number of the row is its name.
    pub id: Option<Column>,
    /// The time of day.
    pub time: Column,
    /// The exchange on which the trade was executed.
    pub participant: Column,
    /// The symbol that was traded.
    pub symbol: Column,
    /// The price.
    pub price: Column,
    /// The shares.
    pub shares: Column,
    /// Whether the trade was a purchase or a sale.
    pub side: Column,
    /// The letters of the condition.
    pub condition: Column,
    /// The mark of an exempt trade.
    pub exempt: Column,
    /// The text that says whether a row is skipped. The mapping lists the words to skip, and may list the words to keep.
    pub skip: Column,
}

/// The columns have their own `Drop`. A function that holds them has one call at each exit, and not one for each column
/// (docs/GATE.md).
impl Drop for TradeColumns {
    fn drop(self) {
        let TradeColumns {
            width: _,
            id: _,
            time: _,
            participant: _,
            symbol: _,
            price: _,
            shares: _,
            side: _,
            condition: _,
            exempt: _,
            skip: _,
        } = self;
    }
}

impl TradeColumns {
    /// Columns that read nothing: each gives the empty text in every row, and none is for the execution's name.
    pub(crate) fn none(alloc: Global) -> TradeColumns
        ensures { result.width ≡ 0 }
    {
        TradeColumns {
            width: 0,
            id: None,
            time: Column::Fixed(Vec::new(alloc)),
            participant: Column::Fixed(Vec::new(alloc)),
            symbol: Column::Fixed(Vec::new(alloc)),
            price: Column::Fixed(Vec::new(alloc)),
            shares: Column::Fixed(Vec::new(alloc)),
            side: Column::Fixed(Vec::new(alloc)),
            condition: Column::Fixed(Vec::new(alloc)),
            exempt: Column::Fixed(Vec::new(alloc)),
            skip: Column::Fixed(Vec::new(alloc)),
        }
    }
}

/// Whether a row has a name that an execution may have. Without a column for names, the number of the row is its name.
pub(crate) fn has_name(id: &Option<Column>, row: &ByteRecord) -> bool
    ensures { result ≡ has_name id.now (fields_of row.now) }
{
    match id {
        None => true,
        Some(column) => is_name(column.text(row)),
    }
}
