// What is known of a whole book beside the places of its rows.
ghost use Rattle.std.specs.Prelude.{◌≡◌, max};
ghost use Rattle.model.specs.Order.{trade_id};

use record::codes::Kind;
use record::row::Row;
use units::TradeNo;

// The number of free places, and the largest trade number, 0 where there is no trade.
#[derive(Clone, Copy)]
pub struct Totals {
    pub free: usize,
    pub largest: TradeNo,
}

// The larger of a number and a trade's.
pub fn raised(top: TradeNo, row: Row) -> TradeNo
    ensures { result.0 ≡ max top.0 (trade_id row) }
{
    if (row.kind == Kind::TRADE) & (top.0 < row.id) {
        return TradeNo(row.id);
    }
    top
}
