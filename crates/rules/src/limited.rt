// The fields of a row against a range for each.
ghost use Rattle.std.specs.Prelude.{◌≡◌};
ghost use Rattle.rules.specs.Ranges.{limited, ranges};

use kinds::limits::Limits;
use record::row::Row;

#[tactic(auto, unfolding(crate::specs::Ranges::limited))]
pub fn in_limits(r: Row, l: Limits) -> bool
    ensures { result ≡ limited r (ranges l) }
{
    ((l.kind.0 <= r.kind) & (r.kind <= l.kind.1))
        & ((l.form.0 <= r.form) & (r.form <= l.form.1))
        & ((l.status.0 <= r.status) & (r.status <= l.status.1))
        & ((l.flags.0 <= r.flags) & (r.flags <= l.flags.1))
        & ((l.party.0 <= r.party) & (r.party <= l.party.1))
        & ((l.id.0 <= r.id) & (r.id <= l.id.1))
        & ((l.symbol.0 <= r.symbol.0) & (r.symbol.0 <= l.symbol.1))
        & ((l.n1.0 <= r.n1) & (r.n1 <= l.n1.1))
        & ((l.n2.0 <= r.n2) & (r.n2 <= l.n2.1))
        & ((l.n3.0 <= r.n3) & (r.n3 <= l.n3.1))
        & ((l.n4.0 <= r.n4) & (r.n4 <= l.n4.1))
        & ((l.m1.0 <= r.m1) & (r.m1 <= l.m1.1))
        & ((l.m2.0 <= r.m2) & (r.m2 <= l.m2.1))
        & ((l.time.0 <= r.time) & (r.time <= l.time.1))
        & ((l.n5.0 <= r.n5) & (r.n5 <= l.n5.1))
}
