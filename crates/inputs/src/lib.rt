// The rules of the four kinds of input, decided on the record's own bytes: what breaks one is -103.
#![tactic(auto)]

ghost use Rattle.std.specs.Prelude.{◌≡◌, length};
ghost use Rattle.laws.specs.Search.{every};
ghost use Rattle.record.specs.Grid.{decode};
ghost use Rattle.rules.specs.Rules.{feed_input, lookup_input, obeys, order_input, result_input, shape_of};
ghost use Rattle.model.specs.Rows.{rows};

use kinds::inputs::{FeedInput, LookupInput, OrderInput, ResultInput};
use kinds::limits::Rule;
use places::each::every;
use places::place::row_at;
use record::row::Row;
use rules::limited::in_limits;
use rules::obey::{Spelt, beyond, obeys};

// Each kind of input has two lines here, its rule and its promise: a trait would have an impl for each.
pub fn is_order(part: &[u8]) -> bool
    requires { length part.now ≡ 64 }
    ensures { result ≡ order_input (decode part.now) }
{
    obeys(Row::read(part), OrderInput::RULE)
}

pub fn is_result(part: &[u8]) -> bool
    requires { length part.now ≡ 64 }
    ensures { result ≡ result_input (decode part.now) }
{
    obeys(Row::read(part), ResultInput::RULE)
}

// Feeds and lookups have up to twenty entries. So their rules are asked for in their two parts, and not by `obeys`: a
// rule that is at hand as a constant takes some 125 instructions less.
#[inline(always)]
fn keeps(r: Row, rule: Rule) -> bool
    ensures { result ≡ obeys (shape_of rule) r }
{
    beyond(in_limits(r, rule.limits), r, rule.beyond, Spelt::A)
}

#[tactic(auto, unfolding(rules::specs::Rules::feed_input_shape))]
fn feed(r: Row) -> bool
    ensures { result ≡ feed_input r }
{
    keeps(r, FeedInput::RULE)
}

#[tactic(auto, unfolding(rules::specs::Rules::lookup_input_shape))]
fn lookup(r: Row) -> bool
    ensures { result ≡ lookup_input r }
{
    keeps(r, LookupInput::RULE)
}

// Every record of an input is an entry of a feed.
pub fn all_feed(input: &[u8]) -> bool
    ensures { result ≡ every feed_input (rows input.now) }
{
    every(input, |i| feed(row_at(input, i)))
}

// The same of a lookup.
pub fn all_lookup(input: &[u8]) -> bool
    ensures { result ≡ every lookup_input (rows input.now) }
{
    every(input, |i| lookup(row_at(input, i)))
}
