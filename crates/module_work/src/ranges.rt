// The intervals of names, in a table, and what they were before.
ghost use Rattle.std.specs.Prelude.{◌≡◌, ℤ, pos, map, OnOk, IfOk};
ghost use Rattle.affine_expr.specs.Bounded.{range_at, ranges};
ghost use Rattle.affine_expr.specs.Spread.{only};
ghost use Rattle.affine_ast.specs.Names.{put};
ghost use Rattle.module_work.specs.Table.{ranges_of, put_back};

use affine_ast::Name;
use affine_expr::Interval;
use affine_rules::Key;
use indexmap::IndexMap;
use name_hash::NameHashing;
use std::alloc::{AllocError, Global};

/// The intervals of names; what isn't in the table is the number 0 alone.
pub type Ranges<'a> = IndexMap<Key<'a>, Interval, NameHashing>;

/// The interval of a name before it was set.
#[derive(Clone, Copy)]
pub struct Before<'a> {
    pub name: &'a Name,
    pub interval: Interval,
}

/// The interval that holds one number alone.
pub fn only(value: i64) -> Interval
    ensures { range_at result ≡ only value }
{
    Interval {
        least: value,
        greatest: value,
    }
}

/// The key of a name.
pub fn key_of(name: &Name) -> Key<'_>
    ensures text { result.text.now ≡ name.now.text }
    ensures made { result.made ≡ name.now.made }
{
    Key {
        text: name.text.as_str(),
        made: name.made,
    }
}

/// The interval of a name.
pub fn range_of<'a>(ranges: &Ranges<'a>, name: &'a Name) -> Interval
    ensures { range_at result ≡ ranges_of ranges.now.entries name.now }
{
    match ranges.get(&key_of(name)) {
        None => only(0),
        Some(interval) => *interval,
    }
}

/// The intervals of names, in order.
pub fn ranges_of_all<'a>(
    alloc: Global,
    table: &Ranges<'a>,
    names: &'a [Name],
) -> Result<Vec<Interval>, AllocError>
    ensures { IfOk result (λ found. ranges found.items ≡ map (ranges_of table.now.entries) names.now) }
{
    let mut intervals = Vec::new(alloc);
    for name in names {
        intervals.push(range_of(table, name))?;
    }
    Ok(intervals)
}

/// Gives a name an interval.
pub fn set<'a>(
    ranges: &mut Ranges<'a>,
    name: &'a Name,
    interval: Interval,
) -> Result<(), AllocError>
    ensures { OnOk result (ranges_of ranges.new.entries ≡ put (ranges_of ranges.old.entries) name.now (range_at interval)) }
{
    ranges.insert(key_of(name), interval)?;
    Ok(())
}

/// Gives a name an interval, and keeps the one that it had.
pub fn define<'a>(
    ranges: &mut Ranges<'a>,
    before: &mut Vec<Before<'a>>,
    name: &'a Name,
    interval: Interval,
) -> Result<(), AllocError>
    ensures ranges { OnOk result (ranges_of ranges.new.entries ≡ put (ranges_of ranges.old.entries) name.now (range_at interval)) }
    ensures kept { OnOk result (put_back before.new.items (ranges_of ranges.new.entries) ≡ put_back before.old.items (ranges_of ranges.old.entries)) }
{
    before.push(Before {
        name,
        interval: range_of(ranges, name),
    })?;
    set(ranges, name, interval)
}

/// Gives the names the intervals that they had, the last one first.
pub fn restore<'a>(ranges: &mut Ranges<'a>, mut before: Vec<Before<'a>>) -> Result<(), AllocError>
    ensures { OnOk result (ranges_of ranges.new.entries ≡ put_back before.entry.items (ranges_of ranges.old.entries)) }
{
    while let Some(Before { name, interval }) = before.pop() {
        set(ranges, name, interval)?;
    }
    Ok(())
}
