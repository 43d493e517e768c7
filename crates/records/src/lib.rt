// The lookups over the caller's list of candidate records: `nearest`, `nearest_two` and `ordered_bracket` of src/dither.rs, with
// its names and orders of parameters. A list that is accepted is a `Records` (module list), which finds positions; here the
// records at them are answered.
#![tactic(auto)]

mod list;

ghost use Rattle.records.specs.Answers.{NearestRecord, NearestTwoRecords, RecordsBracket};

use color::{CandidateColor, NormalizedColor};
use conversion::to_oklab;
use list::Records;
use lookup::Bracket;
use replies::Refusal;

// A record that is taken: its copy, and its position in the list.
#[derive(Clone, Copy)]
pub struct Taken {
    pub copy: CandidateColor,
    pub position: usize,
}

// ---- the lookups: 4 where there is no record or more than 65,536, 6 where a component of one is not from -2 to 2

// The nearest record, the first of equals, with its position.
pub fn nearest(list: &[CandidateColor], color: NormalizedColor) -> Result<Taken, Refusal>
    ensures { NearestRecord list.now color result }
{
    let records = Records::new(list)?;
    Ok(records.taken(records.nearest(to_oklab(color))))
}

// The nearest record and the second, if there is one, each with its position.
pub fn nearest_two(
    color: NormalizedColor,
    list: &[CandidateColor],
    width: u64,
) -> Result<(Taken, Option<Taken>), Refusal>
    ensures { NearestTwoRecords list.now color width result }
{
    let records = Records::new(list)?;
    Ok(records.both(records.two(width, to_oklab(color), color)))
}

// The two colours that an ordered dither alternates between, their records' positions, and the share of the lighter.
pub fn ordered_bracket(
    color: NormalizedColor,
    list: &[CandidateColor],
    width: u64,
) -> Result<Bracket, Refusal>
    ensures { RecordsBracket list.now color width result }
{
    let records = Records::new(list)?;
    Ok(records.bracket(width, to_oklab(color), color))
}
