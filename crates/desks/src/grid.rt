// The grid: which stage takes which desk step.
ghost use Rattle.std.specs.Prelude.{◌≡◌, ◌<◌};
ghost use Rattle.book.specs.Verdicts.{at_stage};

use words::Refusal;

const TAKES: Result<(), Refusal> = Ok(());

const STAGE: Result<(), Refusal> = Err(Refusal::Stage);

// A row for each stage, a column for each step: look, claim, fetch, finish. The customer asked for this table, constant
// and indexed by stage and step.
const GRID: [[Result<(), Refusal>; 4]; 4] = [
    [TAKES, STAGE, STAGE, STAGE], // idle
    [TAKES, TAKES, STAGE, STAGE], // looked
    [STAGE, STAGE, TAKES, STAGE], // claimed
    [STAGE, STAGE, STAGE, TAKES], // fetched
];

// What the grid says of a step, by the desk's stage and the step's column.
pub fn at_stage(stage: usize, step: usize) -> Result<(), Refusal>
    requires { (stage < 4) × (step < 4) }
    ensures { result ≡ at_stage stage step }
{
    GRID[stage][step]
}
