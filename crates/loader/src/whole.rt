// Loading: the answer, and what it leaves in the lent tables.
ghost use Rattle.std.specs.Prelude.{◌≡◌, replicate};
ghost use Rattle.loader.specs.Judge.{at_start, progress_of};
ghost use Rattle.loader.specs.Ready.{Ready};
ghost use Rattle.loader.specs.Load.{lent_as, tables_of, beginning, Sized, judged_as, verdict_of, is_short, judged, left_by, loaded, load_of};

use crate::declarations::declarations_of;
use crate::heading::{Loading, parameters_of};
use crate::known::mark_heading;
use crate::verdict::{Counts, LONG, Refused, SHORT};
use rules::{Fault, Judging};
use syntax::kinds::END;
use tables::scan::uncovered;
use tables::words::word;

// 6 to 16, once the text reads: the fault, or the register with a dot that is not mapped, or the counts.
fn judged_as(
    fault: Option<Fault>,
    uncovered: usize,
    parameters: &[u32],
    registers: &[u32],
    variables: &[u32],
) -> Result<Counts, Refused>
    ensures { result ≡ judged_as fault uncovered parameters.now registers.now variables.now }
{
    if let Some(fault) = fault {
        return Err(Refused::from(fault));
    }
    let count = word(registers, 0);
    if uncovered < count {
        return Err(Refused {
            number: 16,
            place: word(registers, 15 * uncovered + 1),
        });
    }
    Ok(Counts {
        parameters: word(parameters, 0) as u32,
        registers: count as u32,
        variables: word(variables, 0) as u32,
    })
}

// Nothing is read yet, and no rule is broken.
fn at_start() -> Loading
    ensures { result ≡ at_start }
{
    Loading {
        parameters: 0,
        registers: 0,
        variables: 0,
        judging: Judging {
            place: 0,
            extent: 0,
            fault: None,
        },
        step: Ok(0),
    }
}

// Reads and judges a text, into tables of their stated sizes and maps of its variables that are all zero.
pub fn judge_text(
    text: &[u8],
    parameters: &mut [u32],
    registers: &mut [u32],
    variables: &mut [u32],
    reads: &mut [u8],
    writes: &mut [u8],
) -> Loading
    requires variables_value { lent_as parameters.old registers.old variables.old ≡ tables_of beginning }
    requires reads_value { reads.old ≡ replicate 4096 0 }
    requires writes_value { writes.old ≡ replicate 4096 0 }
    ensures read { progress_of result parameters.new registers.new variables.new ≡ judged text.now }
    ensures ready { Ready (progress_of result parameters.new registers.new variables.new) reads.new writes.new }
{
    let start = at_start();
    let headed = parameters_of(text, start, parameters, registers, variables);
    let mut known = [0u8; 2048];
    mark_heading(text, headed.judging, parameters, &mut known);
    let all = declarations_of(
        text, headed, parameters, registers, variables, reads, writes, &mut known,
    );
    let step = syntax::fixed_after(text, END, all.step);
    Loading { step, ..all }
}

// The verdict on a text, where the tables are of their stated sizes and all zero.
fn verdict_on(
    text: &[u8],
    parameters: &mut [u32],
    registers: &mut [u32],
    variables: &mut [u32],
) -> Result<Counts, Refused>
    requires { lent_as parameters.old registers.old variables.old ≡ tables_of beginning }
    ensures answered { result ≡ verdict_of (judged text.now) }
    ensures left { lent_as parameters.new registers.new variables.new ≡ tables_of (judged text.now).made }
{
    let mut reads = [0u8; 4096];
    let mut writes = [0u8; 4096];
    let all = judge_text(
        text,
        parameters,
        registers,
        variables,
        &mut reads,
        &mut writes,
    );
    // 3 to 5 come first.
    all.step?;
    let first = uncovered(registers, &reads, &writes);
    judged_as(all.judging.fault, first, parameters, registers, variables)
}

// Loads a text into tables of their stated sizes, whatever they held.
fn load_into(
    text: &[u8],
    parameters: &mut [u32],
    registers: &mut [u32],
    variables: &mut [u32],
) -> Result<Counts, Refused>
    requires { Sized parameters.old registers.old variables.old }
    ensures answered { result ≡ verdict_of (judged text.now) }
    ensures left { lent_as parameters.new registers.new variables.new ≡ tables_of (left_by (judged text.now)) }
{
    parameters.fill(0);
    registers.fill(0);
    variables.fill(0);
    let verdict = verdict_on(text, parameters, registers, variables);
    if verdict.is_err() {
        parameters.fill(0);
        registers.fill(0);
        variables.fill(0);
    }
    verdict
}

// 1: a lent table is shorter than its stated size.
pub fn is_short(parameters: &[u32], registers: &[u32], variables: &[u32]) -> bool
    ensures { result ≡ is_short (lent_as parameters.now registers.now variables.now) }
{
    parameters.len() < 577 || registers.len() < 961 || variables.len() < 7553
}

// Loads a description: the answer, and the tables, are those of `load_of`.
pub fn load(
    text: &[u8],
    parameters: &mut [u32],
    registers: &mut [u32],
    variables: &mut [u32],
) -> Result<Counts, Refused>
    ensures { loaded result parameters.new registers.new variables.new ≡ load_of text.now (lent_as parameters.old registers.old variables.old) }
{
    if is_short(parameters, registers, variables) {
        return Err(SHORT);
    }
    if 8192 < text.len() {
        return Err(LONG);
    }
    load_into(
        text,
        &mut parameters[..577],
        &mut registers[..961],
        &mut variables[..7553],
    )
}
