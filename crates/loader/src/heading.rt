// The first half of a text, `device name ( param (, param)* )`: each parameter is judged as soon as it is read.
ghost use Rattle.std.specs.Prelude.{ℕ, ◌≡◌, List, length};
ghost use Rattle.syntax.specs.Text.{head_with, parameter_with, more_parameters, parameters_with};
ghost use Rattle.loader.specs.Judge.{judge, progress_of};

use rules::Judging;
use rules::parameter::judge_parameter;
use syntax::Step;
use syntax::kinds::{CLOSE, COMMA, NAME};

// How far loading has come: how much the text declares so far, what was made of it but for the tables, and the step
// past it.
#[derive(Clone, Copy)]
pub struct Loading {
    pub parameters: usize,
    pub registers: usize,
    pub variables: usize,
    pub judging: Judging,
    pub step: Step,
}

// device name (, whatever the tables hold
fn head_next(text: &[u8], loading: Loading) -> Loading
    ensures { (ps rs vs : List ℕ) → progress_of result ps rs vs ≡ head_with (judge text.now) text.now (progress_of loading ps rs vs) }
{
    let head = syntax::head_after(text, loading.step);
    let step = head.step;
    if step.is_err() {
        return Loading { step, ..loading };
    }
    let judging = Judging {
        place: head.place,
        extent: head.length,
        ..loading.judging
    };
    Loading {
        judging,
        step,
        ..loading
    }
}

fn parameter_next(
    text: &[u8],
    loading: Loading,
    parameters: &mut [u32],
    registers: &[u32],
    variables: &[u32],
) -> Loading
    ensures { progress_of result parameters.new registers.now variables.now ≡ parameter_with (judge text.now) text.now (progress_of loading parameters.old registers.now variables.now) }
{
    if 16 <= loading.parameters {
        let step = syntax::extra_after(text, NAME, loading.step);
        return Loading { step, ..loading };
    }
    let mut ranges = [0u32; 32];
    let one = syntax::parameter_after(text, loading.step, &mut ranges);
    let step = one.step;
    if step.is_err() {
        return Loading { step, ..loading };
    }
    let so_far = loading.judging;
    let judging = judge_parameter(text, so_far, parameters, registers, variables, one, &ranges);
    Loading {
        parameters: loading.parameters + 1,
        judging,
        step,
        ..loading
    }
}

// (, param)*
fn more_parameters(
    text: &[u8],
    loading: Loading,
    parameters: &mut [u32],
    registers: &[u32],
    variables: &[u32],
) -> Loading
    ensures { progress_of result parameters.new registers.now variables.now ≡ more_parameters (judge text.now) text.now (length text.now) (progress_of loading parameters.old registers.now variables.now) }
{
    let mut all = loading;
    for _ in 0..text.len() {
        let seen = syntax::look(text, all.step);
        if seen.kind != COMMA {
            break;
        }
        let behind = Loading {
            step: seen.past,
            ..all
        };
        all = parameter_next(text, behind, parameters, registers, variables);
    }
    all
}

pub fn parameters_of(
    text: &[u8],
    loading: Loading,
    parameters: &mut [u32],
    registers: &[u32],
    variables: &[u32],
) -> Loading
    ensures { progress_of result parameters.new registers.now variables.now ≡ parameters_with (judge text.now) text.now (progress_of loading parameters.old registers.now variables.now) }
{
    let head = head_next(text, loading);
    let one = parameter_next(text, head, parameters, registers, variables);
    let all = more_parameters(text, one, parameters, registers, variables);
    let step = syntax::fixed_after(text, CLOSE, all.step);
    Loading { step, ..all }
}
