// The second half of a text, `{ (declaration ;)+ }`: each register and each variable is judged as soon as it is read.
ghost use Rattle.std.specs.Prelude.{◌≡◌, length, ◌+◌, ◌<◌, ◌^◌};
ghost use Rattle.syntax.specs.Reader.{seen_at, fixed_after};
ghost use Rattle.syntax.specs.Text.{register_with, variable_with, declaration_with, more_declarations, declarations_with};
ghost use Rattle.tables.specs.Tables.{count_of};
ghost use Rattle.rules.specs.State.{state_of, unless_stopped};
ghost use Rattle.rules.specs.Register.{judge_register};
ghost use Rattle.rules.specs.Variable.{read_of, judge_variable, MappedUnless};
ghost use Rattle.loader.specs.Judge.{judge, progress_of, moved_by};
ghost use Rattle.loader.specs.Known.{Known};
ghost use Rattle.loader.specs.Ready.{Noted, Judgeable};

use crate::heading::Loading;
use crate::known::{declared_at, mark_entry};
use rules::Judging;
use rules::register::judge_register;
use rules::variable::judge_variable;
use syntax::kinds::{CLOSE_BRACE, OPEN_BRACE, REGISTER, SEMICOLON, VARIABLE};
use syntax::{Register, Seen, Step, Variable};
use tables::marks::unmarked;
use tables::words::word;

// A name without a mark is not searched for. The entry's name gets its mark.
fn register_judged(
    text: &[u8],
    judging: Judging,
    parameters: &[u32],
    registers: &mut [u32],
    variables: &[u32],
    register: Register,
    known: &mut [u8],
) -> Judging
    requires { Known text.now (state_of judging parameters.now registers.old variables.now) known.old }
    ensures judged { state_of result parameters.now registers.new variables.now ≡ unless_stopped (state_of judging parameters.now registers.old variables.now) (judge_register text.now (state_of judging parameters.now registers.old variables.now) register) }
    ensures names { Known text.now (state_of result parameters.now registers.new variables.now) known.new }
{
    let name = declared_at(text, register.place, register.length);
    let count = word(registers, 0);
    let judged = judge_register(
        text,
        judging,
        parameters,
        registers,
        variables,
        register,
        unmarked(known, name.number),
    );
    mark_entry(text, registers, 15 * count + 1, name, known);
    judged
}

fn register_next(
    text: &[u8],
    loading: Loading,
    word: Step,
    parameters: &[u32],
    registers: &mut [u32],
    variables: &[u32],
    known: &mut [u8],
) -> Loading
    requires known { Known text.now (state_of loading.judging parameters.now registers.old variables.now) known.old }
    requires word_value { word ≡ fixed_after text.now 529 loading.step }
    ensures read { progress_of result parameters.now registers.new variables.now ≡ register_with (judge text.now) text.now (progress_of loading parameters.now registers.old variables.now) }
    ensures names { Known text.now (state_of result.judging parameters.now registers.new variables.now) known.new }
{
    if 64 <= loading.registers {
        let step = syntax::extra_after(text, REGISTER, loading.step);
        return Loading { step, ..loading };
    }
    let one = syntax::register_behind(text, word);
    let step = syntax::fixed_after(text, SEMICOLON, one.step);
    if step.is_err() {
        return Loading { step, ..loading };
    }
    let so_far = loading.judging;
    let judging = register_judged(text, so_far, parameters, registers, variables, one, known);
    Loading {
        registers: loading.registers + 1,
        judging,
        step,
        ..loading
    }
}

// After a first fault nothing more is judged.
fn variable_judged(
    text: &[u8],
    judging: Judging,
    parameters: &[u32],
    registers: &[u32],
    variables: &mut [u32],
    variable: Variable,
    first: &[usize],
    second: &[usize],
    reads: &mut [u8],
    writes: &mut [u8],
    known: &mut [u8],
) -> Judging
    requires judgeable { Judgeable judging.fault registers.now variables.old variable reads.old writes.old }
    requires known { Known text.now (state_of judging parameters.now registers.now variables.old) known.old }
    ensures judged { state_of result parameters.now registers.now variables.new ≡ unless_stopped (state_of judging parameters.now registers.now variables.old) (judge_variable text.now (state_of judging parameters.now registers.now variables.old) (read_of variable first.now second.now)) }
    ensures mapped { MappedUnless result.fault variables.new (count_of variables.old + 1) reads.new writes.new }
    ensures names { Known text.now (state_of result parameters.now registers.now variables.new) known.new }
{
    if judging.fault.is_some() {
        return judging;
    }
    let name = declared_at(text, variable.place, variable.length);
    let count = word(variables, 0);
    let judged = judge_variable(
        text,
        judging,
        parameters,
        registers,
        variables,
        variable,
        first,
        second,
        unmarked(known, name.number),
        reads,
        writes,
    );
    mark_entry(text, variables, 59 * count + 1, name, known);
    judged
}

// A variable, where one more may come.
fn variable_due(
    text: &[u8],
    loading: Loading,
    word: Step,
    parameters: &[u32],
    registers: &[u32],
    variables: &mut [u32],
    reads: &mut [u8],
    writes: &mut [u8],
    known: &mut [u8],
) -> Loading
    requires variables_bound { loading.variables < 128 }
    requires noted_2 { Noted text.now (progress_of loading parameters.now registers.now variables.old) reads.old writes.old known.old }
    requires word_value { word ≡ fixed_after text.now 537 loading.step }
    ensures read { progress_of result parameters.now registers.now variables.new ≡ variable_with (judge text.now) text.now (progress_of loading parameters.now registers.now variables.old) }
    ensures noted { Noted text.now (progress_of result parameters.now registers.now variables.new) reads.new writes.new known.new }
{
    let mut first = [0usize; 40];
    let mut second = [0usize; 40];
    let one = syntax::variable_behind(text, word, &mut first, &mut second);
    let step = syntax::fixed_after(text, SEMICOLON, one.step);
    if step.is_err() {
        return Loading { step, ..loading };
    }
    let so_far = loading.judging;
    let judging = variable_judged(
        text, so_far, parameters, registers, variables, one, &first, &second, reads, writes, known,
    );
    Loading {
        variables: loading.variables + 1,
        judging,
        step,
        ..loading
    }
}

fn variable_next(
    text: &[u8],
    loading: Loading,
    word: Step,
    parameters: &[u32],
    registers: &[u32],
    variables: &mut [u32],
    reads: &mut [u8],
    writes: &mut [u8],
    known: &mut [u8],
) -> Loading
    requires noted_2 { Noted text.now (progress_of loading parameters.now registers.now variables.old) reads.old writes.old known.old }
    requires word_value { word ≡ fixed_after text.now 537 loading.step }
    ensures read { progress_of result parameters.now registers.now variables.new ≡ variable_with (judge text.now) text.now (progress_of loading parameters.now registers.now variables.old) }
    ensures noted { Noted text.now (progress_of result parameters.now registers.now variables.new) reads.new writes.new known.new }
{
    if 128 <= loading.variables {
        let step = syntax::extra_after(text, VARIABLE, loading.step);
        return Loading { step, ..loading };
    }
    variable_due(
        text, loading, word, parameters, registers, variables, reads, writes, known,
    )
}

// A register or a variable, by its first word, which was looked at.
fn declaration_next(
    text: &[u8],
    loading: Loading,
    seen: Seen,
    parameters: &[u32],
    registers: &mut [u32],
    variables: &mut [u32],
    reads: &mut [u8],
    writes: &mut [u8],
    known: &mut [u8],
) -> Loading
    requires noted_2 { Noted text.now (progress_of loading parameters.now registers.old variables.old) reads.old writes.old known.old }
    requires seen_value { seen ≡ seen_at text.now loading.step }
    ensures read { progress_of result parameters.now registers.new variables.new ≡ declaration_with (judge text.now) text.now (progress_of loading parameters.now registers.old variables.old) }
    ensures noted { Noted text.now (progress_of result parameters.now registers.new variables.new) reads.new writes.new known.new }
{
    if seen.kind == REGISTER {
        let word = seen.past;
        return register_next(text, loading, word, parameters, registers, variables, known);
    }
    let word = syntax::seen_after(text, VARIABLE, seen, loading.step);
    variable_next(
        text, loading, word, parameters, registers, variables, reads, writes, known,
    )
}

// (declaration ;)*
fn more_declarations(
    text: &[u8],
    loading: Loading,
    parameters: &[u32],
    registers: &mut [u32],
    variables: &mut [u32],
    reads: &mut [u8],
    writes: &mut [u8],
    known: &mut [u8],
) -> Loading
    requires { Noted text.now (progress_of loading parameters.now registers.old variables.old) reads.old writes.old known.old }
    ensures read { progress_of result parameters.now registers.new variables.new ≡ more_declarations (judge text.now) text.now (length text.now) (progress_of loading parameters.now registers.old variables.old) }
    ensures noted { Noted text.now (progress_of result parameters.now registers.new variables.new) reads.new writes.new known.new }
{
    let mut all = loading;
    for _ in 0..text.len() {
        let seen = syntax::look(text, all.step);
        if !syntax::declares(seen.kind) {
            break;
        }
        all = declaration_next(
            text, all, seen, parameters, registers, variables, reads, writes, known,
        );
    }
    all
}

// Past one token, which is to be of this kind.
fn past(text: &[u8], loading: Loading, kind: u16) -> Loading
    ensures { result ≡ moved_by loading (fixed_after text.now kind loading.step) }
{
    let step = syntax::fixed_after(text, kind, loading.step);
    Loading { step, ..loading }
}

pub fn declarations_of(
    text: &[u8],
    loading: Loading,
    parameters: &[u32],
    registers: &mut [u32],
    variables: &mut [u32],
    reads: &mut [u8],
    writes: &mut [u8],
    known: &mut [u8],
) -> Loading
    requires { Noted text.now (progress_of loading parameters.now registers.old variables.old) reads.old writes.old known.old }
    ensures read { progress_of result parameters.now registers.new variables.new ≡ declarations_with (judge text.now) text.now (progress_of loading parameters.now registers.old variables.old) }
    ensures noted { Noted text.now (progress_of result parameters.now registers.new variables.new) reads.new writes.new known.new }
{
    let inside = past(text, loading, OPEN_BRACE);
    let seen = syntax::look(text, inside.step);
    let one = declaration_next(
        text, inside, seen, parameters, registers, variables, reads, writes, known,
    );
    let all = more_declarations(
        text, one, parameters, registers, variables, reads, writes, known,
    );
    past(text, all, CLOSE_BRACE)
}
