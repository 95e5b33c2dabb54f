// Judging a variable: rules 6, 7 and 11 to 15, and the entry that it gets.
ghost use Rattle.std.specs.Prelude.{◌≡◌, true, cond, ◌+◌, ◌<◌, ◌≤◌, ◌^◌, length, replicate};
ghost use Rattle.tables.specs.Every.{every};
ghost use Rattle.tables.specs.Tables.{count_of};
ghost use Rattle.tables.specs.Rules.{variable_fault, variable_shape};
ghost use Rattle.tables.specs.Scan.{Mapped};
ghost use Rattle.rules.specs.Words.{written};
ghost use Rattle.rules.specs.Fault.{fault_of};
ghost use Rattle.rules.specs.State.{state_in, state_of};
ghost use Rattle.rules.specs.Variable.{triggers, head_words, with_variable, bad_behaviours, lowest, name_fault, first_pieces, second_pieces, EarlyOf, read_of, judge_variable, Asked, MappedUnless};

use crate::declared::{Judging, Known};
use crate::fault::{Fault, fault_if, fault_of};
use crate::lists::{list_for, list_number, resolve, store_given};
use crate::modifiers::at_most_one;
use crate::words::{narrow, put};
use syntax::{Behaviours, Variable};
use tables::Part;
use tables::faults::{enter_variable, variable_fault};
use tables::words::{pick, word};

// Is a part a trigger's? `own` counts the triggers with its modifier.
#[tactic(auto, unfolding(crate::specs::Variable::triggers, crate::specs::Variable::flag_of))]
pub fn trigger_flag(b: Behaviours, own: u8) -> u32
    ensures { result ≡ triggers b own }
{
    let bare = b.bare as usize;
    pick(1 <= bare + own as usize, 1, 0)
}

// Name place, name length, kind, width, volatile.
#[tactic(auto, unfolding(crate::specs::Words::written, crate::specs::Variable::head_words, crate::specs::Variable::flag_of))]
pub fn store_head(variables: &mut [u32], at: usize, variable: Variable)
    requires { at < 2 ^ 32 }
    ensures { variables.new ≡ written variables.old at (head_words variable) }
{
    put(variables, at, narrow(variable.place));
    put(variables, at + 1, narrow(variable.length));
    put(variables, at + 2, variable.kind as u32);
    put(variables, at + 3, variable.width);
    put(
        variables,
        at + 4,
        pick(1 <= variable.rest.behaviours.volatile, 1, 0),
    );
}

// Writes the variable behind those that are there, with the parts that its lists give.
#[tactic(auto, unfolding(crate::specs::Variable::with_variable))]
pub fn store_variable(
    variables: &mut [u32],
    variable: Variable,
    first: &[u32],
    second: &[u32],
    read: usize,
    write: usize,
)
    requires variables_bound { count_of variables.old < 2 ^ 16 }
    requires first_len_bound { length first.now < 2 ^ 32 }
    requires second_len_bound { length second.now < 2 ^ 32 }
    ensures { variables.new ≡ with_variable variables.old variable first.now second.now read write }
{
    let v = word(variables, 0);
    let at = 59 * v + 1;
    let behaviours = variable.rest.behaviours;
    let reads = trigger_flag(behaviours, behaviours.read);
    let writes = trigger_flag(behaviours, behaviours.write);
    store_head(variables, at, variable);
    store_given(variables, at + 5, variable, reads, read, first, second);
    store_given(variables, at + 32, variable, writes, write, first, second);
    put(variables, 0, narrow(v + 1));
}

// Rule 13, as written: `volatile` twice, or more triggers than a part may have. `read` and `write` are the numbers of
// the lists that give the parts.
#[tactic(auto, unfolding(crate::specs::Variable::bad_behaviours))]
pub fn bad_behaviours(b: Behaviours, read: usize, write: usize) -> bool
    ensures { result ≡ bad_behaviours b read write }
{
    let one_read = at_most_one(read != 0, b.bare, b.read);
    let one_write = at_most_one(write != 0, b.bare, b.write);
    (2 <= b.volatile) | !one_read | !one_write
}

// The lower of two numbers of rules; 0 is none, as the tables' tests answer it.
#[tactic(auto, unfolding(crate::specs::Variable::lowest))]
pub fn lowest(a: u32, b: u32) -> u32
    ensures { result ≡ lowest a b }
{
    if a == 0 {
        b
    } else if b == 0 {
        a
    } else {
        a.min(b)
    }
}

// 0, or the lowest rule of 11 to 15 that the entry of variable v breaks, rule 13 as written among them.
pub fn late_number(
    registers: &[u32],
    variables: &[u32],
    v: usize,
    behaviours: Behaviours,
    read: usize,
    write: usize,
    reads: &[u8],
    writes: &[u8],
) -> u32
    requires v_bound { v < 2 ^ 16 }
    requires registers_bound { count_of registers.now ≤ 64 }
    requires mapped { Mapped variables.now v reads.now writes.now }
    ensures { result ≡ lowest (variable_fault registers.now variables.now v) (cond (bad_behaviours behaviours read write) 13 0) }
{
    let entry = variable_fault(registers, variables, v, reads, writes);
    lowest(entry, pick(bad_behaviours(behaviours, read, write), 13, 0))
}

// What breaks before there is an entry; the number of the list that gives each part, and the pieces of both lists as
// the tables hold them.
#[derive(Clone, Copy)]
pub struct Early {
    pub fault: Option<Fault>,
    pub read: usize,
    pub write: usize,
    pub firsts: [u32; 24],
    pub seconds: [u32; 24],
}

// Writes the entry and judges it; where it breaks no rule, the maps take it in.
pub fn enter(
    variables: &mut [u32],
    registers: &[u32],
    variable: Variable,
    early: Early,
    reads: &mut [u8],
    writes: &mut [u8],
) -> Option<Fault>
    requires registers_bound { count_of registers.now ≤ 64 }
    requires variables_bound { count_of variables.old < 2 ^ 15 }
    requires variables_value { every (count_of variables.old) (variable_shape variables.old) ≡ true }
    requires mapped_2 { Mapped variables.old (count_of variables.old) reads.old writes.old }
    ensures stored { variables.new ≡ with_variable variables.old variable early.firsts early.seconds early.read early.write }
    ensures judged { result ≡ fault_of (lowest (variable_fault registers.now variables.new (count_of variables.old)) (cond (bad_behaviours variable.rest.behaviours early.read early.write) 13 0)) variable.place }
    ensures mapped { MappedUnless result variables.new (count_of variables.old + 1) reads.new writes.new }
{
    let v = word(variables, 0);
    let behaviours = variable.rest.behaviours;
    let (read, write) = (early.read, early.write);
    store_variable(
        variables,
        variable,
        &early.firsts,
        &early.seconds,
        read,
        write,
    );
    let number = late_number(
        registers, variables, v, behaviours, read, write, reads, writes,
    );
    let fault = fault_of(number, variable.place);
    if fault.is_some() {
        return fault;
    }
    enter_variable(reads, writes, variables, v);
    None
}

// Rules 6 and 7. The pieces of both lists are stored as the tables hold them.
#[tactic(auto, unfolding(crate::specs::Variable::name_fault, crate::specs::Variable::read_of, crate::specs::State::state_of, crate::specs::Fault::or_else))]
pub fn name_fault(
    known: Known,
    variable: Variable,
    first: &[usize],
    second: &[usize],
    fresh: bool,
    firsts: &mut [u32],
    seconds: &mut [u32],
) -> Option<Fault>
    requires asked { Asked fresh known.text.now (state_in known) variable }
    requires firsts_value { firsts.old ≡ replicate 24 0 }
    requires seconds_value { seconds.old ≡ replicate 24 0 }
    ensures named { result ≡ name_fault known.entry.text.now (state_in known.entry) (read_of variable first.now second.now) }
    ensures first { firsts.new ≡ first_pieces known.entry.text.now (state_in known.entry) (read_of variable first.now second.now) }
    ensures second { seconds.new ≡ second_pieces known.entry.text.now (state_in known.entry) (read_of variable first.now second.now) }
{
    let declared = known.declared_before(variable.place, variable.length, fresh);
    let unknown = resolve(known.text, known.registers, first, variable.count, firsts);
    let later = resolve(
        known.text,
        known.registers,
        second,
        variable.rest.count,
        seconds,
    );
    declared.or(unknown).or(later)
}

// Rules 6 and 7, then 11 by the pairing.
pub fn early_of(
    known: Known,
    variable: Variable,
    first: &[usize],
    second: &[usize],
    fresh: bool,
) -> Early
    requires { Asked fresh known.text.now (state_in known) variable }
    ensures { EarlyOf known.entry.text.now (state_in known.entry) (read_of variable first.now second.now) result }
{
    let mut firsts = [0u32; 24];
    let mut seconds = [0u32; 24];
    let names = name_fault(
        known,
        variable,
        first,
        second,
        fresh,
        &mut firsts,
        &mut seconds,
    );
    let read = list_number(list_for(known.registers, variable, &firsts, Part::Read));
    let write = list_number(list_for(known.registers, variable, &firsts, Part::Write));
    let unpaired = fault_if((read == 0) & (write == 0), 11, variable.place);
    Early {
        fault: names.or(unpaired),
        read,
        write,
        firsts,
        seconds,
    }
}

// Judges a variable against the tables so far. Its fault is named where a rule is broken; else the tables and the maps
// have it.
pub fn judge_variable(
    text: &[u8],
    judging: Judging,
    parameters: &[u32],
    registers: &[u32],
    variables: &mut [u32],
    variable: Variable,
    first: &[usize],
    second: &[usize],
    fresh: bool,
    reads: &mut [u8],
    writes: &mut [u8],
) -> Judging
    requires asked { Asked fresh text.now (state_of judging parameters.now registers.now variables.old) variable }
    requires registers_bound { count_of registers.now ≤ 64 }
    requires variables_bound { count_of variables.old < 2 ^ 15 }
    requires variables_value { every (count_of variables.old) (variable_shape variables.old) ≡ true }
    requires mapped_2 { Mapped variables.old (count_of variables.old) reads.old writes.old }
    ensures judged { state_of result parameters.now registers.now variables.new ≡ judge_variable text.now (state_of judging parameters.now registers.now variables.old) (read_of variable first.now second.now) }
    ensures mapped { MappedUnless result.fault variables.new (count_of variables.old + 1) reads.new writes.new }
{
    let known = Known {
        text,
        judging,
        parameters,
        registers,
        variables,
    };
    let early = early_of(known, variable, first, second, fresh);
    if early.fault.is_some() {
        return Judging {
            fault: early.fault,
            ..judging
        };
    }
    let fault = enter(variables, registers, variable, early, reads, writes);
    Judging { fault, ..judging }
}
