// Judging a parameter: rules 6, 8 and 12.
ghost use Rattle.std.specs.Prelude.{◌≡◌, ◌<◌, ◌^◌, length};
ghost use Rattle.rules.specs.State.{state_of, unless_stopped};
ghost use Rattle.rules.specs.Words.{appended};
ghost use Rattle.rules.specs.Parameter.{parameter_entry, judge_parameter};

use crate::declared::{Judging, Known};
use crate::fault::fault_of;
use crate::words;
use syntax::Parameter;
use tables::parameters;
use tables::words::word;

// Appends the parameter's entry.
fn add_parameter(table: &mut [u32], parameter: Parameter, ranges: &[u32])
    requires { length ranges.now < 2 ^ 32 }
    ensures { table.new ≡ appended 36 table.old (parameter_entry (record { parameter = parameter; table = ranges.now })) }
{
    let count = word(table, 0);
    let at = 36 * count + 1;
    let head = [
        words::narrow(parameter.place),
        words::narrow(parameter.length),
        parameter.width,
        words::narrow(parameter.ranges),
    ];
    words::store(table, at, &head);
    words::store(table, at + 4, ranges);
    words::count_one(table, count);
}

// After a first fault nothing more is judged.
pub fn judge_parameter(
    text: &[u8],
    judging: Judging,
    parameters: &mut [u32],
    registers: &[u32],
    variables: &[u32],
    parameter: Parameter,
    ranges: &[u32],
) -> Judging
    requires { length ranges.now < 2 ^ 32 }
    ensures { state_of result parameters.new registers.now variables.now ≡ unless_stopped (state_of judging parameters.old registers.now variables.now) (judge_parameter text.now (state_of judging parameters.old registers.now variables.now) (record { parameter = parameter; table = ranges.now })) }
{
    if judging.fault.is_some() {
        return judging;
    }
    let known = Known {
        text,
        judging,
        parameters,
        registers,
        variables,
    };
    let six = known.declared_before(parameter.place, parameter.length, false);
    if six.is_some() {
        return Judging {
            fault: six,
            ..judging
        };
    }
    let count = word(parameters, 0);
    add_parameter(parameters, parameter, ranges);
    let number = parameters::parameter_fault(parameters, count);
    Judging {
        fault: fault_of(number, parameter.place),
        ..judging
    }
}
