// The tables as the judging of a text leaves them. Loading clears them where it refuses; here what was declared before
// the first broken rule stays, so that it can be told.
ghost use Rattle.std.specs.Prelude.{◌≡◌};
ghost use Rattle.loader.specs.Load.{lent_as, tables_of, beginning, judged};
ghost use Rattle.rules.specs.State.{state_of};

use loader::whole::judge_text;
use rules::Judging;

// Reads and judges a text, into tables of zeros: the device's name and the first rule broken.
pub fn judge_all(
    text: &[u8],
    parameters: &mut [u32],
    registers: &mut [u32],
    variables: &mut [u32],
) -> Judging
    requires { lent_as parameters.old registers.old variables.old ≡ tables_of beginning }
    ensures { state_of result parameters.new registers.new variables.new ≡ (judged text.now).made }
{
    let mut reads = [0u8; 4096];
    let mut writes = [0u8; 4096];
    let all = judge_text(
        text,
        parameters,
        registers,
        variables,
        &mut reads,
        &mut writes,
    );
    all.judging
}
