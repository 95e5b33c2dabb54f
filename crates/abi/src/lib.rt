// The face for Rust and C: loading, and the station's calls, on numbers and slices alone. specs/Words.antt says how
// words stand for an operation and an answer, specs/Loading.antt for a verdict, specs/Arriving.antt for the reply to a
// piece. Each function takes its words apart, calls, and puts the answer together.
//   held       the record: for each register the number last confirmed as written, at first the power-on number
//   marks      for each variable 0, or 1 where an abandoned write left it half-written
//   operation  four words: the operation in hand
//   answer     five words: the call's answer
// Nothing is written past a slice's end. The number returned is the refusal's, and 0 where there is none.
#![tactic(auto)]

ghost use Rattle.std.specs.Prelude.{◌≡◌, cond};
ghost use Rattle.tables.specs.View.{sound};
ghost use Rattle.station.specs.Standing.{tables_of};
ghost use Rattle.station.specs.Calls.{opening, begin_read, begin_write, confirm, abandon};
ghost use Rattle.station.specs.Promise.{lent};
ghost use Rattle.abi.specs.Words.{operation_of};
ghost use Rattle.abi.specs.Told.{Tells};
ghost use Rattle.units.specs.Lines.{calibration_of};
ghost use Rattle.calibrated.specs.Readings.{begin_in_units, confirm_in_units};
ghost use Rattle.abi.specs.InUnits.{TellsIn};
ghost use Rattle.rules.specs.Names.{variable_named};
ghost use Rattle.loader.specs.Load.{lent_as, load_of};
ghost use Rattle.abi.specs.Loading.{TellsLoaded, found_word};
ghost use Rattle.pieces.specs.Pieces.{held_as, piece_of, end_of};
ghost use Rattle.abi.specs.Arriving.{taken_of, TellsTook, TellsClosed};

pub mod arriving;
pub mod in_units;
pub mod loading;
pub mod words;

// ---- loading

// Loads a description. Four words of `answer` take the verdict.
#[unsafe(no_mangle)]
pub extern "C" fn desfanuk_load(
    text: &[u8],
    parameters: &mut [u32],
    registers: &mut [u32],
    variables: &mut [u32],
    answer: &mut [u64],
) -> u32
    ensures { TellsLoaded
        (load_of text.now (lent_as parameters.old registers.old variables.old))
        answer.old
        parameters.new registers.new variables.new answer.new result }
{
    let verdict = loader::load(text, parameters, registers, variables);
    loading::tell_verdict(verdict, answer)
}

// The variable of this name, or -1.
#[unsafe(no_mangle)]
pub extern "C" fn desfanuk_lookup(text: &[u8], variables: &[u32], name: &[u8]) -> i64
    ensures { result ≡ found_word (variable_named text.now variables.now name.now) }
{
    loading::found_word(loader::lookup(text, variables, name))
}

// ---- a text in pieces

// Takes a piece of a text into `store`, behind the bytes that the word of `taken` counts. Four words of `answer` take
// the reply.
#[unsafe(no_mangle)]
pub extern "C" fn desfanuk_take_piece(
    parameters: &[u32],
    registers: &[u32],
    variables: &[u32],
    store: &mut [u8],
    taken: &mut [u64],
    piece: &[u8],
    answer: &mut [u64],
) -> u32
    ensures { TellsTook
        (piece_of (lent_as parameters.now registers.now variables.now)
        (held_as store.old (taken_of taken.old)) piece.now)
        taken.old answer.old
        store.new taken.new answer.new result }
{
    let so_far = arriving::taken_of(taken);
    let took = pieces::take_piece(store, so_far, piece, parameters, registers, variables);
    arriving::keep(taken, took.taken);
    arriving::tell_reply(took.reply, answer)
}

// Ends a text in pieces and loads it. Four words of `answer` take the verdict.
#[unsafe(no_mangle)]
pub extern "C" fn desfanuk_end_pieces(
    store: &[u8],
    taken: &mut [u64],
    parameters: &mut [u32],
    registers: &mut [u32],
    variables: &mut [u32],
    answer: &mut [u64],
) -> u32
    ensures { TellsClosed
        (end_of (lent_as parameters.old registers.old variables.old)
        (held_as store.now (taken_of taken.old)))
        taken.old answer.old
        parameters.new registers.new variables.new
        taken.new answer.new result }
{
    let so_far = arriving::taken_of(taken);
    let ended = pieces::end_pieces(store, so_far, parameters, registers, variables);
    arriving::keep(taken, ended.taken);
    loading::tell_verdict(ended.verdict, answer)
}

// ---- the station

// 1 where the tables are sound, so that no call refuses them by 20, and 0 where they are not.
#[unsafe(no_mangle)]
pub extern "C" fn desfanuk_sound(parameters: &[u32], registers: &[u32], variables: &[u32]) -> u32
    ensures { result ≡ cond (sound (tables_of parameters.now registers.now variables.now)) 1 0 }
{
    tables::words::pick(tables::whole::sound(parameters, registers, variables), 1, 0)
}

#[unsafe(no_mangle)]
pub extern "C" fn desfanuk_open(
    parameters: &[u32],
    registers: &[u32],
    variables: &[u32],
    power: &[u32],
    held: &mut [u32],
    marks: &mut [u8],
    operation: &mut [u64],
    answer: &mut [i64],
) -> u64
    ensures { Tells
        (opening sound
        (tables_of parameters.now registers.now variables.now)
        power.now
        (lent held.old marks.old (operation_of operation.old)))
        operation.old answer.old
        held.new marks.new operation.new answer.new result }
{
    let in_hand = words::operation_of(operation);
    let outcome = station::open(
        parameters, registers, variables, power, held, marks, in_hand,
    );
    words::tell(outcome, operation, answer)
}

#[unsafe(no_mangle)]
pub extern "C" fn desfanuk_begin_read(
    parameters: &[u32],
    registers: &[u32],
    variables: &[u32],
    held: &[u32],
    marks: &[u8],
    operation: &mut [u64],
    variable: usize,
    answer: &mut [i64],
) -> u64
    ensures { Tells
        (begin_read sound
        (tables_of parameters.now registers.now variables.now)
        (lent held.now marks.now (operation_of operation.old))
        variable)
        operation.old answer.old
        held.now marks.now operation.new answer.new result }
{
    let in_hand = words::operation_of(operation);
    let outcome = station::begin_read(
        parameters, registers, variables, held, marks, in_hand, variable,
    );
    words::tell(outcome, operation, answer)
}

#[unsafe(no_mangle)]
pub extern "C" fn desfanuk_begin_write(
    parameters: &[u32],
    registers: &[u32],
    variables: &[u32],
    held: &[u32],
    marks: &[u8],
    operation: &mut [u64],
    variable: usize,
    value: i64,
    answer: &mut [i64],
) -> u64
    ensures { Tells
        (begin_write sound
        (tables_of parameters.now registers.now variables.now)
        (lent held.now marks.now (operation_of operation.old))
        variable value)
        operation.old answer.old
        held.now marks.now operation.new answer.new result }
{
    let in_hand = words::operation_of(operation);
    let outcome = station::begin_write(
        parameters, registers, variables, held, marks, in_hand, variable, value,
    );
    words::tell(outcome, operation, answer)
}

#[unsafe(no_mangle)]
pub extern "C" fn desfanuk_confirm(
    parameters: &[u32],
    registers: &[u32],
    variables: &[u32],
    held: &mut [u32],
    marks: &mut [u8],
    operation: &mut [u64],
    number: u32,
    answer: &mut [i64],
) -> u64
    ensures { Tells
        (confirm sound
        (tables_of parameters.now registers.now variables.now)
        (lent held.old marks.old (operation_of operation.old))
        number)
        operation.old answer.old
        held.new marks.new operation.new answer.new result }
{
    let in_hand = words::operation_of(operation);
    let outcome = station::confirm(
        parameters, registers, variables, held, marks, in_hand, number,
    );
    words::tell(outcome, operation, answer)
}

#[unsafe(no_mangle)]
pub extern "C" fn desfanuk_abandon(
    parameters: &[u32],
    registers: &[u32],
    variables: &[u32],
    held: &[u32],
    marks: &mut [u8],
    operation: &mut [u64],
    answer: &mut [i64],
) -> u64
    ensures { Tells
        (abandon sound
        (tables_of parameters.now registers.now variables.now)
        (lent held.now marks.old (operation_of operation.old)))
        operation.old answer.old
        held.now marks.new operation.new answer.new result }
{
    let in_hand = words::operation_of(operation);
    let outcome = station::abandon(parameters, registers, variables, held, marks, in_hand);
    words::tell(outcome, operation, answer)
}

// ---- readings in units: gain and offset are the 64 bits of two doubles

#[unsafe(no_mangle)]
pub extern "C" fn desfanuk_begin_read_in_units(
    parameters: &[u32],
    registers: &[u32],
    variables: &[u32],
    held: &[u32],
    marks: &[u8],
    operation: &mut [u64],
    variable: usize,
    gain: u64,
    offset: u64,
    answer: &mut [i64],
) -> u64
    ensures { Tells
        (begin_in_units sound
        (tables_of parameters.now registers.now variables.now)
        (lent held.now marks.now (operation_of operation.old))
        variable (calibration_of gain offset))
        operation.old answer.old
        held.now marks.now operation.new answer.new result }
{
    let in_hand = words::operation_of(operation);
    let calibration = units::calibration_of(gain, offset);
    let outcome = calibrated::begin_read_in_units(
        parameters,
        registers,
        variables,
        held,
        marks,
        in_hand,
        variable,
        calibration,
    );
    words::tell(outcome, operation, answer)
}

#[unsafe(no_mangle)]
pub extern "C" fn desfanuk_confirm_in_units(
    parameters: &[u32],
    registers: &[u32],
    variables: &[u32],
    held: &mut [u32],
    marks: &mut [u8],
    operation: &mut [u64],
    number: u32,
    gain: u64,
    offset: u64,
    answer: &mut [i64],
) -> u64
    ensures { TellsIn
        (confirm_in_units sound
        (tables_of parameters.now registers.now variables.now)
        (lent held.old marks.old (operation_of operation.old))
        number (calibration_of gain offset))
        operation.old answer.old
        held.new marks.new operation.new answer.new result }
{
    let in_hand = words::operation_of(operation);
    let calibration = units::calibration_of(gain, offset);
    let outcome = calibrated::confirm_in_units(
        parameters,
        registers,
        variables,
        held,
        marks,
        in_hand,
        number,
        calibration,
    );
    in_units::tell_units(outcome, operation, answer)
}
