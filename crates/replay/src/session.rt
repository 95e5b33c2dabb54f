// A station over one text, from call to call.
//   kept    the record, of which no more than the tables need is used
//   marks   for each variable 0, or 1 where an abandoned write left it half-written
ghost use Rattle.std.specs.Prelude.{◌≡◌, ◌≤◌, min, length, take};
ghost use Rattle.script.specs.Words.{word_of, rest_of, words_of};
ghost use Rattle.rules.specs.Names.{variable_named};
ghost use Rattle.replay.specs.declared.session.Reply.TheVariants.{Looked};
ghost use Rattle.station.specs.Promise.{Meets};
ghost use Rattle.station.specs.Promise.{lent as station·lent};
ghost use Rattle.replay.specs.Fields.{power_on};
ghost use Rattle.calibrated.specs.Readings.{MeetsInUnits};
ghost use Rattle.replay.specs.Scales.{confirmed_in, plainly, is_idle, brought_by, scale_after};
ghost use Rattle.replay.specs.Sessions.{tables_in, begun, lent_of, is_opening, has_opened, requested, told_to, Leaves, turn_of, answered, asked, performed, replied};

use crate::call::{Call, Request, call_of};
use crate::fields::power_on;
use calibrated::{InUnits, OutcomeInUnits, begin_read_in_units, confirm_in_units};
use script::rest;
use station::{Answer, Operation, Outcome};
use tables::words::word;
use units::Calibration;

// An accepted text and its tables.
#[derive(Clone, Copy)]
pub struct Description<'a> {
    pub text: &'a [u8],
    pub parameters: &'a [u32],
    pub registers: &'a [u32],
    pub variables: &'a [u32],
}

// Whether an opening has succeeded, how many bytes of the record and how many marks are lent at most, and the operation
// in hand; its scale is the calibration that a read in units began with.
#[derive(Clone, Copy)]
pub struct Session {
    pub opened: bool,
    pub bytes: usize,
    pub marks: usize,
    pub operation: Operation,
    pub scale: Option<Calibration>,
}

// What a line is answered with. For `Stand`, the record, the marks and the operation are told.
#[derive(Clone, Copy)]
pub enum Reply {
    Silence,
    Answered(InUnits),
    Looked(Option<usize>),
    Stand,
    Lent,
    Held,
    Unknown,
}

#[derive(Clone, Copy)]
pub struct Turn {
    pub session: Session,
    pub reply: Reply,
}

// All that there is.
pub const ALL: usize = usize::MAX;

pub fn begin() -> Session
    ensures { result ≡ begun }
{
    Session {
        opened: false,
        bytes: ALL,
        marks: ALL,
        operation: Operation::Idle,
        scale: None,
    }
}

// How many bytes are lent of those that the tables need: none before the first opening.
#[tactic(auto, unfolding(crate::specs::Sessions::lent_of))]
pub fn lent(there: bool, most: usize, needed: usize, room: usize) -> usize
    ensures value { result ≡ lent_of there most needed room }
    ensures upper_bound { result ≤ room }
{
    if there { most.min(needed.min(room)) } else { 0 }
}

#[tactic(auto, unfolding(crate::specs::Sessions::is_opening))]
fn is_opening(request: Request) -> bool
    ensures { result ≡ is_opening request }
{
    matches!(request, Request::Open(_))
}

#[tactic(auto, unfolding(crate::specs::Sessions::is_opened))]
fn has_opened(answer: InUnits) -> bool
    ensures { result ≡ has_opened answer }
{
    matches!(answer, InUnits::Same(Answer::Opened))
}

// The first bytes, as many as there are of that count.
fn front(bytes: &[u32], count: usize) -> &[u32]
    ensures { result.now ≡ take (min count (length bytes.now)) bytes.now }
{
    &bytes[..count.min(bytes.len())]
}

// A confirmation in units, if the request is one.
fn confirmed_in(scale: Option<Calibration>, request: Request) -> Option<(u32, Calibration)>
    ensures { result ≡ confirmed_in scale request }
{
    match (scale, request) {
        (Some(calibration), Request::Confirm(byte)) => Some((byte, calibration)),
        _ => None,
    }
}

fn plain(outcome: Outcome) -> OutcomeInUnits
    ensures { result ≡ plainly outcome }
{
    OutcomeInUnits {
        operation: outcome.operation,
        answer: InUnits::Same(outcome.answer),
    }
}

fn is_idle(operation: Operation) -> bool
    ensures { result ≡ is_idle operation }
{
    matches!(operation, Operation::Idle)
}

// The scale of the operation that a request begins.
fn brought(request: Request) -> Option<Calibration>
    ensures { result ≡ brought_by request }
{
    match request {
        Request::Calibrated(_, calibration) => Some(calibration),
        _ => None,
    }
}

// Only a begin puts an operation in hand where none was; nothing else changes the scale of one that stays.
#[tactic(auto, unfolding(crate::specs::Scales::scale_after))]
fn scale_after(
    before: Operation,
    after: Operation,
    scale: Option<Calibration>,
    request: Request,
) -> Option<Calibration>
    ensures { result ≡ scale_after before after scale request }
{
    if is_idle(after) {
        None
    } else if is_idle(before) {
        brought(request)
    } else {
        scale
    }
}

// The session after a call of the station, whose answer is the reply.
fn answered(session: Session, request: Request, outcome: OutcomeInUnits) -> Turn
    ensures { result ≡ answered session request outcome.answer outcome.operation }
{
    let operation = outcome.operation;
    Turn {
        session: Session {
            opened: session.opened | has_opened(outcome.answer),
            operation,
            scale: scale_after(session.operation, operation, session.scale, request),
            ..session
        },
        reply: Reply::Answered(outcome.answer),
    }
}

// The record and the marks stay as they are.
fn stay(session: Session, reply: Reply) -> Turn
    ensures { result ≡ turn_of session reply }
{
    Turn { session, reply }
}

impl<'a> Description<'a> {
    // The calls of the station.
    #[tactic(auto, unfolding(crate::specs::Sessions::requested))]
    fn outcome_of(
        &self,
        request: Request,
        power: &[u32],
        held: &mut [u32],
        marks: &mut [u8],
        in_hand: Operation,
    ) -> Outcome
        ensures { Meets
            (requested
            (tables_in self.now)
            power.now
            (station·lent held.old marks.old in_hand)
            request)
            held.new marks.new result }
    {
        let (parameters, registers, variables) = (self.parameters, self.registers, self.variables);
        match request {
            Request::Open(count) => {
                let used = front(power, count);
                station::open(parameters, registers, variables, used, held, marks, in_hand)
            }
            Request::Read(v) => {
                station::begin_read(parameters, registers, variables, held, marks, in_hand, v)
            }
            Request::Write(v, z) => {
                station::begin_write(parameters, registers, variables, held, marks, in_hand, v, z)
            }
            Request::Confirm(byte) => {
                station::confirm(parameters, registers, variables, held, marks, in_hand, byte)
            }
            Request::Abandon => {
                station::abandon(parameters, registers, variables, held, marks, in_hand)
            }
            Request::Calibrated(v, c) => {
                begin_read_in_units(parameters, registers, variables, held, marks, in_hand, v, c)
            }
        }
    }

    // What a request comes to: only a confirmation of a read in units is told in units.
    fn told(
        &self,
        scale: Option<Calibration>,
        request: Request,
        power: &[u32],
        held: &mut [u32],
        marks: &mut [u8],
        in_hand: Operation,
    ) -> OutcomeInUnits
        ensures { MeetsInUnits
            (told_to
            (tables_in self.now)
            power.now
            (station·lent held.old marks.old in_hand)
            scale request)
            held.new marks.new result }
    {
        let (parameters, registers, variables) = (self.parameters, self.registers, self.variables);
        match confirmed_in(scale, request) {
            Some((b, c)) => {
                confirm_in_units(parameters, registers, variables, held, marks, in_hand, b, c)
            }
            None => plain(self.outcome_of(request, power, held, marks, in_hand)),
        }
    }

    // A call of the station, over as much of the record and the marks as is lent.
    fn ask(
        &self,
        request: Request,
        line: &[u8],
        kept: &mut [u32],
        marks: &mut [u8],
        session: Session,
    ) -> Turn
        ensures { Leaves
            (asked
            (tables_in self.now)
            (power_on (words_of (rest_of line.now))) kept.old marks.old session request)
            kept.new marks.new result }
    {
        let there = session.opened | is_opening(request);
        let held = lent(there, session.bytes, word(self.registers, 0), kept.len());
        let marked = lent(there, session.marks, word(self.variables, 0), marks.len());
        let power = power_on(rest(line));
        let outcome = self.told(
            session.scale,
            request,
            &power,
            &mut kept[..held],
            &mut marks[..marked],
            session.operation,
        );
        answered(session, request, outcome)
    }

    // The variable of the name that stands in the line.
    fn look(&self, line: &[u8]) -> Reply
        ensures { result ≡ Looked (variable_named self.now.text.now self.now.variables.now (word_of (rest_of line.now))) }
    {
        Reply::Looked(loader::lookup(self.text, self.variables, script::word(rest(line))))
    }

    #[tactic(auto, unfolding(crate::specs::Sessions::performed))]
    fn perform(
        &self,
        call: Call,
        line: &[u8],
        kept: &mut [u32],
        marks: &mut [u8],
        session: Session,
    ) -> Turn
        ensures { Leaves
            (performed
            (tables_in self.now)
            self.now.text.now line.now kept.old marks.old session call)
            kept.new marks.new result }
    {
        match call {
            Call::Nothing => stay(session, Reply::Silence),
            Call::Station(request) => self.ask(request, line, kept, marks, session),
            Call::Lookup => stay(session, self.look(line)),
            Call::State => stay(session, Reply::Stand),
            Call::LendRecord(bytes) => stay(Session { bytes, ..session }, Reply::Lent),
            Call::LendMarks(marks) => stay(Session { marks, ..session }, Reply::Lent),
            Call::Hold(operation) => {
                let held = Session {
                    operation,
                    scale: None,
                    ..session
                };
                stay(held, Reply::Held)
            }
            Call::Unknown => stay(session, Reply::Unknown),
        }
    }

    // What a line is answered with, and what it leaves.
    #[tactic(auto, unfolding(crate::specs::Sessions::replied))]
    pub fn answer(&self, line: &[u8], kept: &mut [u32], marks: &mut [u8], session: Session) -> Turn
        ensures { Leaves
            (replied
            (tables_in self.now)
            self.now.text.now line.now kept.old marks.old session)
            kept.new marks.new result }
    {
        let call = call_of(line);
        self.perform(call, line, kept, marks, session)
    }
}
