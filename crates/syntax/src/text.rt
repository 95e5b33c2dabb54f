// A whole text: `device name ( param (, param)* ) { (declaration ;)+ }` and then the end. The reading alone, with
// nothing kept but the counts.
ghost use Rattle.std.specs.Prelude.{◌≡◌, length};
ghost use Rattle.syntax.specs.Text.{begins, idle, bare, head_with, parameter_with, more_parameters, register_with, variable_with, declaration_with, more_declarations, parameters_with, declarations_with, reading, outlined};

use crate::kinds::{
    CLOSE, CLOSE_BRACE, COMMA, END, NAME, OPEN_BRACE, REGISTER, SEMICOLON, VARIABLE,
};
use crate::limits::{MOST_PARAMETERS, MOST_REGISTERS, MOST_VARIABLES};
use crate::reader::Step;
use crate::{heading, parameter, reader, register, variable};

// How much a text declares, and the step past it. A declaration counts once it is whole.
#[derive(Clone, Copy)]
pub struct Outline {
    pub parameters: usize,
    pub registers: usize,
    pub variables: usize,
    pub step: Step,
}

// device name (
#[tactic(auto, unfolding(crate::specs::Text::head_with, crate::specs::Text::moved_to, crate::specs::Text::bare, crate::specs::Text::outlined, crate::specs::Text::taken, crate::specs::Text::counted))]
fn head_next(text: &[u8], outline: Outline) -> Outline
    ensures { result ≡ outlined (head_with idle text.now (bare outline)) }
{
    let head = heading::head_after(text, outline.step);
    Outline {
        step: head.step,
        ..outline
    }
}

#[tactic(auto, unfolding(crate::specs::Text::parameter_with, crate::specs::Text::moved_to, crate::specs::Text::bare, crate::specs::Text::outlined, crate::specs::Text::taken, crate::specs::Text::counted))]
fn parameter_next(text: &[u8], outline: Outline) -> Outline
    ensures { result ≡ outlined (parameter_with idle text.now (bare outline)) }
{
    if MOST_PARAMETERS <= outline.parameters {
        let extra = reader::extra_after(text, NAME, outline.step);
        return Outline {
            step: extra,
            ..outline
        };
    }
    let mut table = [0u32; 32];
    let one = parameter::parameter_after(text, outline.step, &mut table);
    Outline {
        parameters: outline.parameters + usize::from(one.step.is_ok()),
        step: one.step,
        ..outline
    }
}

// (, param)*
fn more_parameters(text: &[u8], outline: Outline) -> Outline
    ensures { result ≡ outlined (more_parameters idle text.now (length text.now) (bare outline)) }
{
    let mut all = outline;
    for _ in 0..text.len() {
        let seen = reader::look(text, all.step);
        if seen.kind != COMMA {
            break;
        }
        let behind = Outline {
            step: seen.past,
            ..all
        };
        all = parameter_next(text, behind);
    }
    all
}

#[tactic(auto, unfolding(crate::specs::Text::register_with, crate::specs::Text::moved_to, crate::specs::Text::bare, crate::specs::Text::outlined, crate::specs::Text::taken, crate::specs::Text::counted))]
fn register_next(text: &[u8], outline: Outline) -> Outline
    ensures { result ≡ outlined (register_with idle text.now (bare outline)) }
{
    if MOST_REGISTERS <= outline.registers {
        let extra = reader::extra_after(text, REGISTER, outline.step);
        return Outline {
            step: extra,
            ..outline
        };
    }
    let one = register::register_after(text, outline.step);
    let end = reader::fixed_after(text, SEMICOLON, one.step);
    Outline {
        registers: outline.registers + usize::from(end.is_ok()),
        step: end,
        ..outline
    }
}

#[tactic(auto, unfolding(crate::specs::Text::variable_with, crate::specs::Text::moved_to, crate::specs::Text::bare, crate::specs::Text::outlined, crate::specs::Text::taken, crate::specs::Text::counted))]
fn variable_next(text: &[u8], outline: Outline) -> Outline
    ensures { result ≡ outlined (variable_with idle text.now (bare outline)) }
{
    if MOST_VARIABLES <= outline.variables {
        let extra = reader::extra_after(text, VARIABLE, outline.step);
        return Outline {
            step: extra,
            ..outline
        };
    }
    let mut first = [0usize; 40];
    let mut second = [0usize; 40];
    let one = variable::variable_after(text, outline.step, &mut first, &mut second);
    let end = reader::fixed_after(text, SEMICOLON, one.step);
    Outline {
        variables: outline.variables + usize::from(end.is_ok()),
        step: end,
        ..outline
    }
}

// A register or a variable, by its first word.
#[tactic(auto, unfolding(crate::specs::Text::declaration_with, crate::specs::Text::moved_to, crate::specs::Text::bare, crate::specs::Text::outlined, crate::specs::Text::taken, crate::specs::Text::counted))]
fn declaration_next(text: &[u8], outline: Outline) -> Outline
    ensures { result ≡ outlined (declaration_with idle text.now (bare outline)) }
{
    let seen = reader::look(text, outline.step);
    if seen.kind == REGISTER {
        return register_next(text, outline);
    }
    variable_next(text, outline)
}

// A register or a variable begins.
#[tactic(auto, unfolding(crate::specs::Text::begins, crate::specs::Text::moved_to, crate::specs::Text::bare, crate::specs::Text::outlined, crate::specs::Text::taken, crate::specs::Text::counted))]
pub fn declares(kind: u16) -> bool
    ensures { result ≡ begins kind }
{
    matches!(kind, REGISTER | VARIABLE)
}

// (declaration ;)*
fn more_declarations(text: &[u8], outline: Outline) -> Outline
    ensures { result ≡ outlined (more_declarations idle text.now (length text.now) (bare outline)) }
{
    let mut all = outline;
    for _ in 0..text.len() {
        let seen = reader::look(text, all.step);
        if !declares(seen.kind) {
            break;
        }
        all = declaration_next(text, all);
    }
    all
}

// device name ( param (, param)* )
#[tactic(auto, unfolding(crate::specs::Text::parameters_with, crate::specs::Text::moved_to, crate::specs::Text::bare, crate::specs::Text::outlined, crate::specs::Text::taken, crate::specs::Text::counted))]
fn parameters_of(text: &[u8], outline: Outline) -> Outline
    ensures { result ≡ outlined (parameters_with idle text.now (bare outline)) }
{
    let head = head_next(text, outline);
    let one = parameter_next(text, head);
    let all = more_parameters(text, one);
    let close = reader::fixed_after(text, CLOSE, all.step);
    Outline { step: close, ..all }
}

// { (declaration ;)+ }
#[tactic(auto, unfolding(crate::specs::Text::declarations_with, crate::specs::Text::moved_to, crate::specs::Text::bare, crate::specs::Text::outlined, crate::specs::Text::taken, crate::specs::Text::counted))]
fn declarations_of(text: &[u8], outline: Outline) -> Outline
    ensures { result ≡ outlined (declarations_with idle text.now (bare outline)) }
{
    let open = reader::fixed_after(text, OPEN_BRACE, outline.step);
    let inside = Outline {
        step: open,
        ..outline
    };
    let one = declaration_next(text, inside);
    let all = more_declarations(text, one);
    let close = reader::fixed_after(text, CLOSE_BRACE, all.step);
    Outline { step: close, ..all }
}

// Reads a whole text: how much it declares, and the refusal where it does not read.
#[tactic(auto, unfolding(crate::specs::Text::reading, crate::specs::Text::moved_to, crate::specs::Text::bare, crate::specs::Text::outlined, crate::specs::Text::taken, crate::specs::Text::counted))]
pub fn read_text(text: &[u8]) -> Outline
    ensures { result ≡ outlined (reading text.now) }
{
    let start = Outline {
        parameters: 0,
        registers: 0,
        variables: 0,
        step: Ok(0),
    };
    let parameters = parameters_of(text, start);
    let all = declarations_of(text, parameters);
    let end = reader::fixed_after(text, END, all.step);
    Outline { step: end, ..all }
}
