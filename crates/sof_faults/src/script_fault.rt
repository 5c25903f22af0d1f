// What is wrong with a line of a script.
ghost use Rattle.std.specs.Prelude.{◌<◌, ◌-◌, ◌^◌, length};

use crate::shown::{Quoted, Shown, ShownName};
use crate::topology_fault::topology_in;
use crate::usage::{Argument, arguments};
use sof_base::NoMemory;
use sof_script::{
    Binding, Script, ScriptFault, Tokens, before_return, first_line, from_first_token, parse,
};
use std::alloc::Global;
use std::fmt;
use std::fmt::Display;
use stream_law::Kind;
use thiserror::Error;
use tplg_graph::{Plan, plan};

// The arguments of a word, as a sentence names them.
#[derive(Clone, Copy, Debug)]
struct Usage(&'static [Argument]);

impl Display for Usage {
    fn fmt<W: fmt::Write>(&self, f: &mut fmt::Formatter<W>) -> fmt::Result {
        if self.0.is_empty() {
            return write!(f, "no argument");
        }
        let mut between = "";
        for argument in self.0 {
            write!(f, "{between}{}", argument.word())?;
            if argument.word() == "VALUE" {
                write!(f, " .., with 1 to 8 values")?;
            }
            between = " ";
        }
        Ok(())
    }
}

// Why a line of a script is at fault.
#[derive(Clone, Copy, Debug, Error)]
enum LineCause<'a> {
    #[error("a byte of the line is no printable character of ASCII")]
    Byte,
    #[error("a quote is not closed, or no blank follows it")]
    Quote,
    #[error("{0} is no word of a script")]
    Word(Quoted<'a>),
    #[error("it takes {0}")]
    Count(Usage),
    #[error("{0}")]
    Argument(Argument),
    #[error("no endpoint has the name {0}")]
    NoEndpoint(Quoted<'a>),
    #[error("{0} is bound by 'out': its bytes go to a file")]
    Output(Quoted<'a>),
    #[error("{0} is bound by 'in': its bytes come from a file")]
    Input(Quoted<'a>),
    #[error("line {0} binds this endpoint already")]
    Bound(u32),
}

// A line at fault, as it stands, and why.
#[derive(Clone, Copy, Debug, Error)]
#[error("{text}: {cause}")]
struct LineFault<'a> {
    text: Shown<'a>,
    cause: LineCause<'a>,
}

// The line of a number, from 1.
fn line_of(bytes: &[u8], number: u32) -> Option<&[u8]> {
    let mut rest = bytes;
    for _ in 1..number {
        if rest.is_empty() {
            return None;
        }
        rest = first_line(rest).1;
    }
    if rest.is_empty() {
        return None;
    }
    let (line, _) = first_line(rest);
    Some(before_return(line))
}

// Why the arguments of a word are at fault, for a cause from 4 on.
fn arguments_cause(
    arguments: &'static [Argument],
    tokens: &[&[u8]],
    cause: u8,
) -> Option<LineCause<'static>> {
    if cause == 4 {
        return Some(LineCause::Count(Usage(arguments)));
    }
    let last = arguments.last()?;
    for (at, token) in tokens.iter().enumerate() {
        let argument = arguments.get(at).unwrap_or(last);
        if argument.is_wrong(*token, cause) {
            return Some(LineCause::Argument(*argument));
        }
    }
    None
}

// Why a line is at fault, by its cause's number.
fn line_cause(line: &[u8], cause: u8) -> Option<LineCause<'_>> {
    match cause {
        1 => return Some(LineCause::Byte),
        2 => return Some(LineCause::Quote),
        _ => {}
    }
    let tokens = Tokens::of(from_first_token(line)?)?;
    let [word, behind @ ..] = tokens.all() else {
        return None;
    };
    match arguments(*word) {
        Some(arguments) => arguments_cause(arguments, behind, cause),
        None => Some(LineCause::Word(Quoted(*word))),
    }
}

// Why the line of this number, from 1, is at fault, by the number of its cause; none where it is not.
fn line_fault(bytes: &[u8], line: u32, cause: u8) -> Option<LineFault<'_>> {
    let text = line_of(bytes, line)?;
    let cause = line_cause(text, cause)?;
    Some(LineFault {
        text: Shown(text),
        cause,
    })
}

// Whether an endpoint of this name takes its bytes from a file; none where there is no such endpoint.
fn takes_input(plan: &Plan, name: &[u8]) -> Option<bool> {
    for comp in plan.graph.comps.items() {
        let input = match comp.kind {
            Kind::HostPlay | Kind::DaiCapture(_) => true,
            Kind::HostCapture | Kind::DaiPlay(_) => false,
            _ => continue,
        };
        match plan.names.items().get(comp.id as usize) {
            Some(other) if other.as_bytes() == name => return Some(input),
            _ => {}
        }
    }
    None
}

// Why the binding of a place is wrong after those before it; none where it is right.
fn binding_cause<'a>(
    plan: &Plan,
    bindings: &[Binding],
    at: usize,
    binding: &'a Binding,
) -> Option<LineCause<'a>> {
    let name = binding.endpoint.as_bytes();
    let Some(input) = takes_input(plan, name) else {
        return Some(LineCause::NoEndpoint(Quoted(name)));
    };
    if binding.input && !input {
        return Some(LineCause::Output(Quoted(name)));
    }
    if !binding.input && input {
        return Some(LineCause::Input(Quoted(name)));
    }
    for other in bindings.iter().take(at) {
        if other.endpoint.as_bytes() == name {
            return Some(LineCause::Bound(other.line));
        }
    }
    None
}

// The line, from 1, of the first binding that is wrong over a plan, and why.
fn binding_fault<'a>(plan: &Plan, script: &'a Script) -> Option<(u32, LineCause<'a>)> {
    let bindings = script.bindings.items();
    for (at, binding) in bindings.iter().enumerate() {
        if let Some(cause) = binding_cause(plan, bindings, at, binding) {
            return Some((binding.line, cause));
        }
    }
    None
}

/// The sentence of the first line of a script that is at fault, with the name of its file and its number in front; none where
/// there is no such line.
pub fn script_sentence(alloc: Global, file: &str, bytes: &[u8]) -> Result<Option<String>, NoMemory>
    requires { length bytes.now < 2 ^ 32 - 1 }
{
    let (line, cause) = match parse(alloc, bytes) {
        Ok(_) => return Ok(None),
        Err(ScriptFault::Line { line, cause }) => (line, cause),
        Err(ScriptFault::OutOfMemory) => return Err(NoMemory),
    };
    match line_fault(bytes, line, cause) {
        Some(fault) => Ok(Some(format!(in alloc; "{}:{line}: {fault}", ShownName(file))?)),
        None => Ok(None),
    }
}

/// The sentence of the first binding of a script that is wrong over the plan of a topology file; none where there is no such
/// binding, no script or no plan.
pub fn binding_sentence(
    alloc: Global,
    file: &str,
    bytes: &[u8],
    topology: &[u8],
) -> Result<Option<String>, NoMemory>
    requires script { length bytes.now < 2 ^ 32 - 1 }
    requires topology { length topology.now < 2 ^ 32 }
{
    let Ok(script) = parse(alloc, bytes) else {
        return Ok(None);
    };
    let Ok(topology) = topology_in(alloc, topology) else {
        return Ok(None);
    };
    let Ok(plan) = plan(alloc, &topology) else {
        return Ok(None);
    };
    let Some((line, cause)) = binding_fault(&plan, &script) else {
        return Ok(None);
    };
    let text = line_of(bytes, line).unwrap_or(b"");
    let fault = LineFault {
        text: Shown(text),
        cause,
    };
    Ok(Some(format!(in alloc; "{}:{line}: {fault}", ShownName(file))?))
}
