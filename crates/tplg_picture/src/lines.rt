// The lines of a picture, each with its newline.
ghost use Rattle.std.specs.Prelude.{◌≡◌, IfOk};
ghost use Rattle.tplg_picture.specs.Picture as law;

use crate::labels::{fill_of, say_comp, say_name};
use crate::shown::Shown;
use crate::words::{say, say_end, say_number};
use sof_base::{Items, NoMemory};
use std::alloc::Global;
use stream_law::{Comp, Edge, Pipe};
use tplg_plan::Plan;

/// A component's node.
#[tactic(auto, unfolding(crate::specs::Picture::node_statement))]
pub fn node_statement(
    alloc: Global,
    plan: &Plan,
    shown: &Shown,
    comp: &Comp,
) -> Result<Items<u8>, NoMemory>
    ensures { IfOk result (λ line. line ≡ law.node_statement plan.now shown.now comp.now) }
{
    let mut line = Vec::new(alloc);
    say(&mut line, b"n")?;
    say_number(&mut line, comp.id)?;
    say(&mut line, b" [label=\"")?;
    say_comp(&mut line, plan, shown, comp)?;
    say(&mut line, b"\", fillcolor=\"")?;
    say(&mut line, fill_of(comp.kind))?;
    say(&mut line, b"\"];\n")?;
    Ok(Items::from_vec(line))
}

/// The first line of a pipeline's cluster.
#[tactic(auto, unfolding(crate::specs::Picture::cluster_line))]
pub fn cluster_line(alloc: Global, pipe: &Pipe) -> Result<Items<u8>, NoMemory>
    ensures { IfOk result (λ line. line ≡ law.cluster_line pipe.now) }
{
    let mut line = Vec::new(alloc);
    say(&mut line, b"subgraph cluster_")?;
    say_number(&mut line, pipe.index)?;
    say(&mut line, b" {\n")?;
    Ok(Items::from_vec(line))
}

/// Its second line.
#[tactic(auto, unfolding(crate::specs::Picture::title_line))]
pub fn title_line(alloc: Global, plan: &Plan, pipe: &Pipe) -> Result<Items<u8>, NoMemory>
    ensures { IfOk result (λ line. line ≡ law.title_line plan.now pipe.now) }
{
    let mut line = Vec::new(alloc);
    say(&mut line, b"label=\"")?;
    say_name(&mut line, plan, pipe.id)?;
    say(&mut line, b"\\nindex ")?;
    say_number(&mut line, pipe.index)?;
    say(&mut line, b", period ")?;
    say_number(&mut line, pipe.period)?;
    say(&mut line, b" us\";\n")?;
    Ok(Items::from_vec(line))
}

/// A buffer between two components.
#[tactic(auto, unfolding(crate::specs::Picture::edge_statement))]
pub fn edge_statement(alloc: Global, plan: &Plan, edge: &Edge) -> Result<Items<u8>, NoMemory>
    ensures { IfOk result (λ line. line ≡ law.edge_statement plan.now edge.now) }
{
    let mut line = Vec::new(alloc);
    say(&mut line, b"n")?;
    say_end(&mut line, edge.source)?;
    say(&mut line, b" -> n")?;
    say_end(&mut line, edge.sink)?;
    say(&mut line, b" [label=\"")?;
    say_name(&mut line, plan, edge.buffer)?;
    say(&mut line, b"\\n")?;
    say_number(&mut line, edge.size)?;
    say(&mut line, b" bytes\"];\n")?;
    Ok(Items::from_vec(line))
}
