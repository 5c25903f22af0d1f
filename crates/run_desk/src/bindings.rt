// Whether the bindings of a script are right, and what they bind.
ghost use Rattle.std.specs.Prelude.{◌≡◌, ◌&&◌};
ghost use Rattle.std.specs.List.{list_any};
ghost use Rattle.std.specs.Str.{bytes_eq};
ghost use Rattle.sof_script.specs.ScriptRead.{bound_of, bounds_of};
ghost use Rattle.run_desk.specs.Bindings as right;
ghost use Rattle.run_desk.specs.BindingParts as line_parts;

use sof_base::Name44;
use sof_script::Binding;
use stream_law::{Comp, Kind};
use tplg_graph::Plan;

// Whether a component of this kind takes its frames from an input, or gives them to an output.
fn is_endpoint(input: bool, kind: Kind) -> bool
    ensures { result ≡ right.is_endpoint_kind input kind }
{
    match kind {
        Kind::HostPlay | Kind::DaiCapture(_) => input,
        Kind::HostCapture | Kind::DaiPlay(_) => !input,
        _ => false,
    }
}

// Whether the widget of an id has this name.
fn is_named(plan: &Plan, name: &Name44, id: u32) -> bool
    ensures { result ≡ line_parts.has_widget_name plan.now name.now id }
{
    match plan.names.items().get(id as usize) {
        Some(other) => name.as_bytes() == other.as_bytes(),
        None => false,
    }
}

// Whether a component is the endpoint of this direction and this name.
fn is_sought(plan: &Plan, input: bool, name: &Name44, comp: &Comp) -> bool
    ensures { result ≡ right.is_sought plan.now input name.now comp.now }
{
    is_endpoint(input, comp.kind) && is_named(plan, name, comp.id)
}

// Whether an endpoint of this direction has this name.
fn has_endpoint(plan: &Plan, input: bool, name: &Name44) -> bool
    ensures { result ≡ line_parts.has_endpoint plan.now input name.now }
{
    plan.graph
        .comps
        .items()
        .iter()
        .any(|comp| is_sought(plan, input, name, comp))
}

// Whether a binding binds this endpoint.
fn binds(binding: &Binding, endpoint: &Name44) -> bool
    ensures { result ≡ bytes_eq endpoint.now binding.now.endpoint }
{
    endpoint.as_bytes() == binding.endpoint.as_bytes()
}

// Whether some of these bindings binds this endpoint.
fn is_bound(bindings: &[Binding], endpoint: &Name44) -> bool
    ensures { result ≡ list_any (λ b. bytes_eq endpoint.now b.endpoint) bindings.now }
{
    bindings.iter().any(|binding| binds(binding, endpoint))
}

// Whether a binding is right after earlier ones.
fn is_right(plan: &Plan, earlier: &[Binding], binding: &Binding) -> bool
    ensures { result ≡ right.is_right plan.now (bounds_of earlier.now) (bound_of binding.now) }
{
    has_endpoint(plan, binding.input, &binding.endpoint) && !is_bound(earlier, &binding.endpoint)
}

/// The id of the component of the endpoint of this direction and this name; 0 where there is no such endpoint.
pub fn slot_of(plan: &Plan, input: bool, name: &Name44) -> u32
    ensures { result ≡ line_parts.slot_of plan.now input name.now }
{
    for comp in plan.graph.comps.items() {
        if is_sought(plan, input, name, comp) {
            return comp.id;
        }
    }
    0
}

/// The line of the first binding that is wrong, if any is.
pub fn wrong_binding(plan: &Plan, bindings: &[Binding]) -> Option<u32>
    ensures { result ≡ right.wrong_binding plan.now (bounds_of bindings.now) }
{
    let mut earlier = 0;
    for binding in bindings {
        if !is_right(plan, &bindings[..earlier], binding) {
            return Some(binding.line);
        }
        earlier += 1;
    }
    None
}
