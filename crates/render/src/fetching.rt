//! The instruction where the renderer stands.

ghost use Rattle.std.specs.Prelude.{◌<◌, length};
ghost use Rattle.program.specs.Program as program;
ghost use Rattle.machine.specs.Machine as machine;
ghost use Rattle.templates.specs.Held.{template_at, templates_of};
ghost use Rattle.render.specs.Fetching.{Few, Reads};

use crate::state::Open;
use decoder::decode::decode;
use decoder::decoded::Decoded;
use templates::table::Templates;

/// The instruction that comes next in an open template; none at its end and behind it.
#[tactic(auto, using(crate::proofs::Fetches::reads_past, crate::proofs::Fetches::reads_within, crate::proofs::Fetches::stands_within))]
pub(crate) fn fetch<'t>(templates: &'t Templates, here: Open) -> Option<Decoded<'t>>
    requires { here.template < length (templates_of templates.now) }
    ensures few { Few here.pc result }
    ensures reads { Reads (machine.fetch (program.compile (template_at (templates_of templates.now) here.template).tree) here.pc) result }
{
    let instr = templates.instr(here.template, here.pc)?;
    let Some(decoded) = decode(templates.tree(here.template), instr) else {
        unreachable()
    };
    Some(decoded)
}
