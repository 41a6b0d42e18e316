//! How templates are held: none at first, then added and removed.

ghost use Rattle.std.specs.Prelude.{◌≡◌, ◌<◌, ◌≤◌, length, vec_len};
ghost use Rattle.meaning.specs.Charge.{Charge};
ghost use Rattle.meaning.specs.Names.{name_of};
ghost use Rattle.meaning.specs.Or.{gives};
ghost use Rattle.meaning.specs.Tree.{Scope};
ghost use Rattle.meaning.specs.Value.{Value};
ghost use Rattle.packing.specs.Unpacking.{unpack};
ghost use Rattle.program.specs.Program as program;
ghost use Rattle.checker.specs.Templates.{source_of, tree_of};
ghost use Rattle.model.specs.Model.{added, put, removed};
ghost use Rattle.templates.specs.Entries.{Goes, Located, template_from};
ghost use Rattle.templates.specs.Held.{HasIndex, Leaves, Opens, WellNamed, entries_of, model_of, templates_of};

use crate::entry::{Entry, PLACE_BYTES, PLACE_INSTRS, PLACES};
use crate::lookup::{close_gap, index_of};
use crate::memory::{check_program, write_template};
use crate::table::Templates;
use checker::template::Template;
use compiler::instr::Instr;
use meaning::fault::{Cause, Fault};
use meaning::name::Name;
use std::array::from_fn;
use std::cmp::max;

/// The name of these bytes, or the fault that they are none.
fn named(bytes: &[u8]) -> Result<Name, Fault>
    ensures { WellNamed bytes.now result }
{
    let Some(name) = Name::new(bytes) else {
        return Err(Fault::of_call(Cause::BadName, 0));
    };
    Ok(name)
}

impl Templates {
    /// No templates, in this memory; or it is refused as too little.
    #[tactic(auto, using(crate::proofs::Spots::in_order_apart))]
    pub fn new(bytes: Vec<u8>, instrs: Vec<Instr>) -> Result<Templates, Fault>
        ensures { Opens (vec_len bytes) (vec_len instrs) result }
    {
        if bytes.len() < PLACES * PLACE_BYTES || instrs.len() < PLACES * PLACE_INSTRS {
            return Err(Fault::of_call(Cause::StoreFull, 0));
        }
        Ok(Templates {
            bytes,
            instrs,
            entries: from_fn(Entry::free),
            count: 0,
        })
    }

    /// The index of the entry that has the name.
    fn index_of(&self, name: &Name) -> Option<usize>
        ensures { Located (name_of name.now) (entries_of self.now) result }
    {
        index_of(&self.entries[0..self.count], name.as_bytes())
    }

    /// The index at which a template of the name goes: that of the one it replaces, or behind all.
    fn index_for(&self, name: &Name) -> Result<usize, Fault>
        ensures { HasIndex (name_of name.now) self.now result }
    {
        let at = self.index_of(name).unwrap_or(self.count);
        if at == self.entries.len() {
            return Err(Fault::of_call(Cause::TemplatesFull, 0));
        }
        Ok(at)
    }

    /// Writes the template to the place of the entry at `at`, which is free or that of the template that is replaced.
    fn put(&mut self, at: usize, name: Name, template: &Template)
        requires room { at < 16 }
        requires goes { Goes (name_of name) (entries_of self.old) at }
        requires short { (scope : Scope) → unpack (source_of template.now) (tree_of template.now) ≡ gives scope → length (program.compile scope) ≤ 1024 }
        ensures { templates_of self.new ≡ put (name_of name) (template_from (source_of template.now) (tree_of template.now)) (templates_of self.old) }
    {
        let place = self.entries[at].place;
        self.entries[at] = write_template(&mut self.bytes, &mut self.instrs, place, name, template);
        self.count = max(self.count, at + 1);
    }

    /// Adds the template of these bytes under the name, in the place of one that has the name already.
    #[tactic(auto, using(crate::proofs::Adding::added_left))]
    pub fn add(&mut self, name: &[u8], source: &[u8], tree: &[u8]) -> Result<(), Fault>
        ensures { (supply : Charge) (loaded : Value) → Leaves supply loaded self.old self.new (added (model_of supply loaded self.old) name.now source.now tree.now) result }
    {
        let template = Template::new(source, tree)?;
        check_program(&template)?;
        let name = named(name)?;
        let at = self.index_for(&name)?;
        self.put(at, name, &template);
        Ok(())
    }

    /// Removes the template of the name; the order of the others stays.
    #[tactic(auto, using(crate::proofs::Closed::gap_apart, crate::proofs::Closed::gap_sound, crate::proofs::Closed::unknown_left, crate::proofs::Closed::removed_left))]
    pub fn remove(&mut self, name: &[u8]) -> Result<(), Fault>
        ensures { (supply : Charge) (loaded : Value) → Leaves supply loaded self.old self.new (removed (model_of supply loaded self.old) name.now) result }
    {
        let name = named(name)?;
        let Some(at) = self.index_of(&name) else {
            return Err(Fault::of_call(Cause::UnknownName, 0));
        };
        close_gap(&mut self.entries, at, self.count);
        self.count -= 1;
        Ok(())
    }
}
