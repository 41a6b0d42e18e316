//! What is read of the templates: each by its index, and an index by name.

ghost use Rattle.std.specs.Prelude.{◌≡◌, ◌<◌, length, slice_index_or};
ghost use Rattle.meaning.specs.Names.{name_of};
ghost use Rattle.meaning.specs.Or.{gives};
ghost use Rattle.packing.specs.Unpacking.{unpack};
ghost use Rattle.program.specs.Program as program;
ghost use Rattle.templates.specs.Held.{Fetches, FewInstrs, Finds, entries_of, name_at, template_at, templates_of, tree_at};

use crate::entry::{Entry, PLACE_BYTES, PLACE_INSTRS, SOURCE_BYTES};
use crate::lookup::index_of;
use crate::table::Templates;
use compiler::instr::Instr;
use meaning::name::Name;

// What is read by an index asks that it be below the number of templates, as a slice's own index does: a number alone cannot say
// of which templates it is one.
impl Templates {
    /// The entry of a template.
    #[tactic(auto, using(crate::proofs::Indexed::counted, crate::proofs::Indexed::used))]
    fn entry(&self, i: usize) -> Entry
        requires { i < length (templates_of self.now) }
        ensures is { result ≡ slice_index_or (entries_of self.now) i result }
        ensures within { i < length (entries_of self.now) }
    {
        self.entries[i]
    }

    /// How many templates there are.
    #[tactic(auto, using(crate::proofs::Indexed::counted))]
    pub fn len(&self) -> usize
        ensures { result ≡ length (templates_of self.now) }
    {
        self.count
    }

    /// The index of the template under the name.
    #[tactic(auto, using(crate::proofs::Indexed::finds))]
    pub fn find(&self, name: &[u8]) -> Option<usize>
        ensures { Finds (templates_of self.now) name.now result }
    {
        index_of(&self.entries[0..self.count], name)
    }

    /// The name of a template.
    #[tactic(auto, using(crate::proofs::Indexed::name_is))]
    pub fn name(&self, i: usize) -> Name
        requires { i < length (templates_of self.now) }
        ensures { name_of result ≡ name_at (templates_of self.now) i }
    {
        self.entry(i).name
    }

    // source and tree differ in where they begin and in their length, which are all that a function for both could be told

    /// The source of a template.
    #[tactic(auto, using(crate::proofs::Indexed::lent, crate::proofs::Indexed::source_read))]
    pub fn source(&self, i: usize) -> &[u8]
        requires { i < length (templates_of self.now) }
        ensures { result.now ≡ (template_at (templates_of self.now) i).source }
    {
        let entry = self.entry(i);
        let start = entry.place * PLACE_BYTES;
        &self.bytes.as_slice()[start..start + entry.source_len]
    }

    /// The packed tree of a template.
    #[tactic(auto, using(crate::proofs::Indexed::lent, crate::proofs::Indexed::tree_read, crate::proofs::Indexed::tree_unpacks))]
    pub fn tree(&self, i: usize) -> &[u8]
        requires { i < length (templates_of self.now) }
        ensures bytes { result.now ≡ tree_at self.now i }
        ensures unpacks { unpack (template_at (templates_of self.now) i).source result.now ≡ gives (template_at (templates_of self.now) i).tree }
    {
        let entry = self.entry(i);
        let start = entry.place * PLACE_BYTES + SOURCE_BYTES;
        &self.bytes.as_slice()[start..start + entry.tree_len]
    }

    /// The instruction `pc` of a template's program; none at its end and behind it.
    #[tactic(auto, using(crate::proofs::Indexed::lent, crate::proofs::Indexed::item_is, crate::proofs::Indexed::fetched, crate::proofs::Indexed::few_instrs))]
    pub fn instr(&self, i: usize, pc: usize) -> Option<Instr>
        requires { i < length (templates_of self.now) }
        ensures fetches { Fetches (tree_at self.now i) (program.compile (template_at (templates_of self.now) i).tree) pc result }
        ensures few { FewInstrs pc result }
    {
        let entry = self.entry(i);
        let start = entry.place * PLACE_INSTRS;
        self.instrs.as_slice()[start..start + entry.len]
            .get(pc)
            .copied()
    }
}
