//! How a template is checked, and what it lends.

ghost use Rattle.std.specs.Prelude.{◌≡◌, true, [], ◌∷◌, IfOk};
ghost use Rattle.packing.specs.Unpacking.{unpack};
ghost use Rattle.checker.specs.Templates.{Becomes, source_of, tree_of};
ghost use Rattle.checker.specs.Whole.{answered, unpacks, verdict};

use crate::check::Checker;
use crate::template::Template;
use meaning::fault::Fault;

impl<'a> Template<'a> {
    /// The template without text and statements.
    pub fn empty() -> Template<'a>
        ensures source { source_of result ≡ [] }
        ensures tree { tree_of result ≡ 0x0A ∷ [] }
    {
        Template {
            source: &[],
            tree: &[0x0A],
        }
    }

    /// The template of these bytes; or the first fault in them.
    pub fn new(source: &'a [u8], tree: &'a [u8]) -> Result<Template<'a>, Fault>
        ensures answers { answered result ≡ verdict (unpack source.now tree.now) }
        ensures source { IfOk result (λ t. source_of t ≡ source.now) }
        ensures tree { IfOk result (λ t. tree_of t ≡ tree.now) }
    {
        Checker { source, tree }.check()?;
        Ok(Template { source, tree })
    }

    /// Becomes the template of these bytes; or answers the first fault in them, and stays as it was.
    pub fn set(&mut self, source: &'a [u8], tree: &'a [u8]) -> Result<(), Fault>
        ensures answers { answered result ≡ verdict (unpack source.now tree.now) }
        ensures leaves { Becomes source.now tree.now self.old self.new result }
    {
        *self = Template::new(source, tree)?;
        Ok(())
    }

    /// The source, which the tree's spans lie in.
    pub fn source(&self) -> &'a [u8]
        ensures bytes { result.now ≡ source_of self.now }
        ensures ok { unpacks result.now (tree_of self.now) ≡ true }
    {
        self.source
    }

    /// The packed tree, which unpacks.
    pub fn tree(&self) -> &'a [u8]
        ensures bytes { result.now ≡ tree_of self.now }
        ensures ok { unpacks (source_of self.now) result.now ≡ true }
    {
        self.tree
    }
}
