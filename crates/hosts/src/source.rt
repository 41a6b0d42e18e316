//! Value sources: from paths to values.

ghost use Rattle.std.specs.Prelude.{List, map as each};
ghost use Rattle.meaning.specs.Hosts.{ValueSource as Meaning};
ghost use Rattle.meaning.specs.Scopes.{ask as asked};
ghost use Rattle.meaning.specs.Walk.{Ask};
ghost use Rattle.reader.specs.Fields.{as_it_is, members_of};
ghost use Rattle.hosts.specs.Answers.{Answers, GivesText};

use crate::answer::Unmade;
use reader::field::Members;
use store::cell::Ref;
use store::memory::Store;

/// Answers whole paths. Being asked changes nothing.
pub trait ValueSource {
    /// The value, or the reason, for each path.
    ghost valued: { Self → Meaning };

    /// Its values hold only well-formed text.
    ghost texts: { (self : Self) (path : List Ask) → GivesText (valued self path) };

    /// The answer to a variable's members, whose names stand in that source. It is made in the store, and charged whole.
    fn ask(&self, source: &[u8], path: Members, store: &mut Store) -> Result<Ref, Unmade<u16>>
        ensures { Answers as_it_is store.old store.new (valued self.now (each (asked source.now) (members_of path.entry))) result };
}
