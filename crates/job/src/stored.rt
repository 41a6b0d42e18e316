//! The outline of a value that lies in a store: a line for each value, and for each key.

ghost use Rattle.std.specs.Prelude.{◌≡◌, ◌+◌, ◌^◌, ◌<◌, ◌≤◌};
ghost use Rattle.meaning.specs.Charge.{cost};
ghost use Rattle.job.specs.Lines.{Wrote, label_line};
ghost use Rattle.job.specs.Stored.{IsList, IsMap, Shows, outline_parts, shown_words};
ghost use Rattle.job.specs.Values.{key_line, outline_value};
ghost use Rattle.store.specs.Stores.{Known, value};

use crate::lines::Report;
use reader::literal::PlainValue;
use std::alloc::AllocError;
use store::cell::Ref;
use store::kinds::Kind;
use store::memory::Store;

/// A value of a store, as its line shows it: a list or map by how many parts it has.
#[derive(Clone, Copy)]
enum Shown<'s> {
    Plain(PlainValue<'s>),
    List(u16),
    Map(u16),
}

/// The value that a reference stands for.
fn show<'s>(store: &'s Store, at: Ref) -> Shown<'s>
    requires { Known store.now at }
    ensures { Shows (value store.now at) result }
{
    match store.kind(at) {
        Kind::None => Shown::Plain(PlainValue::Nothing),
        Kind::Boolean if store.boolean(at) => Shown::Plain(PlainValue::True),
        Kind::Boolean => Shown::Plain(PlainValue::False),
        Kind::Integer => Shown::Plain(PlainValue::Integer(store.integer(at))),
        Kind::Float => Shown::Plain(PlainValue::Float(store.float(at))),
        Kind::String => Shown::Plain(PlainValue::String(store.text(at))),
        Kind::List => Shown::List(store.size(at)),
        Kind::Map => Shown::Map(store.size(at)),
    }
}

impl Report {
    /// What a value is, and what it holds.
    fn put_shown(&mut self, shown: Shown) -> Result<(), AllocError>
        ensures { Wrote (shown_words shown.entry) result self.old self.new }
    {
        match shown {
            Shown::Plain(plain) => self.put_value(plain),
            Shown::List(count) => write!(self, "list of {count} parts"),
            Shown::Map(count) => write!(self, "map of {count} entries"),
        }
    }

    /// The line of a value.
    fn put_head_line(&mut self, depth: usize, shown: Shown) -> Result<(), AllocError>
        ensures { Wrote (label_line depth (shown_words shown.entry)) result self.old self.new }
    {
        self.put_indent(depth)?;
        self.put_shown(shown)?;
        self.put(b"\n")
    }

    /// The line of a map's key.
    fn put_key_line(&mut self, depth: usize, key: &[u8]) -> Result<(), AllocError>
        ensures { Wrote (key_line depth key.now) result self.old self.new }
    {
        self.put_indent(depth)?;
        self.put(b"key ")?;
        self.put_quoted(key)?;
        self.put(b"\n")
    }

    /// A value, and all that stands in it.
    #[cycle(values)]
    pub(crate) fn put_stored(
        &mut self,
        store: &Store,
        at: Ref,
        depth: usize,
    ) -> Result<(), AllocError>
        requires known { Known store.now at }
        requires shallow { depth + (cost (value store.now at)).cells < 2 ^ 64 }
        ensures { Wrote (outline_value depth (value store.now at)) result self.old self.new }
    {
        let shown = show(store, at);
        self.put_head_line(depth, shown)?;
        match shown {
            Shown::Plain(_) => Ok(()),
            Shown::List(count) => self.put_items(store, at, count, depth + 1),
            Shown::Map(count) => self.put_entries(store, at, count, depth + 1),
        }
    }

    /// The parts of a list.
    #[cycle(values)]
    fn put_items(
        &mut self,
        store: &Store,
        list: Ref,
        count: u16,
        depth: usize,
    ) -> Result<(), AllocError>
        requires known { Known store.now list }
        requires is_list { IsList (value store.now list) count }
        requires shallow { depth + (cost (value store.now list)).cells ≤ 2 ^ 64 }
        ensures { Wrote (outline_parts depth (value store.now list)) result self.old self.new }
    {
        for number in 0..count {
            let Some(part) = store.part(list, number as usize) else {
                unreachable()
            };
            self.put_stored(store, part, depth)?;
        }
        Ok(())
    }

    /// The entries of a map: each key, and its value under it.
    #[cycle(values)]
    fn put_entries(
        &mut self,
        store: &Store,
        map: Ref,
        count: u16,
        depth: usize,
    ) -> Result<(), AllocError>
        requires known { Known store.now map }
        requires is_map { IsMap (value store.now map) count }
        requires shallow { depth + (cost (value store.now map)).cells ≤ 2 ^ 64 }
        ensures { Wrote (outline_parts depth (value store.now map)) result self.old self.new }
    {
        for number in 0..count {
            let Some(entry) = store.entry(map, number as usize) else {
                unreachable()
            };
            self.put_key_line(depth, store.text_at(entry.key))?;
            self.put_stored(store, entry.value, depth + 1)?;
        }
        Ok(())
    }
}
