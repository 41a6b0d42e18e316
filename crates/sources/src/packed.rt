//! Packed values and their parts, found where they stand.

ghost use Rattle.std.specs.Prelude.{◌≡◌, ℕ, List};
ghost use Rattle.meaning.specs.Parts.{nth, value_of};
ghost use Rattle.meaning.specs.Value.{Entries, Items, Value};
ghost use Rattle.packing.specs.Reader.{read};
ghost use Rattle.packing.specs.Unpacking.{value_within};
ghost use Rattle.sources.specs.Outcomes.{FoundIn};
ghost use Rattle.sources.specs.Packed.{EntriesOf, ItemsOf, Left, StandEntries, StandItems, Stands};

use crate::walking::{Place, or_absent};
use loading::building::build_value;
use meaning::fault::Cause;
use meaning::tree::AccessOp;
use reader::field::{read_byte, read_text, read_u16};
use store::cell::Ref;
use store::kinds::Kind;
use store::memory::{Full, Store};
use values::measuring::measure_value;

/// A value at the front of packed bytes, which may have so many levels.
#[derive(Clone, Copy)]
pub(crate) struct PackedValue<'a> {
    pub(crate) bytes: &'a [u8],
    pub(crate) levels: usize,
}

/// The parts of a list or map, one after another.
#[derive(Clone, Copy)]
pub(crate) struct PackedParts<'a> {
    count: u16,
    bytes: &'a [u8],
    levels: usize,
}

impl Place for PackedValue<'_> {
    ghost stands = { Stands };

    fn by_index(self, number: usize, op: AccessOp) -> Result<Option<Self>, Cause> {
        match self.parts(Kind::List) {
            Some(items) => or_absent(items.item(number), op, Cause::NoSuchIndex),
            None => Err(Cause::WrongAccess),
        }
    }

    fn by_key(self, key: &[u8], op: AccessOp) -> Result<Option<Self>, Cause> {
        match self.parts(Kind::Map) {
            Some(entries) => or_absent(entries.value_of(key), op, Cause::NoSuchKey),
            None => Err(Cause::WrongAccess),
        }
    }

    fn make(self, store: &mut Store) -> Result<Ref, Full> {
        match build_value(store, self.bytes, 0, self.levels) {
            Some((value, _)) => Ok(value),
            None => Err(Full),
        }
    }
}

impl<'a> PackedValue<'a> {
    /// The bytes after it.
    fn rest(self) -> Option<&'a [u8]>
        ensures { (v : Value) (rest : List ℕ) → value_within self.entry.levels self.entry.bytes.now ≡ read v rest → Left rest result }
    {
        let (_, end) = measure_value(self.bytes, 0, self.levels).ok()?;
        self.bytes.get(end..)
    }

    /// Its parts, if it is of that kind.
    fn parts(self, kind: Kind) -> Option<PackedParts<'a>>
        ensures items { kind ≡ Kind.List → (v : Value) → Stands self.entry v → ItemsOf v result }
        ensures entries { kind ≡ Kind.Map → (v : Value) → Stands self.entry v → EntriesOf v result }
    {
        let (byte, next) = read_byte(self.bytes, 0)?;
        if byte != kind.byte() {
            return None;
        }
        let (count, first) = read_u16(self.bytes, next)?;
        let levels = self.levels.checked_sub(1)?;
        let bytes = self.bytes.get(first..)?;
        Some(PackedParts {
            count,
            bytes,
            levels,
        })
    }
}

impl<'a> PackedParts<'a> {
    /// The item of a list with that number, counted from 0.
    fn item(self, number: usize) -> Option<PackedValue<'a>>
        ensures { (vs : Items) → StandItems self.entry vs → FoundIn Stands (nth vs number) result }
    {
        if number >= usize::from(self.count) {
            return None;
        }
        let mut bytes = self.bytes;
        for _passed in 0..number {
            let item = self.part(bytes);
            bytes = item.rest()?;
        }
        Some(self.part(bytes))
    }

    /// The value of a map under that key.
    fn value_of(self, key: &[u8]) -> Option<PackedValue<'a>>
        ensures { (es : Entries) → StandEntries self.entry es → FoundIn Stands (value_of es key.now) result }
    {
        let mut bytes = self.bytes;
        for _passed in 0..self.count {
            let (name, start) = read_text(bytes, 0)?;
            let value = self.part(bytes.get(start..)?);
            if key == name {
                return Some(value);
            }
            bytes = value.rest()?;
        }
        None
    }

    /// A part at the front of those bytes.
    fn part(self, bytes: &'a [u8]) -> PackedValue<'a>
        ensures { (result.bytes.now ≡ bytes.now) × (result.levels ≡ self.entry.levels) }
    {
        PackedValue {
            bytes,
            levels: self.levels,
        }
    }
}
