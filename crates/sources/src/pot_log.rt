//! A log of pots as a value source: it is walked where it stands, and only what was asked for is made.

ghost use Rattle.std.specs.Prelude.{◌≡◌};
ghost use Rattle.meaning.specs.FaultRecords.{given};
ghost use Rattle.meaning.specs.Parts.{nth};
ghost use Rattle.meaning.specs.Sources.{pot_log};
ghost use Rattle.sources.specs.Pots.{IsAt, all_pots, pots_in, value_of_pot};
ghost use Rattle.sources.specs.SourceTexts.{pot_log_is_text};

use crate::making::{make_log, make_pot, make_pots};
use crate::pot::Pot;
use crate::walking::{Place, ask, or_absent};
use hosts::answer::Unmade;
use hosts::source::ValueSource;
use meaning::fault::Cause;
use meaning::tree::AccessOp;
use reader::field::Members;
use store::cell::Ref;
use store::memory::{Full, Store};

/// The bytes of a log: records of 12 bytes each, and perhaps a short last one, which is skipped.
#[derive(Clone, Copy)]
pub struct PotLog<'a> {
    log: &'a [u8],
}

impl<'a> PotLog<'a> {
    pub fn new(log: &'a [u8]) -> PotLog<'a>
        ensures { result.log.now ≡ log.now }
    {
        PotLog { log }
    }

    /// The records, without a short one.
    #[tactic(auto, using(crate::proofs::Logs::pots_of))]
    fn records(&self) -> &'a [[u8; 12]]
        ensures { pots_in result.now ≡ all_pots self.now.log.now }
    {
        let (records, _short) = self.log.as_chunks();
        records
    }
}

impl ValueSource for PotLog<'_> {
    ghost valued = { λ p. pot_log p.log.now };

    ghost texts = { λ p. pot_log_is_text p.log.now };

    fn ask(&self, source: &[u8], path: Members, store: &mut Store) -> Result<Ref, Unmade<u16>> {
        ask(LogPlace::Log(self.records()), source, path, store)
    }
}

/// Where a value of a log stands.
#[derive(Clone, Copy)]
enum LogPlace<'a> {
    /// A map with the list of the pots.
    Log(&'a [[u8; 12]]),
    Pots(&'a [[u8; 12]]),
    Pot(Pot),
    Field(i64),
}

impl Place for LogPlace<'_> {
    ghost stands = { IsAt };

    fn by_index(self, number: usize, op: AccessOp) -> Result<Option<Self>, Cause> {
        match self {
            LogPlace::Pots(records) => {
                let pot = match pot_at(records, number) {
                    Some(pot) => Some(LogPlace::Pot(pot)),
                    None => None,
                };
                or_absent(pot, op, Cause::NoSuchIndex)
            }
            _ => Err(Cause::WrongAccess),
        }
    }

    fn by_key(self, key: &[u8], op: AccessOp) -> Result<Option<Self>, Cause> {
        match self {
            LogPlace::Log(records) => {
                let pots = match key {
                    b"pots" => Some(LogPlace::Pots(records)),
                    _ => None,
                };
                or_absent(pots, op, Cause::NoSuchKey)
            }
            LogPlace::Pot(pot) => {
                let field = match pot.field(key) {
                    Some(field) => Some(LogPlace::Field(field)),
                    None => None,
                };
                or_absent(field, op, Cause::NoSuchKey)
            }
            _ => Err(Cause::WrongAccess),
        }
    }

    fn make(self, store: &mut Store) -> Result<Ref, Full> {
        match self {
            LogPlace::Log(records) => make_log(store, records),
            LogPlace::Pots(records) => make_pots(store, records),
            LogPlace::Pot(pot) => make_pot(store, pot),
            LogPlace::Field(n) => store.make_integer(n),
        }
    }
}

/// The pot with that number, counted from 0.
#[tactic(auto, using(crate::proofs::Logs::record_there, crate::proofs::Logs::record_missing))]
fn pot_at(records: &[[u8; 12]], number: usize) -> Option<Pot>
    ensures { given value_of_pot result ≡ nth (pots_in records.now) number }
{
    let record = records.get(number)?;
    Some(Pot::of_record(record))
}
