ghost use Rattle.std.specs.Prelude.{◌≡◌, map};
ghost use Rattle.meaning.specs.Hosts.{Sink as Meaning, Lawful, Alike};
ghost use Rattle.sinks.specs.Offered.{answering, came, in_order, joined, as_one};

/// Takes text piece by piece, or stops at a level.
pub trait Sink {
    /// What a sink of this type does with pieces.
    ghost sink: { Meaning };

    ghost state: { Self → sink.State };

    ghost lawful: { Lawful sink };

    /// Takes the piece; or answers the level that stopped, and stays as it was.
    // A level is a number by its meaning: a limit's is one above the highest beneath it.
    fn offer(&mut self, piece: &[u8]) -> Result<(), u16>
        ensures { came result (state self.new) ≡ answering (state self.old) (sink.take (state self.old) piece.now) };

    /// The highest level that it stops at.
    fn highest(&self) -> u16
        ensures { result ≡ sink.highest };
}

/// Offers the pieces in order until one stops. It is all the same whether a text comes in pieces or as one:
/// both leave the same, or both stop.
#[tactic(auto, using(crate::proofs::Turns::turn_taken))]
pub fn offer_all<S: Sink>(sink: &mut S, pieces: &[&[u8]]) -> Result<(), u16>
    ensures order { came result (S.Sink.state sink.new) ≡ in_order S.Sink.sink (S.Sink.state sink.old) (map (λ x. x.now) pieces.now) }
    ensures whole { Alike (S.Sink.sink.take (S.Sink.state sink.old) (joined (map (λ x. x.now) pieces.now))) (as_one (came result (S.Sink.state sink.new))) }
{
    for piece in pieces {
        sink.offer(piece)?;
    }
    Ok(())
}
