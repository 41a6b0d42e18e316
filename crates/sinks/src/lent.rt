use crate::sink::Sink;

/// A borrowed sink is a sink.
impl<S: Sink> Sink for &mut S {
    ghost sink = { S.Sink.sink };

    ghost state = { λ l. S.Sink.state l.now };

    ghost lawful = { S.Sink.lawful };

    fn offer(&mut self, piece: &[u8]) -> Result<(), u16> {
        (**self).offer(piece)
    }

    fn highest(&self) -> u16 {
        (**self).highest()
    }
}
