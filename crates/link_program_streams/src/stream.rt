//! What a source and a sink are.

ghost use Rattle.std.specs.Prelude.{◌≡◌, ◌<◌, ◌≤◌, ℕ, List, None, length, take, Option, IfOk, OnOk, OnErr};
ghost use Rattle.link_program_streams.specs.Streams.{Gives, IsAtEnd, Takes, Rose, IsCalledOnce, raised};

/// A call of a source or a sink failed, and its count of faults rose.
#[derive(Clone, Copy, Debug, PartialEq, Eq, thiserror::Error)]
#[error("the stream failed")]
pub struct Failed;

/// Something that bytes are read from, as standard input.
pub trait Source {
    /// The bytes still to come, where the source tells them. Whether it tells is kept by each call.
    ghost left: { Self → Option (List ℕ) };

    /// How many faults came, as it counts them: one that it makes good may count too.
    ghost faults: { Self → ℕ };

    /// How many calls were answered by `Failed`.
    ghost refusals: { Self → ℕ };

    /// How many calls came, where the source tells it; a source that says nothing of it doesn't. Whether it tells is kept by each call.
    ghost calls: { Self → Option ℕ } = { λ _. None };

    /// Hands over the next bytes at the front of a buffer that isn't empty, and answers how many
    /// they are; 0 is the end.
    fn read(&mut self, buf: &mut [u8]) -> Result<usize, Failed>
        requires { 0 < length buf.old }
        ensures fits { IfOk result (λ count. count ≤ length buf.old) }
        ensures given { IfOk result (λ count. Gives (left self.old) (left self.new) (take count buf.new)) }
        ensures end { IfOk result (λ count. count ≡ 0 → IsAtEnd (left self.old)) }

        ensures failed { OnErr result (Rose (faults self.old) (faults self.new)) }
        ensures kept { OnErr result (left self.new ≡ left self.old) }
        ensures never_falls { faults self.old ≤ faults self.new }
        ensures answered { OnOk result (refusals self.new ≡ refusals self.old) }
        ensures refused { OnErr result (refusals self.new ≡ raised (refusals self.old)) }
        ensures counted { IsCalledOnce (calls self.old) (calls self.new) };
}

/// Something that bytes are written to, as standard output.
pub trait Sink {
    /// The bytes that the sink has taken, where it tells them. Whether it tells is kept by each
    /// call.
    ghost taken: { Self → Option (List ℕ) };

    /// How many faults came, as it counts them: one that it makes good may count too.
    ghost faults: { Self → ℕ };

    /// How many calls were answered by `Failed`.
    ghost refusals: { Self → ℕ };

    /// Takes bytes from the front of a piece that isn't empty, at least one, and answers how many
    /// they are.
    fn write(&mut self, piece: &[u8]) -> Result<usize, Failed>
        requires { 0 < length piece.now }
        ensures some { IfOk result (λ count. 0 < count) }
        ensures fits { IfOk result (λ count. count ≤ length piece.now) }
        ensures taken { IfOk result (λ count. Takes (taken self.old) (taken self.new) (take count piece.now)) }

        ensures failed { OnErr result (Rose (faults self.old) (faults self.new)) }
        ensures kept { OnErr result (taken self.new ≡ taken self.old) }
        ensures never_falls { faults self.old ≤ faults self.new }
        ensures answered { OnOk result (refusals self.new ≡ refusals self.old) }
        ensures refused { OnErr result (refusals self.new ≡ raised (refusals self.old)) };
}
