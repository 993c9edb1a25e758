ghost use Rattle.std.specs.Prelude.{◌≡◌, ℕ, ◌≤◌, OnOk};

use dn_base::Memory;

/// A sequential object: the answer of a call, and the content that it leaves, are functions of the content and the input.
pub trait Object {
    /// The input of a call.
    type In: Copy;
    /// The output of a call.
    type Out: Copy;

    /// What of the object its answers depend on.
    ghost Content: { Type 0 };

    ghost content: { Self → Content };

    /// For how many more calls the object has memory.
    ghost spare: { Self → ℕ };

    /// The output of a call.
    ghost answer: { Content → Self.In → Self.Out };

    /// The content after a call.
    ghost next: { Content → Self.In → Content };

    /// Takes the memory for one more call. The content stays.
    ///
    /// # Errors
    /// `Memory` if there isn't enough; the content stays then too.
    fn reserve(&mut self) -> Result<(), Memory>
        ensures same { content self.new ≡ content self.old }
        ensures room { OnOk result (1 ≤ spare self.new) };

    /// Makes one call. Takes no memory.
    fn step(&mut self, input: Self::In) -> Self::Out
        requires { 1 ≤ spare self.old }
        ensures answer { result ≡ answer (content self.old) input }
        ensures content { content self.new ≡ next (content self.old) input };
}
